ghost use Rattle.std.specs.Prelude.{◌≡◌, ◌≢◌, All, length, IfOk, IfErr};
ghost use Rattle.hub_index.specs.Faults.{TellsFault};
ghost use Rattle.hub_index.specs.WellFormed.{IsWellFormed};
ghost use Rattle.index_audit.specs.Audited.{IsAuditOf};
ghost use Rattle.index_audit.specs.declared.answer.Audit.{Audit as AnyAudit};
ghost use Rattle.index_audit.specs.declared.answer.Audit.TheVariants.{Same};
ghost use Rattle.walk_laws.specs.Graph.{IsEdge, IsGraph};
ghost use Rattle.walk_laws.specs.Joined.{Joined};
ghost use Rattle.walk_laws.specs.Labelling.{IsChl};
ghost use Rattle.walk_laws.specs.Overflow.{Overflows};
ghost use Rattle.chl_inputs.specs.Stages.{Conforms};
ghost use Rattle.chl_inputs.specs.declared.stop.Stop.TheVariants.{Differs};
ghost use Rattle.chl_answers.specs.Commands.{IsFileOf, edits_stage, longer, open_stage};

use crate::index_bytes::traced_file;
use crate::stops::stop_at;
use chl_inputs::{NotOf, Stop, read_edits, read_graph, read_index};
use chl_words::{Name, Version};
use desk_io::Desk;
use edge_open::{open_edges, opened_graph};
use entry_vias::ranges::cores;
use hub_index::{BuildFault, Index};
use index_audit::{Audit, audit_on};
use index_file::{Pieces, encode_by};
use std::alloc::{AllocError, Global};
use std::thread::Threads;
use walk_laws::{Edge, Graph};

/// The bytes of the index file, of a version, that a build makes of a graph with the edges of a text appended to its list, under
/// the order of the index of a file, of either version, where this is that of the canonical hub labelling of the graph; else the
/// first thing that is wrong with it. Nothing is built: what the edges make nearer is found from the index.
pub fn open_output<R: Threads + Sync, D: Desk>(
    rt: &R,
    alloc: Global,
    graph: &Name,
    index: &Name,
    edits: &Name,
    version: Version,
    desk: &mut D,
) -> Result<Pieces, Stop>
    ensures { Conforms D.Desk (open_stage version graph.now index.now edits.now) result desk.old desk.new }
{
    let graph = read_graph(alloc, graph.text(), desk)?;
    let stored = read_index(alloc, index.text(), desk)?;
    edited_output(
        rt,
        alloc,
        &graph,
        stored.into_index(),
        edits.text(),
        version,
        desk,
    )
}

/// The same of an index.
fn edited_output<R: Threads + Sync, D: Desk>(
    rt: &R,
    alloc: Global,
    graph: &Graph,
    index: Index,
    edits: &str,
    version: Version,
    desk: &mut D,
) -> Result<Pieces, Stop>
    ensures { Conforms D.Desk (edits_stage version graph.now index edits.now) result desk.old desk.new }
{
    let edits = read_edits(alloc, edits, graph.n(), desk)?;
    if graph.n() != index.n() {
        return Err(Stop::NotOfGraph(NotOf::Sizes {
            graph: graph.n(),
            index: index.n(),
        }));
    }
    audited(rt, graph, &index)?;
    let made = opened_bytes(rt, alloc, graph, index, edits.edges(), version);
    let bytes = made.map_err(stop_at)?;
    Ok(bytes)
}

/// Nothing, where an index is that of a graph under its own order; else the stop at the first thing that is wrong with it.
fn audited<R: Threads + Sync>(rt: &R, graph: &Graph, index: &Index) -> Result<(), Stop>
    requires { length index.now.order ≡ graph.now.n }
    ensures same { IfOk result (λ _. IsAuditOf graph.now index.now.order index.now Same) }
    ensures labelling { IfOk result (λ _. IsChl (Joined graph.now.edges) index.now.order index.now.rows) }
    ensures differs { IfErr result (λ stop. (fault : AnyAudit) × (fault ≢ Same) × IsAuditOf graph.now index.now.order index.now fault × (stop ≡ Differs fault)) }
{
    match audit_on(rt, graph, index.ranking(), index) {
        Audit::Same => Ok(()),
        fault => Err(Stop::Differs(fault)),
    }
}

/// The bytes of the file of the longer graph, from the index of the graph, or why there are none.
fn opened_bytes<R: Threads + Sync>(
    rt: &R,
    alloc: Global,
    graph: &Graph,
    index: Index,
    edges: &[Edge],
    version: Version,
) -> Result<Pieces, BuildFault>
    requires nodes { length index.order ≡ graph.now.n }
    requires labelling { IsChl (Joined graph.now.edges) index.order index.rows }
    requires ends { All (IsEdge graph.now.n) edges.now }
    ensures bytes { IfOk result (IsFileOf version (longer graph.now edges.now) index.order) }
    ensures fits { IfOk result (λ _. ¬ Overflows (Joined (longer graph.now edges.now).edges) index.order) }
    ensures fault { IfErr result (TellsFault (Joined (longer graph.now edges.now).edges) index.order) }
{
    let opened = open_edges(rt, alloc, graph, index, edges)?;
    Ok(file_bytes(rt, alloc, graph, edges, opened, version)?)
}

/// The bytes of the file of the index of the longer graph.
fn file_bytes<R: Threads + Sync>(
    rt: &R,
    alloc: Global,
    graph: &Graph,
    edges: &[Edge],
    opened: Index,
    version: Version,
) -> Result<Pieces, AllocError>
    requires nodes { length opened.order ≡ graph.now.n }
    requires labelling { IsChl (Joined (longer graph.now edges.now).edges) opened.order opened.rows }
    requires ends { All (IsEdge graph.now.n) edges.now }
    ensures { IfOk result (IsFileOf version (longer graph.now edges.now) opened.order) }
{
    match version {
        Version::One => encode_by(rt, alloc, &opened, cores(rt)),
        Version::Two => {
            let longer = opened_graph(alloc, graph, edges)?;
            traced_file(rt, alloc, &longer, opened, cores(rt))
        }
    }
}
