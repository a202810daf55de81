ghost use Rattle.std.specs.Prelude.{◌≡◌, length, IfOk, IfErr};
ghost use Rattle.hub_index.specs.Faults.{TellsFault};
ghost use Rattle.walk_laws.specs.Joined.{Joined};
ghost use Rattle.walk_laws.specs.Overflow.{Overflows};
ghost use Rattle.chl_inputs.specs.Stages.{Conforms};
ghost use Rattle.chl_answers.specs.Commands.{IsFileOf, build_stage};
ghost use Rattle.chl_words.specs.Asking.{AreWithinLimits};
ghost use Rattle.chl_words.specs.declared.asked.Version.TheVariants.{One, Two};

use crate::labelling::{labelling, unbuilt};
use chl_inputs::{Stop, read_graph, read_order};
use chl_outputs::traced_file;
use chl_words::{By, Construction, Name, Version};
use desk_io::{Desk, Gate};
use gll_build::build_gll_split;
use hub_index::BuildFault;
use hybrid_build::build_hybrid_split;
use index_file::{Pieces, encode_by};
use rank_table::Ranking;
use std::alloc::Global;
use std::sync::Wait;
use std::thread::Threads;
use walk_laws::Graph;

/// The bytes of the index file, of a version, of the canonical hub labelling of a graph under an order.
pub fn build_output<R: Threads + Wait + Sync, D: Desk, G: Gate + Sync>(
    rt: &R,
    alloc: Global,
    graph: &Name,
    order: &Name,
    version: Version,
    construction: Construction,
    desk: &mut D,
    gate: &G,
) -> Result<Pieces, Stop>
    requires { AreWithinLimits construction.workers construction.cut }
    ensures { Conforms D.Desk (build_stage version graph.now order.now) result desk.old desk.new }
{
    let graph = read_graph(alloc, graph.text(), desk)?;
    let ranking = read_order(alloc, order.text(), graph.n(), desk)?;
    let made = file_bytes(rt, alloc, &graph, &ranking, version, construction, gate);
    let bytes = made.map_err(unbuilt)?;
    Ok(bytes)
}

/// The bytes of the file, or why no index was built.
fn file_bytes<R: Threads + Wait + Sync, G: Gate + Sync>(
    rt: &R,
    alloc: Global,
    graph: &Graph,
    ranking: &Ranking,
    version: Version,
    construction: Construction,
    gate: &G,
) -> Result<Pieces, BuildFault>
    requires size { length ranking.now ≡ graph.now.n }
    requires limits { AreWithinLimits construction.workers construction.cut }
    ensures bytes { IfOk result (IsFileOf version graph.now ranking.now) }
    ensures fits { IfOk result (λ _. ¬ Overflows (Joined graph.now.edges) ranking.now) }
    ensures fault { IfErr result (TellsFault (Joined graph.now.edges) ranking.now) }
{
    match version {
        Version::One => plain_bytes(rt, alloc, graph, ranking, construction, gate),
        Version::Two => traced_bytes(rt, alloc, graph, ranking, construction, gate),
    }
}

/// The bytes of the file of version 2, whose vias are made from the rows of the finished index.
fn traced_bytes<R: Threads + Wait + Sync, G: Gate + Sync>(
    rt: &R,
    alloc: Global,
    graph: &Graph,
    ranking: &Ranking,
    construction: Construction,
    gate: &G,
) -> Result<Pieces, BuildFault>
    requires size { length ranking.now ≡ graph.now.n }
    requires limits { AreWithinLimits construction.workers construction.cut }
    ensures bytes { IfOk result (IsFileOf Two graph.now ranking.now) }
    ensures fits { IfOk result (λ _. ¬ Overflows (Joined graph.now.edges) ranking.now) }
    ensures fault { IfErr result (TellsFault (Joined graph.now.edges) ranking.now) }
{
    let index = labelling(rt, alloc, graph, ranking, construction, gate)?;
    Ok(traced_file(rt, alloc, graph, index, construction.workers)?)
}

/// The bytes of the file of version 1. An index by supersteps, whatever they begin with, is written out of the rows that the build
/// worked with.
fn plain_bytes<R: Threads + Wait + Sync, G: Gate + Sync>(
    rt: &R,
    alloc: Global,
    graph: &Graph,
    ranking: &Ranking,
    construction: Construction,
    gate: &G,
) -> Result<Pieces, BuildFault>
    requires size { length ranking.now ≡ graph.now.n }
    requires limits { AreWithinLimits construction.workers construction.cut }
    ensures bytes { IfOk result (IsFileOf One graph.now ranking.now) }
    ensures fits { IfOk result (λ _. ¬ Overflows (Joined graph.now.edges) ranking.now) }
    ensures fault { IfErr result (TellsFault (Joined graph.now.edges) ranking.now) }
{
    if let By::Gll = construction.by {
        let split = build_gll_split(
            rt,
            alloc,
            graph,
            ranking,
            construction.workers,
            construction.cut,
            gate,
        )?;
        return Ok(encode_by(rt, alloc, &split, construction.workers)?);
    }
    if let By::Hybrid = construction.by {
        let split = build_hybrid_split(
            rt,
            alloc,
            graph,
            ranking,
            construction.workers,
            construction.cut,
            construction.eta,
            gate,
        )?;
        return Ok(encode_by(rt, alloc, &split, construction.workers)?);
    }
    let index = labelling(rt, alloc, graph, ranking, construction, gate)?;
    Ok(encode_by(rt, alloc, &index, construction.workers)?)
}
