ghost use Rattle.std.specs.Prelude.{◌≡◌, ◌⊎◌, length, Err};
ghost use Rattle.index_audit.specs.declared.answer.Audit.{Audit as AnyAudit};
ghost use Rattle.chl_inputs.specs.Stages.{Conforms};
ghost use Rattle.chl_inputs.specs.declared.stop.Stop.TheVariants.{NoMemory};
ghost use Rattle.chl_answers.specs.Commands.{IsStoredAuditOf, audit_stage, audit_text};

use chl_inputs::{Stop, read_graph, read_index, read_order};
use chl_words::Name;
use desk_io::Desk;
use index_audit::{Audit, audit_on, audit_traced_on};
use index_file::{Pieces, StoredIndex};
use rank_table::Ranking;
use std::alloc::Global;
use std::thread::Threads;
use walk_laws::Graph;

/// The line `same`, where the index of a file is that of the canonical hub labelling of a graph under an order, and its vias, if
/// it has any, are those of this index; else the first thing that is wrong with it.
pub fn audit_output<R: Threads + Sync, D: Desk>(
    rt: &R,
    alloc: Global,
    graph: &Name,
    order: &Name,
    index: &Name,
    desk: &mut D,
) -> Result<Pieces, Stop>
    ensures { Conforms D.Desk (audit_stage graph.now order.now index.now) result desk.old desk.new }
{
    let graph = read_graph(alloc, graph.text(), desk)?;
    let ranking = read_order(alloc, order.text(), graph.n(), desk)?;
    let stored = read_index(alloc, index.text(), desk)?;
    told(rt, alloc, &graph, &ranking, &stored)
}

/// The line `same`, or what is wrong with the index.
fn told<R: Threads + Sync>(
    rt: &R,
    alloc: Global,
    graph: &Graph,
    ranking: &Ranking,
    stored: &StoredIndex,
) -> Result<Pieces, Stop>
    requires { length ranking.now ≡ graph.now.n }
    ensures { (found : AnyAudit) × IsStoredAuditOf graph.now ranking.now stored.now found
        × ((result ≡ audit_text found) ⊎ (result ≡ Err NoMemory)) }
{
    match found_on(rt, graph, ranking, stored) {
        Audit::Same => Ok(Pieces::one(alloc, Vec::from_slice(alloc, b"same\n")?)),
        fault => Err(Stop::Differs(fault)),
    }
}

/// What an audit finds, on all cores: what is wrong with the rows of the index, or with its vias.
fn found_on<R: Threads + Sync>(
    rt: &R,
    graph: &Graph,
    ranking: &Ranking,
    stored: &StoredIndex,
) -> Audit
    requires { length ranking.now ≡ graph.now.n }
    ensures { IsStoredAuditOf graph.now ranking.now stored.now result }
{
    match stored {
        StoredIndex::Plain(index) => audit_on(rt, graph, ranking, index),
        StoredIndex::Traced(traced) => audit_traced_on(rt, graph, ranking, traced),
    }
}
