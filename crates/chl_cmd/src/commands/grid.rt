ghost use Rattle.std.specs.Prelude.{◌≡◌, ◌≤◌, List, IfOk};
ghost use Rattle.grid_work.specs.Totals.{totals_of as totals_of_rows};
ghost use Rattle.rank_table.specs.ByDegree.{IsByDegree};
ghost use Rattle.walk_laws.specs.declared.entry.Entry.{Entry as AnyEntry};
ghost use Rattle.walk_laws.specs.Joined.{Joined};
ghost use Rattle.walk_laws.specs.Labelling.{IsChl};
ghost use Rattle.chl_answers.specs.Commands.{IsGridText};
ghost use Rattle.chl_words.specs.Asking.{IsGridWithinLimits, most_workers};

use crate::labelling::labelling;
use chl_lines::{GridReport, grid_lines};
use chl_words::{By, Construction, Grid};
use desk_io::Gate;
use grid_work::{Totals, grid_graph, totals_of};
use rank_table::{Ranking, by_degree};
use std::alloc::{AllocError, Global};
use std::sync::Wait;
use std::thread::Threads;
use walk_laws::Graph;

/// The cut of each construction that builds a grid: the roots of a batch that is planted, and the entries that a worker puts
/// at least in a superstep.
const GRID_CUT: u32 = 1024;

/// The lines of the square grid of a side and a seed, whose index is built by three of the constructions in turn, under the
/// ranking of its nodes by degree. It touches no desk. Want of memory is the only error.
pub fn grid_text<R: Threads + Wait + Sync, G: Gate + Sync>(
    rt: &R,
    alloc: Global,
    grid: Grid,
    gate: &G,
) -> Result<Vec<u8>, AllocError>
    requires { IsGridWithinLimits grid.side grid.seed grid.workers }
    ensures { IfOk result (λ text. IsGridText grid.side grid.seed text.items) }
{
    let Grid {
        side,
        seed,
        workers,
    } = grid;
    let graph = grid_graph(alloc, side, seed)?;
    let ranking = by_degree(alloc, &graph)?;
    let plant = totals_by(rt, alloc, &graph, &ranking, By::Plant, workers, gate)?;
    let lcc = totals_by(rt, alloc, &graph, &ranking, By::Lcc, workers, gate)?;
    let gll = totals_by(rt, alloc, &graph, &ranking, By::Gll, workers, gate)?;
    let report = GridReport {
        side,
        seed,
        nodes: graph.n(),
        edges: graph.edges().len(),
        plant,
        lcc,
        gll,
    };
    grid_lines(alloc, &report)
}

/// What the index of a graph under its ranking by degree comes to, built by one of the constructions.
fn totals_by<R: Threads + Wait + Sync, G: Gate + Sync>(
    rt: &R,
    alloc: Global,
    graph: &Graph,
    ranking: &Ranking,
    by: By,
    workers: u32,
    gate: &G,
) -> Result<Totals, AllocError>
    requires ranked { IsByDegree graph.now ranking.now }
    requires workers_from { 1 ≤ workers }
    requires workers_to { workers ≤ most_workers }
    ensures { IfOk result (λ totals. (rows : List (List AnyEntry)) × IsChl (Joined graph.now.edges) ranking.now rows
        × (totals ≡ totals_of_rows rows)) }
{
    let construction = Construction {
        by,
        workers,
        cut: GRID_CUT,
        eta: 0,
    };
    // No hub of a grid is too far: it has at most 2^30 nodes, and edges of weights up to 8.
    let index = labelling(rt, alloc, graph, ranking, construction, gate).map_err(|_| AllocError)?;
    Ok(totals_of(&index))
}
