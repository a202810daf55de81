//! What the tests of builds share: graphs with their rankings, and builds by each construction.
ghost use Rattle.std.specs.Prelude.{◌≡◌, ◌^◌, ◌≤◌, IfOk, length};

mod batches;
mod gates;
mod meetings;
mod pools;
mod roots;
mod supersteps;

use chl_cmd::By;
use desk_io::{FreeGate, Gate};
use gll_build::build_gll;
use grid_work::grid_graph;
use hub_index::Index;
use hybrid_build::build_hybrid;
use index_file::encode;
use lcc_build::build_lcc;
use plant_build::build_plant;
use rank_table::{Ranking, by_degree};
use std::alloc::Global;
use std::process::Abort;
use std::sync::Wait;
use std::test::Fail;
use std::thread::Threads;
use walk_laws::Graph;

/// A grid of this side, which is at most 181, and the ranking of its nodes by degree.
fn grid<R: Abort>(rt: &R, alloc: Global, side: u32) -> Result<(Graph, Ranking), Fail>
    ensures { IfOk result (λ made. length made.1 ≡ made.0.n) }
{
    assert!(rt; side <= 181);
    let graph = grid_graph(alloc, side, 1)?;
    let ranking = by_degree(alloc, &graph)?;
    assert_eq!(rt; ranking.n(), graph.n());
    Ok((graph, ranking))
}

/// A construction with its number of workers, from 1 to 64, its cut, and how many roots a hybrid one plants.
#[derive(Clone, Copy, Debug)]
struct Built {
    by: By,
    workers: u32,
    cut: u32,
    eta: u32,
}

/// The index that a construction gives, watched by a gate.
fn build<R: Abort + AllocGlobal + Threads + Wait + Sync, G: Gate + Sync>(
    rt: &R,
    graph: &Graph,
    ranking: &Ranking,
    built: Built,
    gate: &G,
) -> Result<Index, Fail>
    requires { length ranking.now ≡ graph.now.n }
{
    let Built {
        by,
        workers,
        cut,
        eta,
    } = built;
    assert!(rt; 1 <= workers && workers <= 64);
    assert!(rt; 1 <= cut && cut <= 1 << 30);
    let alloc = rt.alloc();
    let made = match by {
        By::Plant => build_plant(rt, alloc, graph, ranking, workers, cut, gate),
        By::Lcc => build_lcc(rt, alloc, graph, ranking, workers, gate),
        By::Gll => build_gll(rt, alloc, graph, ranking, workers, cut, gate),
        By::Hybrid => build_hybrid(rt, alloc, graph, ranking, workers, cut, eta, gate),
    };
    Ok(made?)
}

/// The file of the index that LCC makes by one worker, which is none of the watched builds.
fn wanted_file<R: AllocGlobal + Threads + Wait + Sync>(
    rt: &R,
    graph: &Graph,
    ranking: &Ranking,
) -> Result<Vec<u8>, Fail>
    requires { length ranking.now ≡ graph.now.n }
{
    let index = build_lcc(rt, rt.alloc(), graph, ranking, 1, &FreeGate)?;
    Ok(encode(rt.alloc(), &index)?)
}

/// Checks that an index has the wanted file.
fn expect_file<R: Abort + AllocGlobal + Threads + Wait + Sync>(
    rt: &R,
    graph: &Graph,
    ranking: &Ranking,
    index: &Index,
) -> Result<(), Fail>
    requires { length ranking.now ≡ graph.now.n }
{
    let wanted = wanted_file(rt, graph, ranking)?;
    assert!(rt; encode(rt.alloc(), index)?.as_slice() == wanted.as_slice());
    Ok(())
}
