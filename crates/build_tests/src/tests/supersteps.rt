//! Supersteps one by one.
ghost use Rattle.std.specs.Prelude.{◌≡◌, ◌<◌, length, IfOk};
ghost use Rattle.label_clean.specs.Below.{IsChlBelow};

use super::*;
use gll_build::{build_gll_from, superstep};
use hub_index::RowList;

/// One superstep of one worker: it begins with the root `first`, and the next one is `next`.
fn step<R: Abort + AllocGlobal + Threads + Wait + Sync>(
    rt: &R,
    graph: &Graph,
    ranking: &Ranking,
    global: RowList,
    cut: u32,
    first: u32,
    next: u32,
) -> Result<RowList, Fail>
    requires nodes { length ranking.now ≡ graph.now.n }
    requires global { IsChlBelow graph.now.edges ranking.now first global }
    requires first { first < length ranking.now }
    ensures { IfOk result (IsChlBelow graph.now.edges ranking.now next) }
{
    assert!(rt; 1 <= cut && cut <= 1 << 30);
    let alloc = rt.alloc();
    let (rows, reached) = superstep(rt, alloc, graph, ranking, global, first, 1, cut, &FreeGate)?;
    assert_eq!(rt; reached, next, "{cut}");
    Ok(rows)
}

/// The first superstep of one worker with this cut ends before the root `next`.
fn first_step<R: Abort + AllocGlobal + Threads + Wait + Sync>(
    rt: &R,
    graph: &Graph,
    ranking: &Ranking,
    cut: u32,
    next: u32,
) -> Result<RowList, Fail>
    requires nodes { length ranking.now ≡ graph.now.n }
    ensures { IfOk result (IsChlBelow graph.now.edges ranking.now next) }
{
    let n = graph.n();
    assert!(rt; n > 0);
    let none = RowList::new(rt.alloc(), n)?;
    step(rt, graph, ranking, none, cut, 0, next)
}

/// The trees of the grid of side 2 put 4, 3, 2 and 1 entries.
#[test]
fn a_worker_takes_roots_until_it_has_put_the_cut(rt: HostRuntime) -> Result<(), Fail> {
    let made = grid(&rt, rt.alloc(), 2)?;
    for (cut, next) in &[(1, 1), (4, 1), (5, 2), (7, 2), (8, 3), (10, 4)] {
        first_step(&rt, &made.0, &made.1, *cut, *next)?;
    }
    Ok(())
}

/// Each superstep goes on with the rows of the one before.
#[test]
fn supersteps_come_to_the_last_root(rt: HostRuntime) -> Result<(), Fail> {
    let made = grid(&rt, rt.alloc(), 2)?;
    assert_eq!(rt; made.1.n(), 4);
    let rows = first_step(&rt, &made.0, &made.1, 1, 1)?;
    let rows = step(&rt, &made.0, &made.1, rows, 1, 1, 2)?;
    step(&rt, &made.0, &made.1, rows, 1024, 2, 4)?;
    Ok(())
}

/// A build goes on with the rows of the first superstep, and so with those of all supersteps.
#[test]
fn a_build_goes_on_with_the_rows_of_the_first_roots(rt: HostRuntime) -> Result<(), Fail> {
    let made = grid(&rt, rt.alloc(), 2)?;
    for (cut, next) in &[(1, 1), (10, 4)] {
        let rows = first_step(&rt, &made.0, &made.1, *cut, *next)?;
        let index = go_on(&rt, &made.0, &made.1, rows, *next)?;
        expect_file(&rt, &made.0, &made.1, &index)?;
    }
    Ok(())
}

/// The index that two workers come to by rows up to the root `first`.
fn go_on<R: Abort + AllocGlobal + Threads + Wait + Sync>(
    rt: &R,
    graph: &Graph,
    ranking: &Ranking,
    global: RowList,
    first: u32,
) -> Result<Index, Fail>
    requires nodes { length ranking.now ≡ graph.now.n }
    requires global { IsChlBelow graph.now.edges ranking.now first global }
{
    assert!(rt; first <= ranking.n());
    let alloc = rt.alloc();
    let index = build_gll_from(rt, alloc, graph, ranking, global, first, 2, 1, &FreeGate)?;
    Ok(index)
}
