//! What a gate is told of the roots of a grid.
ghost use Rattle.std.specs.Prelude.{◌≡◌, length};

use super::gates::{Order, Watch};
use super::*;

/// How many entries of an index have this position.
fn entries_at(index: &Index, p: u32) -> u32 {
    let mut entries = 0u32;
    for v in 0..index.n() {
        for entry in index.row(v + 1) {
            if entry.pos == p {
                entries = entries.saturating_add(1);
            }
        }
    }
    entries
}

/// Checks that the tree of a root has put as many entries as the index has of it; or no fewer, where it may put more than that.
fn expect_puts<R: Abort>(rt: &R, index: &Index, p: u32, puts: u32, exact: bool) {
    let more = puts.checked_sub(entries_at(index, p));
    assert!(rt; more == Some(0) || more.is_some() && !exact, "{p}");
}

/// Checks that each root of a build began once, ended once and put what the index has of it; or no less, where trees may put
/// more than that.
fn expect_roots<R: Abort + AllocGlobal + Threads + Wait + Sync>(
    rt: &R,
    graph: &Graph,
    ranking: &Ranking,
    built: Built,
    exact: bool,
) -> Result<(), Fail>
    requires { length ranking.now ≡ graph.now.n }
{
    let watch = Watch::new(rt.alloc(), graph.n(), Order::Free)?;
    let index = build(rt, graph, ranking, built, &watch)?;
    for p in 0..graph.n() {
        let told = (watch.begun.at(p), watch.ended.at(p));
        assert_eq!(rt; told, (1, 1), "{p} {built:?}");
        expect_puts(rt, &index, p, watch.puts.at(p), exact);
    }
    expect_file(rt, graph, ranking, &index)
}

/// Whatever the number of workers, each root of the grid begins once and ends once, and the file is the same. Planted trees
/// put the entries of the index, and so do pruned ones of one worker; those of many put maybe more, which cleaning deletes. Of the
/// 36 roots a hybrid construction plants 16.
#[test]
fn each_root_grows_once(rt: HostRuntime) -> Result<(), Fail> {
    let made = grid(&rt, rt.alloc(), 6)?;
    for by in &[By::Plant, By::Lcc, By::Gll, By::Hybrid] {
        for workers in &[1, 2, 4] {
            let built = Built {
                by: *by,
                workers: *workers,
                cut: 16,
                eta: 16,
            };
            let exact = *by == By::Plant || *workers == 1;
            expect_roots(&rt, &made.0, &made.1, built, exact)?;
        }
    }
    Ok(())
}
