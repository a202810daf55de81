//! What workers put is found by the others.
ghost use Rattle.std.specs.Prelude.{◌≡◌, length};

use super::gates::{Order, Watch};
use super::*;
use grid_work::totals_of;

/// How many entries the trees of all roots have put.
fn all_puts(watch: &Watch, n: u32) -> u64 {
    let mut puts = 0u64;
    for p in 0..n {
        puts = puts.saturating_add(u64::from(watch.puts.at(p)));
    }
    puts
}

/// How many entries the index of a graph has that a construction gives under a watch.
fn entries_of<R: Abort + AllocGlobal + Threads + Wait + Sync>(
    rt: &R,
    graph: &Graph,
    ranking: &Ranking,
    built: Built,
    watch: &Watch,
) -> Result<u64, Fail>
    requires { length ranking.now ≡ graph.now.n }
{
    let index = build(rt, graph, ranking, built, watch)?;
    Ok(totals_of(&index).entries)
}

/// Builds the index of a graph by several workers whose trees grow one after another, by rising position, whoever grows them. It
/// answers how many entries the index has, and how many more the trees have put: those of which a tree found no cover, since
/// another worker had put it where this one doesn't see it.
fn in_turn<R: Abort + AllocGlobal + Threads + Wait + Sync>(
    rt: &R,
    graph: &Graph,
    ranking: &Ranking,
    built: Built,
) -> Result<(u64, u64), Fail>
    requires { length ranking.now ≡ graph.now.n }
{
    let watch = Watch::new(rt.alloc(), graph.n(), Order::InTurn)?;
    let entries = entries_of(rt, graph, ranking, built, &watch)?;
    assert!(rt; watch.all_came());
    let puts = all_puts(&watch, graph.n());
    assert!(rt; puts >= entries);
    Ok((entries, puts - entries))
}

/// With room for all that is put every tree finds all that higher roots have put, in whatever thread, so none puts more than the
/// index has: over the rows that LCC shares, and by way of the pool.
#[test]
fn what_is_put_is_found(rt: HostRuntime) -> Result<(), Fail> {
    let made = grid(&rt, rt.alloc(), 20)?;
    for (by, cut) in &[(By::Lcc, 1), (By::Gll, 1 << 16)] {
        let built = Built {
            by: *by,
            workers: 4,
            cut: *cut,
            eta: 0,
        };
        let (_entries, more) = in_turn(&rt, &made.0, &made.1, built)?;
        assert_eq!(rt; more, 0, "{built:?}");
    }
    Ok(())
}

/// A pool may be full before a superstep ends, and what finds no cell the others don't see. Most puts find one: the trees put less
/// than a tenth more than the index has.
#[test]
fn most_puts_find_a_cell(rt: HostRuntime) -> Result<(), Fail> {
    let made = grid(&rt, rt.alloc(), 40)?;
    let built = Built {
        by: By::Gll,
        workers: 4,
        cut: 16384,
        eta: 0,
    };
    let (entries, more) = in_turn(&rt, &made.0, &made.1, built)?;
    assert!(rt; more < entries / 10, "{more} of {entries}");
    Ok(())
}
