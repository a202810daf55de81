//! The first roots of the square, planted.
ghost use Rattle.std.specs.Prelude.{◌≡◌, length};

use super::{expect_row, one_to_four, square_graph};
use desk_io::FreeGate;
use hub_index::RowList;
use plant_build::plant_first;
use rank_table::Ranking;
use std::process::Abort;
use std::sync::Wait;
use std::test::Fail;
use std::thread::Threads;
use walk_laws::Graph;

/// The entries of the nodes 1 and 2 in the rows of the square: positions and distances.
const FIRST_TWO: [&[(u32, u64)]; 4] = [&[(0, 0)], &[(0, 1), (1, 0)], &[(0, 2), (1, 1)], &[(0, 1)]];

/// The rows that the first two roots leave, planted by so many workers, 64 at most.
fn two_planted<R: Abort + AllocGlobal + Threads + Wait + Sync>(
    rt: &R,
    graph: &Graph,
    ranking: &Ranking,
    workers: u32,
    cut: u32,
) -> Result<RowList, Fail>
    requires nodes { length ranking.now ≡ graph.now.n }
{
    assert!(rt; graph.n() >= 2);
    assert!(rt; 1 <= workers && workers <= 64);
    assert!(rt; 1 <= cut && cut <= 1 << 30);
    let rows = plant_first(rt, rt.alloc(), graph, ranking, 2, workers, cut, &FreeGate)?;
    Ok(rows)
}

/// Whatever the workers and the batches, the rows have the hubs 1 and 2, and no other.
#[test]
fn two_roots_of_the_square(rt: HostRuntime) -> Result<(), Fail> {
    let graph = square_graph(rt.alloc())?;
    let ranking = one_to_four(rt.alloc())?;
    for (workers, cut) in &[(1, 1), (1, 1024), (2, 1), (64, 1)] {
        let rows = two_planted(&rt, &graph, &ranking, *workers, *cut)?;
        for (place, row) in FIRST_TWO.iter().enumerate() {
            expect_row(&rt, &rows, place as u32 + 1, row);
        }
    }
    Ok(())
}
