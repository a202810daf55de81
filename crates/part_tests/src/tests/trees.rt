//! Planted trees of the square.
ghost use Rattle.std.specs.Prelude.{◌≡◌, ◌<◌, length};

use super::{one_to_four, square_graph};
use plant_tree::{plant, plant_counted};
use rank_table::Ranking;
use std::process::Abort;
use std::test::Fail;
use walk_laws::{Dist, Graph};

/// By falling rank of the root: the nodes for which it is canonical, with their distances.
const TREES: [&[(u32, u64)]; 4] = [
    &[(1, 0), (2, 1), (3, 2), (4, 1)],
    &[(2, 0), (3, 1)],
    &[(3, 0), (4, 1)],
    &[(4, 0)],
];

/// Compares the tree of the position `p`, from 0.
fn expect_tree<R: Abort + AllocGlobal>(
    rt: &R,
    graph: &Graph,
    ranking: &Ranking,
    p: u32,
    tree: &[(u32, u64)],
) -> Result<(), Fail>
    requires nodes { length ranking.now ≡ graph.now.n }
    requires position { p < length ranking.now }
{
    let planted = plant(rt.alloc(), graph, ranking, p)?;
    assert_eq!(rt; planted.len(), tree.len(), "position {p}");
    for (place, (node, dist)) in tree.iter().enumerate() {
        let wanted = (*node, Dist::of_u64(*dist));
        assert_eq!(rt; planted.get(place).copied(), Some(wanted), "position {p}");
    }
    Ok(())
}

/// Checks how many nodes are settled for the tree of the position `p`, from 0.
fn expect_settled<R: Abort + AllocGlobal>(
    rt: &R,
    graph: &Graph,
    ranking: &Ranking,
    p: u32,
    count: u32,
) -> Result<(), Fail>
    requires nodes { length ranking.now ≡ graph.now.n }
    requires position { p < length ranking.now }
{
    let (_planted, settled) = plant_counted(rt.alloc(), graph, ranking, p)?;
    assert_eq!(rt; settled, count, "position {p}");
    Ok(())
}

/// No node beside node 4 can have it for a hub, so its tree ends at once; that of node 1 goes on to the end.
#[test]
fn trees_of_the_square(rt: HostRuntime) -> Result<(), Fail> {
    let graph = square_graph(rt.alloc())?;
    let ranking = one_to_four(rt.alloc())?;
    for (p, tree) in TREES.iter().enumerate() {
        expect_tree(&rt, &graph, &ranking, p as u32, tree)?;
    }
    expect_settled(&rt, &graph, &ranking, 0, 4)?;
    expect_settled(&rt, &graph, &ranking, 3, 1)
}
