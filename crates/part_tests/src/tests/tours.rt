//! The order in which the nodes of a graph get new numbers.

use renumbering::bfs_order;
use std::test::Fail;
use walk_laws::{Edge, Graph};

/// The path 1-4-2-3, and node 5 apart: the bfs_order is 1, 4, 2, 3, 5.
#[test]
fn neighbours_stand_side_by_side(rt: HostRuntime) -> Result<(), Fail> {
    let edges = vec![in rt.alloc();
        Edge { u: 1, v: 4, w: 5 },
        Edge { u: 2, v: 4, w: 6 },
        Edge { u: 2, v: 3, w: 7 },
    ]?;
    let graph = Graph::new(rt.alloc(), 5, edges)?;
    let bfs_order = bfs_order(rt.alloc(), &graph)?;
    for (place, node) in [1, 4, 2, 3, 5].iter().enumerate() {
        let p = place as u32;
        assert!(rt; p < bfs_order.n());
        assert_eq!(rt; bfs_order.at(p), *node);
    }
    Ok(())
}
