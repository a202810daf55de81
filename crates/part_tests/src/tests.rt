//! What the tests share: the square 1-2-3-4-1 and its order.
ghost use Rattle.std.specs.Prelude.{◌≡◌, IfOk};
ghost use Rattle.walk_laws.specs.Worked.{entry as entry_of, first_four, square as square_edges};

mod claims;
mod cleaning;
mod first_roots;
mod pools;
mod shared_rows;
mod tours;
mod trees;

use hub_index::RowList;
use rank_table::Ranking;
use std::alloc::Global;
use std::process::Abort;
use std::test::Fail;
use walk_laws::{Dist, Edge, Entry, Graph};

fn entry(pos: u32, dist: u64) -> Entry
    ensures { result ≡ entry_of pos dist }
{
    Entry {
        pos,
        dist: Dist::of_u64(dist),
    }
}

/// Compares the row of a node with these positions and distances.
fn expect_row<R: Abort>(rt: &R, rows: &RowList, v: u32, wanted: &[(u32, u64)]) {
    assert!(rt; 1 <= v && v <= rows.n());
    let row = rows.row(v);
    assert_eq!(rt; row.len(), wanted.len(), "{v}");
    for (place, (pos, dist)) in wanted.iter().enumerate() {
        assert_eq!(rt; row.get(place).copied(), Some(entry(*pos, *dist)), "{v}");
    }
}

/// The ranking in which a smaller number ranks higher.
fn one_to_four(alloc: Global) -> Result<Ranking, Fail>
    ensures { IfOk result (λ ranking. ranking ≡ first_four) }
{
    Ok(Ranking::new(alloc, vec![in alloc; 1, 2, 3, 4]?)?)
}

/// The square 1-2-3-4-1, each side of weight 1.
fn square_graph(alloc: Global) -> Result<Graph, Fail>
    ensures n { IfOk result (λ graph. graph.n ≡ 4) }
    ensures edges { IfOk result (λ graph. graph.edges ≡ square_edges) }
{
    let edges = vec![in alloc;
        Edge { u: 1, v: 2, w: 1 },
        Edge { u: 2, v: 3, w: 1 },
        Edge { u: 3, v: 4, w: 1 },
        Edge { u: 4, v: 1, w: 1 },
    ]?;
    Ok(Graph::new(alloc, 4, edges)?)
}
