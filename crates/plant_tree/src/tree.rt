ghost use Rattle.std.specs.Prelude.{◌≡◌, ◌↔◌, ℕ, ◌<◌, Some, length, map, slice_get, Contains, IfOk};
ghost use Rattle.std.specs.List.Sorted.{IsStrictlyIncreasing};
ghost use Rattle.walk_laws.specs.Canonical.{IsCanonical};
ghost use Rattle.walk_laws.specs.Joined.{Joined};
ghost use Rattle.plant_tree.specs.Planted.{AreOfNodes};

use crate::planter::Planter;
use rank_table::Ranking;
use std::alloc::{AllocError, Global};
use walk_laws::{Dist, Graph};

/// The nodes for which a root is canonical, each with its distance from the root.
pub type Planted = Vec<(u32, Dist)>;

/// The planted tree of the node at the position `p`, which counts from 0: by rising node, the nodes for which that
/// node is canonical, with their distances. (Planting Trees, PVLDB 2019.) The only error is that memory ran out.
pub fn plant(alloc: Global, graph: &Graph, ranking: &Ranking, p: u32) -> Result<Planted, AllocError>
    requires nodes { length ranking.now ≡ graph.now.n }
    requires position { p < length ranking.now }
    ensures nodes { IfOk result (λ planted. AreOfNodes graph.now.n planted.items) }
    ensures rising { IfOk result (λ planted. IsStrictlyIncreasing (map (λ e. e.0) planted.items)) }
    ensures each { IfOk result (λ planted. (h v d : ℕ) → slice_get ranking.now p ≡ Some h
        → (Contains planted.items (v, d) ↔ IsCanonical (Joined graph.now.edges) ranking.now h v d)) }
{
    let (planted, _settled) = plant_counted(alloc, graph, ranking, p)?;
    Ok(planted)
}

/// The planted tree, as [`plant`] gives it, and how many nodes were settled to find it.
pub fn plant_counted(
    alloc: Global,
    graph: &Graph,
    ranking: &Ranking,
    p: u32,
) -> Result<(Planted, u32), AllocError>
    requires nodes { length ranking.now ≡ graph.now.n }
    requires position { p < length ranking.now }
    ensures nodes { IfOk result (λ tree. AreOfNodes graph.now.n tree.0.items) }
    ensures rising { IfOk result (λ tree. IsStrictlyIncreasing (map (λ e. e.0) tree.0.items)) }
    ensures each { IfOk result (λ tree. (h v d : ℕ) → slice_get ranking.now p ≡ Some h
        → (Contains tree.0.items (v, d) ↔ IsCanonical (Joined graph.now.edges) ranking.now h v d)) }
{
    let mut planter = Planter::new(alloc, graph.n())?;
    let (mut planted, settled) = planter.plant(alloc, graph, ranking, p)?;
    planted.sort_unstable_by_key(|entry| entry.0);
    Ok((planted, settled))
}
