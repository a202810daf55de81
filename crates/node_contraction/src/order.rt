ghost use Rattle.std.specs.Prelude.{◌≡◌, ◌≤◌, ◌^◌, length, IfOk};
ghost use Rattle.walk_laws.specs.Ranking.{IsRanking};

use crate::contraction::Contraction;
use crate::costs::MOST_NEIGHBOURS;
use crate::roads::neighbours_of;
use path_cover::{cover_order, number_at, set_number};
use rank_table::{Ranking, by_degree};
use std::alloc::{AllocError, Global};
use std::cmp::Reverse;
use std::thread::Threads;
use walk_laws::Graph;

/// The core is to have no more nodes, whatever the graph.
const GREATEST_CORE: u32 = 16_000;

/// A ranking of all nodes of a graph under which its hub labelling is small: nodes are contracted, lowest rank first, the one
/// whose contraction costs least next; the core that is left, some 8 sqrt(n) of n nodes, is ranked by a greedy cover of its
/// shortest paths. A node of many neighbours is not contracted: where more than four times that core is left for it, the core
/// is ranked by degree, and where so many nodes have many neighbours in the graph itself, all nodes are. The ranking is the same
/// each time, by however many threads it is made. The only error is that memory ran out.
pub fn contraction_order<R: Threads + Sync>(
    rt: &R,
    alloc: Global,
    graph: &Graph,
) -> Result<Ranking, AllocError>
    ensures { IfOk result (λ ranking. length ranking ≡ graph.now.n) }
{
    let n = graph.n();
    let keep = core_size(n);
    if crowded(graph) > keep.saturating_mul(4) {
        return by_degree(alloc, graph);
    }
    let mut contraction = Contraction::new(alloc, graph)?;
    contraction.contract(rt, alloc, n, n.saturating_sub(keep))?;
    let core = core_of(alloc, graph, &mut contraction)?;
    let core = ranked_core(rt, alloc, n, &contraction, core, keep)?;
    let places = places_of(alloc, n, &core, &contraction.contracted)?;
    let nodes = nodes_by_place(alloc, n, &places)?;
    Ranking::new(alloc, nodes)
}

/// How many nodes the core of n nodes is to have: some 8 sqrt(n).
fn core_size(n: u32) -> u32 {
    let (mut low, mut high) = (0u32, GREATEST_CORE);
    for _ in 0..20 {
        let middle = low / 2 + high / 2;
        if u64::from(middle).saturating_mul(u64::from(middle)) / 64 > u64::from(n) {
            high = middle;
        } else {
            low = middle;
        }
    }
    low
}

/// How many nodes have too many neighbours to be contracted.
fn crowded(graph: &Graph) -> u32 {
    let mut count = 0u32;
    for k in 0..graph.n() {
        if neighbours_of(graph.arcs(k + 1), k + 1) > MOST_NEIGHBOURS {
            count = count.saturating_add(1);
        }
    }
    count
}

/// The nodes that were not contracted, by falling degree in the graph; those of one degree by rising number.
fn core_of(
    alloc: Global,
    graph: &Graph,
    contraction: &mut Contraction,
) -> Result<Vec<u32>, AllocError> {
    let mut core = Vec::new(alloc);
    for k in 0..graph.n() {
        if !contraction.roads.is_gone(k + 1) {
            contraction.roads.put_right(k + 1);
            core.push((Reverse(graph.arcs(k + 1).len()), k + 1))?;
        }
    }
    core.sort_unstable();
    core.iter().map(|node| node.1).collect(alloc)
}

/// The nodes of the core, highest rank first. It is given by falling degree, and stays so where it is much too large.
fn ranked_core<R: Threads + Sync>(
    rt: &R,
    alloc: Global,
    n: u32,
    contraction: &Contraction,
    core: Vec<u32>,
    keep: u32,
) -> Result<Vec<u32>, AllocError> {
    if core.len() > keep.saturating_mul(4) as usize {
        return Ok(core);
    }
    let roads = contraction.roads.among(&core)?;
    let weights = weights_of(alloc, n, contraction, &core)?;
    let order = cover_order(rt, alloc, &roads, &weights)?;
    let mut ranked = Vec::with_capacity(alloc, core.len())?;
    for place in order.as_slice() {
        ranked.push(number_at(&core, *place, 0))?;
    }
    Ok(ranked)
}

/// What each node of the core weighs.
fn weights_of(
    alloc: Global,
    n: u32,
    contraction: &Contraction,
    core: &[u32],
) -> Result<Vec<u32>, AllocError> {
    let mut weights = Vec::with_capacity(alloc, core.len())?;
    for node in core {
        weights.push(contraction.weights.scaled(*node, n))?;
    }
    Ok(weights)
}

/// The place of each node in the ranking, at its number: the core as it is ranked, below it the others, the first one that was
/// contracted last.
fn places_of(
    alloc: Global,
    n: u32,
    core: &[u32],
    contracted: &[u32],
) -> Result<Vec<u32>, AllocError> {
    let mut places = vec![in alloc; 0u32; n as usize + 1]?;
    for (k, node) in core.iter().enumerate() {
        set_number(&mut places, *node, u32::try_from(k).unwrap_or(0));
    }
    let mut last = n;
    for node in contracted {
        last = last.saturating_sub(1);
        set_number(&mut places, *node, last);
    }
    Ok(places)
}

/// The nodes 1..n by rising place.
fn nodes_by_place(alloc: Global, n: u32, places: &[u32]) -> Result<Vec<u32>, AllocError>
    requires { n ≤ 2 ^ 30 }
    ensures ranking { IfOk result (λ nodes. IsRanking nodes.items) }
    ensures size { IfOk result (λ nodes. length nodes.items ≡ n) }
{
    let mut nodes: Vec<u32> = (1..n + 1).collect(alloc)?;
    nodes.sort_unstable_by_key(|node| number_at(places, *node, 0));
    Ok(nodes)
}
