ghost use Rattle.std.specs.Prelude.{◌≡◌, ℕ, ◌+◌, ◌≤◌, ◌^◌, All, length, vec_len, IfOk};
ghost use Rattle.walk_laws.specs.Ranking.{IsRanking};

use rank_table::Ranking;
use std::alloc::{AllocError, Global};
use walk_laws::Graph;

/// A place that no search has come to yet.
const UNSEEN: u32 = u32::MAX;

/// An order of the nodes of a graph in which neighbours stand near one another: by breadth-first search from node 1, and from
/// the least node that was not seen where a search ends. Whatever the order is, the labelling comes back. It takes
/// O(n log n + m) for n nodes and m edges; the only error is that memory ran out.
pub fn bfs_order(alloc: Global, graph: &Graph) -> Result<Ranking, AllocError>
    ensures { IfOk result (λ bfs_order. length bfs_order ≡ graph.now.n) }
{
    let seen = search(alloc, graph)?;
    let nodes = nodes_by(alloc, graph.n(), &seen)?;
    Ranking::new(alloc, nodes)
}

/// The nodes 1..n by rising key, where the key of a node stands at its number.
fn nodes_by(alloc: Global, n: u32, keys: &[u32]) -> Result<Vec<u32>, AllocError>
    requires small { n ≤ 2 ^ 30 }
    requires keys { length keys.now ≡ n + 1 }
    ensures ranking { IfOk result (λ nodes. IsRanking nodes.items) }
    ensures size { IfOk result (λ nodes. length nodes.items ≡ n) }
{
    let mut nodes = Vec::with_capacity(alloc, n as usize)?;
    for k in 0..n {
        nodes.push(k + 1)?;
    }
    nodes.sort_unstable_by_key(|v| match keys.get(*v as usize) {
        Some(key) => *key,
        None => UNSEEN,
    });
    Ok(nodes)
}

/// For each node, at its number, how many nodes were seen before it. The only error is that memory ran out.
fn search(alloc: Global, graph: &Graph) -> Result<Vec<u32>, AllocError>
    ensures { IfOk result (λ seen. vec_len seen ≡ graph.now.n + 1) }
{
    let n = graph.n();
    let mut seen = vec![in alloc; UNSEEN; n as usize + 1]?;
    let mut queue: Vec<u32> = Vec::with_capacity(alloc, n as usize)?;
    let mut start = 1;
    for at in 0..n as usize {
        if at >= queue.len() {
            start = next_unseen(&seen, start);
            meet(&mut seen, &mut queue, start)?;
        }
        let v = match queue.get(at) {
            Some(v) => *v,
            None => return Ok(seen),
        };
        if v < 1 || v > n {
            return Ok(seen);
        }
        for arc in graph.arcs(v) {
            meet(&mut seen, &mut queue, arc.to)?;
        }
    }
    Ok(seen)
}

/// The least node from `start` on that was not seen, or the number of places.
fn next_unseen(seen: &[u32], start: u32) -> u32
    requires { length seen.now ≤ 2 ^ 31 }
{
    let mut v = start;
    while (v as usize) < seen.len() && seen[v as usize] != UNSEEN {
        v += 1;
    }
    v
}

/// Puts a node last in the queue where it was not seen yet. The only error is that memory ran out.
fn meet(seen: &mut [u32], queue: &mut Vec<u32>, v: u32) -> Result<(), AllocError>
    ensures { length seen.new ≡ length seen.old }
{
    let place = v as usize;
    if place < seen.len() && seen[place] == UNSEEN {
        seen[place] = queue.len().min(UNSEEN as usize - 1) as u32;
        queue.push(v)?;
    }
    Ok(())
}
