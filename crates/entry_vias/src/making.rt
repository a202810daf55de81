ghost use Rattle.std.specs.Prelude.{◌≡◌, ◌≤◌, length, IfOk};
ghost use Rattle.std.specs.Thread.{IsSync};
ghost use Rattle.walk_laws.specs.Graph.{IsGraph};
ghost use Rattle.walk_laws.specs.Joined.{Joined};
ghost use Rattle.walk_laws.specs.Labelling.{IsChl};
ghost use Rattle.entry_vias.specs.RowVias.{AreVias, HaveVias};
ghost use Rattle.entry_vias.specs.ViaRanges.{AreViasFrom};

use crate::looking::find_vias;
use crate::ranges::{cores, ranges_for, share_end};
use crate::slot::Slot;
use crate::vias::Vias;
use hub_index::Index;
use std::alloc::{AllocError, Global};
use std::thread::{Threads, join};
use walk_laws::Graph;

/// The vias of the rows of the nodes after `from` up to `to`, with one table. The only error is that memory ran out.
fn vias_in_turn(
    alloc: Global,
    graph: &Graph,
    index: &Index,
    from: u32,
    to: u32,
) -> Result<Vias, AllocError>
    requires graph { IsGraph graph.now.n graph.now.edges }
    requires size { length index.now.order ≡ graph.now.n }
    requires rising { from ≤ to }
    requires within { to ≤ graph.now.n }
    ensures { IfOk result (λ vias. AreViasFrom (Joined graph.now.edges) index.now.rows from to vias) }
{
    let mut table = vec![in alloc; Slot::NoEntry; index.n() as usize]?;
    let mut row = Vec::new(alloc);
    let mut vias = Vias::new(alloc)?;
    for place in from..to {
        find_vias(graph, index, place + 1, &mut table, &mut row)?;
        vias.push_row(&row)?;
    }
    Ok(vias)
}

/// The vias of the rows of the nodes after `from` up to `to`, by so many threads side by side: each has a range of the nodes, of
/// about as many entries as the others', and a table of its own. The only error is that memory ran out.
#[cycle(halves)]
fn vias_by<R: Threads + Sync>(
    rt: &R,
    alloc: Global,
    graph: &Graph,
    index: &Index,
    threads: u32,
    from: u32,
    to: u32,
) -> Result<Vias, AllocError>
    requires graph { IsGraph graph.now.n graph.now.edges }
    requires size { length index.now.order ≡ graph.now.n }
    requires rising { from ≤ to }
    requires within { to ≤ graph.now.n }
    ensures { IfOk result (λ vias. AreViasFrom (Joined graph.now.edges) index.now.rows from to vias) }
{
    if threads <= 1 {
        return vias_in_turn(alloc, graph, index, from, to);
    }
    let half = threads / 2;
    let others = threads - half;
    let mid = share_end(index, from, to, half, threads);
    let (first, second) = join(
        rt,
        || -> Result<Vias, AllocError>
            requires { IsSync R.row × IsGraph graph.now.n graph.now.edges × (length index.now.order ≡ graph.now.n) × (from ≤ mid) × (mid ≤ graph.now.n) }
            ensures { IfOk result (λ vias. AreViasFrom (Joined graph.entry.now.edges) index.entry.now.rows from mid vias) }
        { vias_by(rt, alloc, graph, index, half, from, mid) },
        || -> Result<Vias, AllocError>
            requires { IsSync R.row × IsGraph graph.now.n graph.now.edges × (length index.now.order ≡ graph.now.n) × (mid ≤ to) × (to ≤ graph.now.n) }
            ensures { IfOk result (λ vias. AreViasFrom (Joined graph.entry.now.edges) index.entry.now.rows mid to vias) }
        { vias_by(rt, alloc, graph, index, others, mid, to) },
    );
    first?.joined(second?)
}

/// The via of each entry of the index: the least neighbour of the entry's node whose row has the hub nearer by just the weight of
/// an arc between, or 0 where none has. Where the index is the canonical hub labelling of the graph, it is the least node before
/// the entry's node on a shortest walk from the hub, and 0 for a node's own entry alone.
///
/// So many workers, but no more than there are cores, share the nodes out. Each row is laid out by position once, and the rows of
/// its neighbours are walked over it, by rising number, until each entry has its via. Each worker takes some bytes a node beside
/// the vias. Want of memory is the only error.
///
/// In the square 1-2-3-4-1 of weights 1, of which a smaller number ranks higher, both 2 and 4 are nearer to node 1 than 3 is:
///
/// ```text
/// row of 3:  hub 1 at 2, hub 2 at 1, hub 3 at 0
/// vias of 3: 2, 2, 0
/// ```
pub fn vias_of<R: Threads + Sync>(
    rt: &R,
    alloc: Global,
    graph: &Graph,
    index: &Index,
    workers: u32,
) -> Result<Vias, AllocError>
    requires { length index.now.order ≡ graph.now.n }
    ensures vias { IfOk result (λ vias. AreVias (Joined graph.now.edges) index.now.rows vias) }
    ensures labelled { IfOk result (λ vias. IsChl (Joined graph.now.edges) index.now.order index.now.rows → HaveVias index.now.rows vias) }
{
    let threads = ranges_for(graph.n(), workers.min(cores(rt)));
    vias_by(rt, alloc, graph, index, threads, 0, index.n())
}
