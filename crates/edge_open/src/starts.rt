//! Where the trees of hubs go on over new edges.
ghost use Rattle.std.specs.Prelude.{◌≡◌, ◌⊎◌, ℕ, ◌+◌, ◌^◌, ◌<◌, ◌≤◌, [], All, Contains, Some, length, slice_get, IfOk, IfSome, IfNone, OnOk};
ghost use Rattle.walk_laws.specs.Canonical.{IsCanonical};
ghost use Rattle.walk_laws.specs.Joined.{Joined};
ghost use Rattle.walk_laws.specs.Ranking.{position_of};
ghost use Rattle.resumed_tree.specs.Resumed.{AreWalks};
ghost use Rattle.edge_open.specs.Hubs.{BeginsWithHub};
ghost use Rattle.edge_open.specs.OpenArcs.{IsHubStart, IsOpenBut};

use hub_index::{Entry, RowList};
use rank_table::Ranking;
use resumed_tree::Start;
use std::alloc::{AllocError, Global};
use walk_laws::{Edge, Graph};

/// No shortest walk is as long.
const TOO_LONG: u128 = 1 << 94;

/// Where the trees of hubs go on over these edges of the graph, in both directions of each: the hubs of the one end at the
/// other. The starts of a hub stand together. The only error is that memory ran out.
pub fn hub_starts(
    alloc: Global,
    graph: &Graph,
    ranking: &Ranking,
    rows: &RowList,
    edges: &[Edge],
) -> Result<Vec<Start>, AllocError>
    requires nodes { length ranking.now ≡ graph.now.n }
    requires edges { All (Contains graph.now.edges) edges.now }
    requires walks { AreWalks (Joined graph.now.edges) ranking.now rows.now }
    ensures starts { IfOk result (λ starts. All (IsHubStart (Joined graph.now.edges) ranking.now) starts.items) }
    ensures open { IfOk result (λ starts. (x y w : ℕ) → Joined edges.now x y w → IsOpenBut starts.items (Joined graph.now.edges) ranking.now rows.now x y w) }
{
    let mut starts = Vec::new(alloc);
    for edge in edges {
        add_edge(graph, ranking, rows, *edge, &mut starts)?;
    }
    starts.sort_unstable_by_key(|start| start.hub);
    Ok(starts)
}

/// Adds the starts over an edge of the graph, in both directions. The only error is that memory ran out.
fn add_edge(
    graph: &Graph,
    ranking: &Ranking,
    rows: &RowList,
    edge: Edge,
    starts: &mut Vec<Start>,
) -> Result<(), AllocError>
    requires nodes { length ranking.now ≡ graph.now.n }
    requires edge { Contains graph.now.edges edge }
    requires walks { AreWalks (Joined graph.now.edges) ranking.now rows.now }
    requires starts { All (IsHubStart (Joined graph.now.edges) ranking.now) starts.old.items }
    ensures kept { OnOk result ((s : Start) → Contains starts.old.items s → Contains starts.new.items s) }
    ensures starts { OnOk result (All (IsHubStart (Joined graph.now.edges) ranking.now) starts.new.items) }
    ensures there { OnOk result (IsOpenBut starts.new.items (Joined graph.now.edges) ranking.now rows.now edge.u edge.v edge.w) }
    ensures back { OnOk result (IsOpenBut starts.new.items (Joined graph.now.edges) ranking.now rows.now edge.v edge.u edge.w) }
{
    let _n = graph.n();
    if edge.u == edge.v {
        return Ok(());
    }
    add_arc(graph, ranking, rows, edge.u, edge.v, edge.w, starts)?;
    add_arc(graph, ranking, rows, edge.v, edge.u, edge.w, starts)
}

/// Adds the starts over an arc of the weight `w` from the node `from` to the node `to`, one for each hub of `from` that may go
/// on. The only error is that memory ran out.
fn add_arc(
    graph: &Graph,
    ranking: &Ranking,
    rows: &RowList,
    from: u32,
    to: u32,
    w: u64,
    starts: &mut Vec<Start>,
) -> Result<(), AllocError>
    requires nodes { length ranking.now ≡ graph.now.n }
    requires arc { Joined graph.now.edges from to w }
    requires walks { AreWalks (Joined graph.now.edges) ranking.now rows.now }
    requires starts { All (IsHubStart (Joined graph.now.edges) ranking.now) starts.old.items }
    ensures kept { OnOk result ((s : Start) → Contains starts.old.items s → Contains starts.new.items s) }
    ensures starts { OnOk result (All (IsHubStart (Joined graph.now.edges) ranking.now) starts.new.items) }
    ensures open { OnOk result (IsOpenBut starts.new.items (Joined graph.now.edges) ranking.now rows.now from to w) }
{
    let _n = graph.n();
    let _ranked = ranking.n();
    for hub in rows.row(from) {
        if let Some(start) = start_of(graph, ranking, hub, to, w) {
            starts.push(start)?;
        }
    }
    Ok(())
}

/// Where the hub of an entry of one end goes on at the node `to`, the other end of an edge of the weight `w`; None where the
/// hub ranks below it, or no shortest walk is so long.
fn start_of(graph: &Graph, ranking: &Ranking, hub: &Entry, to: u32, w: u64) -> Option<Start>
    requires nodes { length ranking.now ≡ graph.now.n }
    requires node { 1 ≤ to }
    requires within { to ≤ graph.now.n }
    ensures some { IfSome result (λ s. s ≡ record { hub = hub.now.pos; node = to; dist = hub.now.dist + w }) }
    ensures ranked { IfSome result (λ s. s.hub ≤ position_of ranking.now to) }
    ensures near { IfSome result (λ s. s.dist < 2 ^ 94) }
    ensures none { IfNone result ((h : ℕ) → slice_get ranking.now hub.now.pos ≡ Some h → ¬ IsCanonical (Joined graph.now.edges) ranking.now h to (hub.now.dist + w)) }
{
    let _n = graph.n();
    let _ranked = ranking.n();
    let dist = hub.dist.get() + w as u128;
    if hub.pos > ranking.pos(to) || dist >= TOO_LONG {
        return None;
    }
    Some(Start {
        hub: hub.pos,
        node: to,
        dist,
    })
}

/// The position of the first start's hub, the starts in front that are of this hub, and the others; None where there are none.
pub fn next_hub(starts: &[Start]) -> Option<(u32, &[Start], &[Start])>
    ensures some { IfSome result (λ r. BeginsWithHub starts.now r.0 r.1.now r.2.now) }
    ensures none { IfNone result (starts.now ≡ []) }
{
    let hub = starts.first()?.hub;
    let count = starts
        .iter()
        .position(|start| start.hub != hub)
        .unwrap_or(starts.len());
    let (group, others) = starts.split_at(count);
    Some((hub, group, others))
}
