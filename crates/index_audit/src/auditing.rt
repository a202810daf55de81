ghost use Rattle.std.specs.Prelude.{◌≡◌, ◌↔◌, ℕ, ◌≤◌, List, Option, MatchOption, length};
ghost use Rattle.std.specs.Thread.{IsSync};
ghost use Rattle.walk_laws.specs.Graph.{IsGraph};
ghost use Rattle.walk_laws.specs.Joined.{Joined};
ghost use Rattle.walk_laws.specs.Labelling.{IsChl};
ghost use Rattle.hub_index.specs.WellFormed.{IsWellFormed};
ghost use Rattle.entry_vias.specs.RowVias.{AreVias};
ghost use Rattle.index_audit.specs.Beside.{MayStand};
ghost use Rattle.index_audit.specs.Audited.{IsFirstOfRow, IsSoundRow, PartAt, IsOfOrder, IsAuditOf, IsAuditWith};
ghost use Rattle.index_audit.specs.TracedAudits.{IsTracedAuditOf};
ghost use Rattle.index_audit.specs.Ranges.{AreSoundBetween, IsFirstBetween};
ghost use Rattle.index_audit.specs.declared.answer.Audit.TheVariants.{Same};

use crate::answer::Audit;
use crate::beside::{Beside, NoVias};
use crate::entry_checks::fault_at;
use entry_vias::TracedIndex;
use entry_vias::ranges::{cores, ranges_for, share_end};
use hub_index::Index;
use rank_table::Ranking;
use std::thread::{Threads, join};
use walk_laws::Graph;

/// How many ranges of nodes there are for each core, since the entries of some take longer than those of others.
const RANGES_A_CORE: u32 = 4;

/// The first place at which the rankings have other nodes.
fn first_difference(ranking: &Ranking, other: &Ranking) -> Option<u32>
    requires { length ranking.now ≡ length other.now }
    ensures { MatchOption result (other.now ≡ ranking.now) (λ place. PartAt ranking.now other.now place) }
{
    for place in 0..ranking.n() {
        if ranking.at(place) != other.at(place) {
            return Some(place);
        }
    }
    None
}

/// What is wrong with the first entry at fault in the row of the node `v`.
fn fault_in_row<V: Beside>(graph: &Graph, index: &Index, vias: &V, v: u32) -> Option<Audit>
    requires graph { IsGraph graph.now.n graph.now.edges }
    requires size { length index.now.order ≡ graph.now.n }
    requires beside { MayStand index.now.rows (V.vias vias.now) }
    requires node { 1 ≤ v }
    requires within { v ≤ graph.now.n }
    ensures { MatchOption result (IsSoundRow (Joined graph.now.edges) index.now.order index.now.rows (V.vias vias.now) v)
        (λ fault. IsFirstOfRow (Joined graph.now.edges) index.now.order index.now.rows (V.vias vias.now) v fault) }
{
    let row = index.row(v);
    for place in 0..row.len() {
        if let Some(fault) = fault_at(graph, index, vias, v, place) {
            return Some(fault);
        }
    }
    None
}

/// What is wrong with the first entry at fault in the rows of the nodes after `from` up to `to`.
fn fault_in_turn<V: Beside>(
    graph: &Graph,
    index: &Index,
    vias: &V,
    from: u32,
    to: u32,
) -> Option<Audit>
    requires graph { IsGraph graph.now.n graph.now.edges }
    requires size { length index.now.order ≡ graph.now.n }
    requires beside { MayStand index.now.rows (V.vias vias.now) }
    requires rising { from ≤ to }
    requires within { to ≤ graph.now.n }
    ensures { MatchOption result (AreSoundBetween (Joined graph.now.edges) index.now.order index.now.rows (V.vias vias.now) from to)
        (λ fault. IsFirstBetween (Joined graph.now.edges) index.now.order index.now.rows (V.vias vias.now) from to fault) }
{
    for place in from..to {
        if let Some(fault) = fault_in_row(graph, index, vias, place + 1) {
            return Some(fault);
        }
    }
    None
}

/// What is wrong with the first entry at fault in these rows, looked at in ranges of about equal numbers of entries, side by
/// side: so many times they are cut in two. A fault in the lower range comes first, whichever is found first.
#[cycle(halves)]
fn fault_between<R: Threads + Sync, V: Beside + Sync>(
    rt: &R,
    graph: &Graph,
    index: &Index,
    vias: &V,
    cuts: u32,
    from: u32,
    to: u32,
) -> Option<Audit>
    requires graph { IsGraph graph.now.n graph.now.edges }
    requires size { length index.now.order ≡ graph.now.n }
    requires beside { MayStand index.now.rows (V.vias vias.now) }
    requires rising { from ≤ to }
    requires within { to ≤ graph.now.n }
    ensures { MatchOption result (AreSoundBetween (Joined graph.now.edges) index.now.order index.now.rows (V.vias vias.now) from to)
        (λ fault. IsFirstBetween (Joined graph.now.edges) index.now.order index.now.rows (V.vias vias.now) from to fault) }
{
    if cuts == 0 {
        return fault_in_turn(graph, index, vias, from, to);
    }
    let mid = share_end(index, from, to, 1, 2);
    let below = cuts - 1;
    let (first, second) = join(
        rt,
        || -> Option<Audit>
            requires { IsSync R.row × IsSync V.row × IsGraph graph.now.n graph.now.edges × (length index.now.order ≡ graph.now.n) × MayStand index.now.rows (V.vias vias.now) × (from ≤ mid) × (mid ≤ graph.now.n) }
            ensures { MatchOption result (AreSoundBetween (Joined graph.entry.now.edges) index.entry.now.order index.entry.now.rows (V.vias vias.entry.now) from mid)
                (λ fault. IsFirstBetween (Joined graph.entry.now.edges) index.entry.now.order index.entry.now.rows (V.vias vias.entry.now) from mid fault) }
        { fault_between(rt, graph, index, vias, below, from, mid) },
        || -> Option<Audit>
            requires { IsSync R.row × IsSync V.row × IsGraph graph.now.n graph.now.edges × (length index.now.order ≡ graph.now.n) × MayStand index.now.rows (V.vias vias.now) × (mid ≤ to) × (to ≤ graph.now.n) }
            ensures { MatchOption result (AreSoundBetween (Joined graph.entry.now.edges) index.entry.now.order index.entry.now.rows (V.vias vias.entry.now) mid to)
                (λ fault. IsFirstBetween (Joined graph.entry.now.edges) index.entry.now.order index.entry.now.rows (V.vias vias.entry.now) mid to fault) }
        { fault_between(rt, graph, index, vias, below, mid, to) },
    );
    first.or(second)
}

/// What is wrong with the size or the order of the index, if they aren't those of the graph and the ranking.
fn fault_of_order(graph: &Graph, ranking: &Ranking, index: &Index) -> Option<Audit>
    requires { length ranking.now ≡ graph.now.n }
    ensures found { MatchOption result (IsOfOrder graph.now ranking.now index.now) (λ fault. (vias : Option (List (List ℕ))) → IsAuditWith graph.now ranking.now index.now fault vias) }
    ensures graph { IsGraph graph.now.n graph.now.edges }
    ensures well_formed { IsWellFormed index.now.order index.now.rows }
{
    if graph.n() != index.n() {
        return Some(Audit::Sizes {
            graph: graph.n(),
            index: index.n(),
        });
    }
    let place = first_difference(ranking, index.ranking())?;
    Some(Audit::OrderDiffers { place })
}

/// Whether the index is the canonical hub labelling of the graph under the ranking, and if not, the first thing that is
/// wrong with it: sizes come first, then the order, then the entries of node 1, by rising position, then those of node 2,
/// and so on. Of an entry a missing walk comes first, then a neighbour that isn't covered, then a node that makes it
/// redundant. Each check looks at the rows of the node, its hub and its neighbours alone: there is no search, and no memory
/// is taken.
///
/// In the square 1-2-3-4-1 of weights 1, of which a smaller number ranks higher, an index that has the hub 2 in the row of
/// 4, too, is answered
///
/// ```text
/// audit(&graph, &ranking, &index) == Audit::Redundant { v: 4, hub: 2, by: 1 }
/// ```
///
/// since the rows of 2 and of 4 both have node 1 at distance 1, and 1 + 1 is no longer than 2.
pub fn audit(graph: &Graph, ranking: &Ranking, index: &Index) -> Audit
    requires { length ranking.now ≡ graph.now.n }
    ensures first { IsAuditOf graph.now ranking.now index.now result }
    ensures same { (result ≡ Same) ↔ ((index.now.order ≡ ranking.now) × IsChl (Joined graph.now.edges) ranking.now index.now.rows) }
{
    if let Some(fault) = fault_of_order(graph, ranking, index) {
        return fault;
    }
    match fault_in_turn(graph, index, &NoVias, 0, index.n()) {
        Some(fault) => fault,
        None => Audit::Same,
    }
}

/// What the audit answers of an index that may have vias, found on all cores.
fn answer_on<R: Threads + Sync, V: Beside + Sync>(
    rt: &R,
    graph: &Graph,
    ranking: &Ranking,
    index: &Index,
    vias: &V,
) -> Audit
    requires size { length ranking.now ≡ graph.now.n }
    requires beside { MayStand index.now.rows (V.vias vias.now) }
    ensures answer { IsAuditWith graph.now ranking.now index.now result (V.vias vias.now) }
    ensures graph { IsGraph graph.now.n graph.now.edges }
    ensures well_formed { IsWellFormed index.now.order index.now.rows }
{
    if let Some(fault) = fault_of_order(graph, ranking, index) {
        return fault;
    }
    let ranges = ranges_for(index.n(), cores(rt).saturating_mul(RANGES_A_CORE));
    let cuts = ranges.ilog2();
    match fault_between(rt, graph, index, vias, cuts, 0, index.n()) {
        Some(fault) => fault,
        None => Audit::Same,
    }
}

/// What [`audit`] answers, found on all cores: the nodes are shared out in ranges whose rows have about as many entries, and a
/// fault in the lowest range comes first. The answer is the same for any number of threads. No memory is taken.
pub fn audit_on<R: Threads + Sync>(rt: &R, graph: &Graph, ranking: &Ranking, index: &Index) -> Audit
    requires { length ranking.now ≡ graph.now.n }
    ensures first { IsAuditOf graph.now ranking.now index.now result }
    ensures same { (result ≡ Same) ↔ ((index.now.order ≡ ranking.now) × IsChl (Joined graph.now.edges) ranking.now index.now.rows) }
{
    answer_on(rt, graph, ranking, index, &NoVias)
}

/// What [`audit_on`] answers, where the vias of the index are judged, too: an entry with which nothing else is wrong goes by the
/// least neighbour of its node that has the hub nearer by just the weight of an arc between, and by 0 where that node is the hub.
/// So nothing is wrong exactly where the index is the canonical hub labelling under the ranking, and has its vias. One look at the
/// rows of the neighbours tells of walk, covers and via. No memory is taken.
///
/// In the path 1-2-3 of weights 1, whose order is 2, 1, 3, an index whose node 1 goes by 3 to the hub 2 is answered
///
/// ```text
/// audit_traced_on(&rt, &graph, &ranking, &traced) == Audit::WrongVia { v: 1, hub: 2, want: 2 }
/// ```
pub fn audit_traced_on<R: Threads + Sync>(
    rt: &R,
    graph: &Graph,
    ranking: &Ranking,
    index: &TracedIndex,
) -> Audit
    requires { length ranking.now ≡ graph.now.n }
    ensures first { IsTracedAuditOf graph.now ranking.now index.now result }
    ensures same { (result ≡ Same) ↔ ((index.now.order ≡ ranking.now) × IsChl (Joined graph.now.edges) ranking.now index.now.rows × AreVias (Joined graph.now.edges) index.now.rows index.now.vias) }
{
    answer_on(rt, graph, ranking, index.index(), index.vias())
}
