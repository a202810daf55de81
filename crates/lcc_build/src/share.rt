//! One worker of the build: the trees of the roots that its seat claims.
ghost use Rattle.std.specs.Prelude.{◌≡◌, true, false, IsOk, IfOk, OnOk, length, nat_eq};
ghost use Rattle.std.specs.List.{IsDistinct};
ghost use Rattle.root_claims.specs.Seats.{IsSeatOf as IsClaimSeatOf};
ghost use Rattle.root_claims.specs.Answers.{is_end};
ghost use Rattle.label_rows.specs.Seats.{IsSeatOf};
ghost use Rattle.label_rows.specs.Visits.{puts_of};
ghost use Rattle.pruned_tree.specs.GrownBy.{HasGrown};

use desk_io::Gate;
use label_rows::{RowHand, RowSeat, Rows};
use pruned_tree::{Work, grow};
use rank_table::Ranking;
use root_claims::{Claim, ClaimSeat, Claims};
use std::alloc::{AllocError, Global};
use std::sync::Wait;
use walk_laws::Graph;

/// What a worker hands back: its seats, and whether memory sufficed for all its trees.
#[derive(Drop)]
pub struct Share {
    pub claims: ClaimSeat,
    pub rows: RowSeat,
    pub memory: Result<(), AllocError>,
}

/// One worker of the build: it claims roots until none is left, and grows the tree of each over the rows that all workers
/// write. Its gate is told of each root when its tree begins, and when it ends with the number of entries put. Where memory
/// runs out, the entries put by then stay, and others may go on. Its seats come back in any case.
///
/// ```text
/// let (claims, claim_seat) = Claims::new(alloc, 0, n, 1)?;
/// let (rows, row_seat) = Rows::new(alloc, &graph, &ranking, 1)?;
/// let share = lcc_share(rt, alloc, &graph, &ranking, &claims, claim_seat, &rows, row_seat, &mut work, &FreeGate);
/// share.memory?;
/// let raw = rows.close(share.rows)?;      // every canonical entry, and maybe others
/// ```
pub fn lcc_share<R: Wait, G: Gate>(
    rt: &R,
    alloc: Global,
    graph: &Graph,
    ranking: &Ranking,
    claims: &Claims,
    claim_seat: ClaimSeat,
    rows: &Rows,
    row_seat: RowSeat,
    work: &mut Work,
    gate: &G,
) -> Share
    requires nodes { length ranking.now ≡ graph.now.n }
    requires work { work.old ≡ graph.now.n }
    requires claims_to { claims.now.n ≡ graph.now.n }
    requires claim_seat { IsClaimSeatOf claims.now claim_seat }
    requires over { claim_seat.over ≡ false }
    requires edges { rows.now.edges ≡ graph.now.edges }
    requires order { rows.now.order ≡ ranking.now }
    requires row_seat { IsSeatOf rows.now row_seat }
    ensures work { work.new ≡ work.old }
    ensures claim_seat { IsClaimSeatOf claims.now result.claims }
    ensures claim_left { result.claims.left ≡ claim_seat.left }
    ensures row_seat { IsSeatOf rows.now result.rows }
    ensures row_left { result.rows.left ≡ row_seat.left }
    ensures over { OnOk result.memory (result.claims.over ≡ true) }
    ensures grown { HasGrown graph.now.edges ranking.now (IsOk result.memory) claim_seat.got result.claims.got (puts_of row_seat.visits) (puts_of result.rows.visits) }
{
    let mut seat = claim_seat;
    let mut hand = RowHand::new(rt, rows, row_seat);
    for _ in rt.forever() {
        match next_tree(
            alloc, graph, ranking, claims, &mut seat, &mut hand, work, gate,
        ) {
            Ok(Claim::Root(_)) => {}
            Ok(Claim::End) => return Share {
                claims: seat,
                rows: hand.into_seat(),
                memory: Ok(()),
            },
            Err(fault) => return Share {
                claims: seat,
                rows: hand.into_seat(),
                memory: Err(fault),
            },
        }
    }
    unreachable!()
}

/// Claims a root and grows its tree. It answers which root that was, a position, or that none is left. The only error is
/// that memory ran out; the root is then claimed, and the entries put stay.
fn next_tree<R: Wait, G: Gate>(
    alloc: Global,
    graph: &Graph,
    ranking: &Ranking,
    claims: &Claims,
    seat: &mut ClaimSeat,
    hand: &mut RowHand<'_, R>,
    work: &mut Work,
    gate: &G,
) -> Result<Claim, AllocError>
    requires nodes { length ranking.now ≡ graph.now.n }
    requires work { work.old ≡ graph.now.n }
    requires claims_to { claims.now.n ≡ graph.now.n }
    requires seat { IsClaimSeatOf claims.now seat.old }
    requires over { seat.old.over ≡ false }
    requires edges { hand.old.rows.edges ≡ graph.now.edges }
    requires order { hand.old.rows.order ≡ ranking.now }
    ensures work { work.new ≡ work.old }
    ensures seat { IsClaimSeatOf claims.now seat.new }
    ensures left { seat.new.left ≡ seat.old.left }
    ensures once { IsDistinct nat_eq seat.new.got }
    ensures over { IfOk result (λ claim. seat.new.over ≡ is_end claim) }
    ensures hand { (hand.new.rows ≡ hand.old.rows) × (hand.new.left ≡ hand.old.left) }
    ensures grown { HasGrown graph.now.edges ranking.now (IsOk result) seat.old.got seat.new.got (puts_of hand.old.visits) (puts_of hand.new.visits) }
{
    let p = match claims.claim(seat) {
        Claim::Root(p) => p,
        Claim::End => return Ok(Claim::End),
    };
    gate.begins(p);
    let puts = grow(alloc, graph, ranking, p, hand, work)?;
    gate.ends(p, puts);
    Ok(Claim::Root(p))
}
