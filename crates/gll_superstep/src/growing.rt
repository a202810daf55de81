//! One worker of a superstep: the trees of the roots that its seat claims.
ghost use Rattle.std.specs.Prelude.{◌≡◌, ◌⊎◌, ◌*◌, ◌<◌, ◌≤◌, ◌++◌, ◌∷◌, true, false, [], IsOk, IfOk, IfSome, IfNone, IsTrue, OnOk, length, nat_eq};
ghost use Rattle.std.specs.List.{IsDistinct};
ghost use Rattle.root_claims.specs.Seats.{IsSeatAt, IsSeatOf as IsClaimSeatOf};
ghost use Rattle.pruned_tree.specs.GrownBy.{HasGrown};
ghost use Rattle.hub_index.specs.Shards.{sharded_rows};
ghost use Rattle.pool_view.specs.Fitting.{edges_of, order_of};
ghost use Rattle.pool_view.specs.Viewing.{puts_row, view_kept};
ghost use Rattle.gll_table.specs.Outputs.{HavePutOver};
ghost use Rattle.gll_superstep.specs.Workers.{AreSeatsOf, AreNew, IsDone, StayUncovered};

use crate::superstep::Superstep;
use desk_io::Gate;
use gll_table::{Build, BuildContext, Workspace};
use label_pool::PoolSeat;
use pool_view::{Fits, PoolView};
use pruned_tree::{Work, grow};
use root_claims::{Claim, ClaimSeat};
use std::alloc::AllocError;
use std::sync::Wait;
use std::sync::atomic::Ordering;

/// The seats of a worker: at the claims and at the pool.
#[derive(Drop)]
pub struct Seats {
    pub claims: ClaimSeat,
    pub pool: PoolSeat<Fits>,
}

/// One worker of a superstep: it claims a root and grows its tree, until no root is left, or until it has put at least the
/// superstep's `cut` entries, and each other worker has as well or it has put twice as many. Its gate is told of each root when
/// its tree begins, and when it ends with the number of entries put. Its seats and its workspace, with the list of what it put and
/// that of the roots that it claimed, come back in any case. The only error is that memory ran out: the lists are of no use then,
/// and others may go on.
pub fn grow_share<B: Build, R: Wait, G: Gate>(
    rt: &R,
    context: &BuildContext<'_, B>,
    superstep: &Superstep<B>,
    seats: Seats,
    workspace: Workspace<B>,
    gate: &G,
) -> (Seats, Workspace<B>, Result<(), AllocError>)
    requires seats { AreSeatsOf superstep.now.claims superstep.now.pool 0 seats }
    requires new { AreNew seats }
    ensures seat { IsClaimSeatOf superstep.now.claims result.0.claims }
    ensures left { result.0.claims.left ≡ 0 }
    ensures done { IsDone B.edges B.order superstep.now.pool (sharded_rows B.shift (length B.order) superstep.now.table.shards) result.0 result.1.list.items result.1.roots.items result.2 }
    ensures put { IfOk result.2 (λ _. HavePutOver B.edges B.order superstep.now.table.first result.1.roots.items result.1.list.items) }
{
    let Workspace {
        own,
        mut work,
        mut list,
        mut roots,
        parts,
        hubs,
        of,
    } = workspace;
    list.clear();
    roots.clear();
    let Seats {
        claims: mut claim_seat,
        pool: pool_seat,
    } = seats;
    let n = context.graph.n();
    let ranked = context.ranking.n();
    prove!(n == ranked);
    let global = superstep.table.rows();
    let mut view = PoolView::new(rt, &superstep.pool, global, pool_seat, own, list);
    let memory = grow_trees(
        rt,
        context,
        superstep,
        &mut claim_seat,
        &mut view,
        &mut roots,
        &mut work,
        gate,
    );
    let (pool_seat, own, list) = view.into_parts();
    let seats = Seats {
        claims: claim_seat,
        pool: pool_seat,
    };
    let workspace = Workspace {
        own,
        work,
        list,
        roots,
        parts,
        hubs,
        of,
    };
    (seats, workspace, memory)
}

/// Claims roots, grows their trees and lists their positions, until the worker is done or no root is left. The only error is that
/// memory ran out.
fn grow_trees<B: Build, R: Wait, G: Gate>(
    rt: &R,
    context: &BuildContext<'_, B>,
    superstep: &Superstep<B>,
    seat: &mut ClaimSeat,
    view: &mut PoolView<'_, R>,
    roots: &mut Vec<u32>,
    work: &mut Work,
    gate: &G,
) -> Result<(), AllocError>
    requires work { work.old ≡ context.now.graph.now.n }
    requires seat { IsSeatAt context.now.claims.now seat.old }
    requires over { seat.old.over ≡ false }
    requires edges { edges_of view.old.seat.pool.fact ≡ context.now.graph.now.edges }
    requires order { order_of view.old.seat.pool.fact ≡ context.now.ranking.now }
    ensures work { work.new ≡ work.old }
    ensures seat { seat.new.claims ≡ seat.old.claims }
    ensures left { seat.new.left ≡ seat.old.left }
    ensures begun { (seat.new.over ≡ true) ⊎ (1 ≤ length seat.new.got) }
    ensures listed { OnOk result (roots.old.items ≡ seat.old.got → roots.new.items ≡ seat.new.got) }
    ensures kept { view_kept view.new ≡ view_kept view.old }
    ensures grown { HasGrown context.now.graph.now.edges context.now.ranking.now (IsOk result) seat.old.got seat.new.got (puts_row view.old) (puts_row view.new) }
    ensures apart { StayUncovered context.now.ranking.now view.old.global (puts_row view.old) (puts_row view.new) }
{
    let mut put = 0u64;
    for _ in rt.forever() {
        match next_tree(context, seat, view, work, gate) {
            Ok(Some(tree)) => {
                roots.push(tree.root)?;
                let before = put;
                put = before.saturating_add(u64::from(tree.puts));
                if is_done(context, superstep, before, put) {
                    return Ok(());
                }
            }
            Ok(None) => return Ok(()),
            Err(fault) => return Err(fault),
        }
    }
    unreachable!()
}

/// Whether a worker is done whose last tree has brought what it put from `before` to `put`: that is at least `cut`, and each
/// other worker has put as many, or this one twice as many. So while one is late the others go on, but not without end,
/// since a worker whose thread can't be made begins when they are done.
fn is_done<B: Build>(
    context: &BuildContext<'_, B>,
    superstep: &Superstep<B>,
    before: u64,
    put: u64,
) -> bool
    ensures enough { IsTrue result → context.now.cut ≤ put }
    ensures alone { context.now.workers ≤ 1 → before < context.now.cut → context.now.cut ≤ put → IsTrue result }
    ensures twice { 2 * context.now.cut ≤ put → IsTrue result }
{
    let cut = u64::from(context.cut);
    if put < cut {
        return false;
    }
    let filled = if before < cut {
        let others = superstep.filled.fetch_add(1, Ordering::SeqCst);
        others.saturating_add(1)
    } else {
        superstep.filled.load(Ordering::SeqCst)
    };
    put >= 2 * cut || filled >= context.workers
}

/// A tree that was grown: the position of its root, from 0, and how many entries were put.
#[derive(Clone, Copy)]
struct Tree {
    root: u32,
    puts: u32,
}

/// Claims a root and grows its tree. It answers None where no root is left. The only error is that memory ran out; the root is
/// then claimed, and the entries put stay.
fn next_tree<B: Build, R: Wait, G: Gate>(
    context: &BuildContext<'_, B>,
    seat: &mut ClaimSeat,
    view: &mut PoolView<'_, R>,
    work: &mut Work,
    gate: &G,
) -> Result<Option<Tree>, AllocError>
    requires work { work.old ≡ context.now.graph.now.n }
    requires seat { IsSeatAt context.now.claims.now seat.old }
    requires over { seat.old.over ≡ false }
    requires edges { edges_of view.old.seat.pool.fact ≡ context.now.graph.now.edges }
    requires order { order_of view.old.seat.pool.fact ≡ context.now.ranking.now }
    ensures work { work.new ≡ work.old }
    ensures seat { seat.new.claims ≡ seat.old.claims }
    ensures left { seat.new.left ≡ seat.old.left }
    ensures once { IsDistinct nat_eq seat.new.got }
    ensures begun { (seat.new.over ≡ true) ⊎ (1 ≤ length seat.new.got) }
    ensures goes_on { IfOk result (λ tree. IfSome tree (λ _. seat.new.over ≡ false)) }
    ensures root { IfOk result (λ tree. IfSome tree (λ t. seat.new.got ≡ seat.old.got ++ t.root ∷ [])) }
    ensures none { IfOk result (λ tree. IfNone tree (seat.new.got ≡ seat.old.got)) }
    ensures kept { view_kept view.new ≡ view_kept view.old }
    ensures grown { HasGrown context.now.graph.now.edges context.now.ranking.now (IsOk result) seat.old.got seat.new.got (puts_row view.old) (puts_row view.new) }
    ensures apart { StayUncovered context.now.ranking.now view.old.global (puts_row view.old) (puts_row view.new) }
{
    let p = match context.claims.claim(seat) {
        Claim::Root(p) => p,
        Claim::End => return Ok(None),
    };
    gate.begins(p);
    let puts = grow(context.alloc, context.graph, context.ranking, p, view, work)?;
    gate.ends(p, puts);
    Ok(Some(Tree { root: p, puts }))
}
