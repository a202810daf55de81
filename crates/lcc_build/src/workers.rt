//! The workers of a build: their shares and workspaces, made before the first of them starts, and their shares as one.
ghost use Rattle.std.specs.Prelude.{◌≡◌, ℕ, ◌+◌, ◌-◌, ◌<◌, ◌≤◌, All, IfOk, length, vec_len};
ghost use Rattle.lcc_build.specs.Shares.{HasWorked, IsDone, IsNew, IsReady, IsShareOf, IsSoundGround};

use crate::ground::Ground;
use crate::share::{Share, lcc_share};
use desk_io::Gate;
use pruned_tree::Work;
use std::alloc::AllocError;
use std::sync::Wait;

/// A worker: its share of the claims and of the rows, which is away only while it works, and the memory in which it grows
/// its trees.
#[derive(Drop)]
pub struct Worker {
    pub share: Option<Share>,
    pub work: Work,
}

impl Worker {
    /// Claims roots and grows their trees until none is left.
    pub fn grow_trees<R: Wait, G: Gate>(&mut self, rt: &R, ground: &Ground<'_>, gate: &G)
        requires ground { IsSoundGround ground.now }
        requires ready { IsReady ground.now self.old }
        ensures { HasWorked ground.now self.new }
    {
        if let Some(share) = self.share.take() {
            self.share = Some(lcc_share(
                rt,
                ground.job.alloc,
                ground.job.graph,
                ground.job.ranking,
                ground.claims,
                share.claims,
                ground.rows,
                share.rows,
                &mut self.work,
                gate,
            ));
        }
    }
}

/// So many workers, whose shares are split from the first one. The only error is that memory ran out.
pub fn seated(ground: &Ground<'_>, first: Share) -> Result<Vec<Worker>, AllocError>
    requires share { IsShareOf ground.now (ground.now.job.now.workers - 1) first }
    requires new { IsNew first }
    ensures size { IfOk result (λ seated. vec_len seated ≡ ground.now.job.now.workers) }
    ensures ready { IfOk result (λ seated. All (IsReady ground.now) seated.items) }
{
    let alloc = ground.job.alloc;
    let mut first = first;
    let mut seated = Vec::with_capacity(alloc, ground.job.workers as usize)?;
    for _ in 1..ground.job.workers {
        let share = split_off(ground, &mut first);
        let work = Work::new(alloc, ground.job.graph.n())?;
        seated.push(Worker {
            share: Some(share),
            work,
        })?;
    }
    let work = Work::new(alloc, ground.job.graph.n())?;
    seated.push(Worker {
        share: Some(first),
        work,
    })?;
    Ok(seated)
}

/// A new share, from which no more may be split.
fn split_off(ground: &Ground<'_>, share: &mut Share) -> Share
    requires share { (left : ℕ) × (0 < left) × IsShareOf ground.now left share.old }
    requires new { IsNew share.old }
    ensures share { (left : ℕ) → IsShareOf ground.now (left + 1) share.old → IsShareOf ground.now left share.new }
    ensures new { IsNew share.new }
    ensures split { IsShareOf ground.now 0 result × IsNew result }
{
    Share {
        claims: ground.claims.split(&mut share.claims, 0),
        rows: ground.rows.split(&mut share.rows, 0),
        memory: Ok(()),
    }
}

/// The shares of all workers as one.
pub fn joined(ground: &Ground<'_>, workers: Vec<Worker>) -> Share
    requires some { 1 ≤ vec_len workers }
    requires worked { All (HasWorked ground.now) workers.items }
    ensures share { IsShareOf ground.now (vec_len workers - 1) result }
    ensures done { IsDone ground.now.job.now.graph.now.edges ground.now.job.now.ranking.now result }
{
    let mut workers = workers;
    let Some(last) = workers.pop() else {
        unreachable!()
    };
    let mut whole = handed_back(ground, last);
    while let Some(worker) = workers.pop() {
        let share = handed_back(ground, worker);
        whole = together(ground, whole, share);
    }
    whole
}

/// The share of a worker that has grown all its trees.
fn handed_back(ground: &Ground<'_>, worker: Worker) -> Share
    requires { HasWorked ground.now worker }
    ensures share { IsShareOf ground.now 0 result }
    ensures done { IsDone ground.now.job.now.graph.now.edges ground.now.job.now.ranking.now result }
{
    let Worker { share, work: _ } = worker;
    match share {
        Some(share) => share,
        None => unreachable!(),
    }
}

/// Two shares as one.
fn together(ground: &Ground<'_>, whole: Share, share: Share) -> Share
    requires whole { (left : ℕ) × IsShareOf ground.now left whole }
    requires share { IsShareOf ground.now 0 share }
    requires whole_done { IsDone ground.now.job.now.graph.now.edges ground.now.job.now.ranking.now whole }
    requires share_done { IsDone ground.now.job.now.graph.now.edges ground.now.job.now.ranking.now share }
    ensures share { (left : ℕ) → IsShareOf ground.now left whole → IsShareOf ground.now (left + 1) result }
    ensures done { IsDone ground.now.job.now.graph.now.edges ground.now.job.now.ranking.now result }
{
    let Share {
        claims: mut claim_seat,
        rows: mut row_seat,
        memory,
    } = whole;
    ground.claims.join(&mut claim_seat, share.claims);
    ground.rows.join(&mut row_seat, share.rows);
    Share {
        claims: claim_seat,
        rows: row_seat,
        memory: memory.and(share.memory),
    }
}
