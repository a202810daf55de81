ghost use Rattle.std.specs.Prelude.{◌≡◌, ◌≤◌, All, IfOk};
ghost use Rattle.plant_build.specs.Rounds.{IsOneRound};
ghost use Rattle.plant_build.specs.Workers.{IsReady, AreDealt, shares_of};

use crate::dealing::deal;
use crate::worker::PlantWorker;
use std::alloc::{AllocError, Global};

/// The workers of a build, among whose hands batches are dealt, and the batches that a deque did not take.
#[derive(Drop)]
pub struct Crew {
    pub members: Vec<PlantWorker>,
    pub left: Vec<u32>,
}

/// A worker for each hand, among which the batches 0..batches are dealt. A batch that its deque did not take counts as come
/// from nobody. The only error is that memory ran out.
pub fn crew_of(alloc: Global, n: u32, batches: u32, workers: u32) -> Result<Crew, AllocError>
    requires workers_from { 1 ≤ workers }
    requires workers_to { workers ≤ 64 }
    ensures ready { IfOk result (λ crew. All (IsReady n) crew.members.items) }
    ensures round { IfOk result (λ crew. IsOneRound (shares_of crew.members.items)) }
    ensures dealt { IfOk result (λ crew. AreDealt batches crew) }
{
    let (hands, left) = deal(alloc, batches, workers)?;
    let mut members = Vec::with_capacity(alloc, workers as usize)?;
    for hand in hands {
        members.push(PlantWorker::new(alloc, n, hand)?)?;
    }
    Ok(Crew { members, left })
}
