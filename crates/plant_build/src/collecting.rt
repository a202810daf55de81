ghost use Rattle.std.specs.Prelude.{◌≡◌, ◌≢◌, ℕ, ◌<◌, ◌≤◌, true, false, List, All, AllPairs, Contains, map, length, sum_by, IfOk};
ghost use Rattle.walk_laws.specs.declared.graph.Edge.{Edge as AnEdge};
ghost use Rattle.plant_build.specs.Balance.{times};
ghost use Rattle.plant_build.specs.Marks.{mark, Adds, HasCome};
ghost use Rattle.plant_build.specs.Rounds.{IsOneRound};
ghost use Rattle.plant_build.specs.Workers.{TookItsBatches, HasWorked, AreDealt, hands_of, shares_of};
ghost use Rattle.plant_build.specs.Harvest.{IsHeld, IsBelow, harvest_of};

use crate::crew::Crew;
use crate::hand::Hand;
use crate::settling::settle;
use crate::worker::PlantWorker;
use entry_sinks::EntrySink;
use std::alloc::{AllocError, Global};

/// What one worker has planted: the numbers of its batches, and the entries of their trees.
#[derive(Drop)]
pub struct Harvest {
    pub numbers: Vec<u32>,
    pub sink: EntrySink,
}

/// What the workers have put, with a mark for each batch that has come. Each batch was dealt, so one without a mark is one
/// that was taken by nobody. No two workers have planted one batch, since none was taken twice. The only error is that
/// memory ran out, for a worker or here.
pub fn collect(
    alloc: Global,
    batches: u32,
    crew: Crew,
) -> Result<(Vec<bool>, Vec<EntrySink>), AllocError>
    requires round { IsOneRound (shares_of crew.members.items) }
    requires dealt { AreDealt batches crew }
    requires took { All (TookItsBatches batches) crew.members.items }
    ensures size { IfOk result (λ got. length got.0.items ≡ batches) }
    ensures come { IfOk result (λ got. (edges : List AnEdge) (at : List ℕ) (roots n : ℕ) → All (HasWorked edges at roots batches n) crew.members.items → HasCome edges at roots n got.0.items got.1.items) }
{
    let Crew { members, left: _ } = crew;
    let (hands, harvests) = apart(alloc, members)?;
    settle(alloc, hands)?;
    bring_in(alloc, batches, harvests)
}

/// The hands of the workers, and what they have planted. The only error is that memory ran out, for a worker or here.
fn apart(alloc: Global, members: Vec<PlantWorker>) -> Result<(Vec<Hand>, Vec<Harvest>), AllocError>
    ensures hands { IfOk result (λ parts. parts.0.items ≡ hands_of members.items) }
    ensures harvests { IfOk result (λ parts. parts.1.items ≡ map harvest_of members.items) }
    ensures memory { IfOk result (λ parts. All (λ w. w.memory ≡ true) members.items) }
{
    let mut hands = Vec::with_capacity(alloc, members.len())?;
    let mut harvests = Vec::with_capacity(alloc, members.len())?;
    for worker in members {
        let PlantWorker {
            hand,
            planter: _,
            sink,
            numbers,
            memory,
        } = worker;
        if !memory {
            return Err(AllocError);
        }
        hands.push(hand)?;
        harvests.push(Harvest { numbers, sink })?;
    }
    Ok((hands, harvests))
}

/// The sinks of harvests, with a mark for each of their batches. The only error is that memory ran out.
fn bring_in(
    alloc: Global,
    batches: u32,
    harvests: Vec<Harvest>,
) -> Result<(Vec<bool>, Vec<EntrySink>), AllocError>
    requires below { All (λ h. IsBelow batches h.numbers.items) harvests.items }
    requires once { (b : ℕ) → sum_by (λ h. times b h.numbers.items) harvests.items ≤ 1 }
    ensures size { IfOk result (λ got. length got.0.items ≡ batches) }
    ensures come { IfOk result (λ got. (edges : List AnEdge) (at : List ℕ) (roots n : ℕ) → All (IsHeld edges at roots batches n) harvests.items → HasCome edges at roots n got.0.items got.1.items) }
{
    let mut come = vec![in alloc; false; batches as usize]?;
    let mut sinks = Vec::with_capacity(alloc, harvests.len())?;
    for harvest in harvests {
        set_marks(&mut come, &harvest.numbers);
        sinks.push(harvest.sink)?;
    }
    Ok((come, sinks))
}

/// Marks batches that are not marked yet.
fn set_marks(come: &mut [bool], numbers: &[u32])
    requires below { IsBelow (length come.old) numbers.now }
    requires once { AllPairs (λ x y. x ≢ y) numbers.now }
    requires fresh { (b : ℕ) → Contains numbers.now b → mark come.old b ≡ false }
    ensures { Adds come.old numbers.now come.new }
{
    for number in numbers {
        come[*number as usize] = true;
    }
}
