ghost use Rattle.std.specs.Prelude.{◌≡◌, ℕ, ◌+◌, ◌<◌, ◌≤◌, ◌^◌, ◌==◌, true, length, IfOk, OnOk, OnErr, if◌then◌else◌};
ghost use Rattle.plant_build.specs.Balance.{times};
ghost use Rattle.plant_build.specs.Rounds.{share_of, reaches, got_from};
ghost use Rattle.plant_build.specs.Workers.{IsReady, HasWorked};

use crate::batch::plant_batch;
use crate::hand::Hand;
use desk_io::Gate;
use entry_sinks::EntrySink;
use plant_tree::Planter;
use renumbering::Job;
use std::alloc::{AllocError, Global};
use std::sync::Wait;

/// One worker: its hand, a planter, what it has put, the numbers of the batches that it has planted, and whether memory
/// has sufficed.
#[derive(Drop)]
pub struct PlantWorker {
    pub hand: Hand,
    pub planter: Planter,
    pub sink: EntrySink,
    pub numbers: Vec<u32>,
    pub memory: bool,
}

impl PlantWorker {
    /// A worker that has planted nothing. The only error is that memory ran out.
    pub fn new(alloc: Global, n: u32, hand: Hand) -> Result<PlantWorker, AllocError>
        ensures ready { IfOk result (IsReady n) }
        ensures hand { IfOk result (λ worker. worker.hand ≡ hand) }
    {
        Ok(PlantWorker {
            hand,
            planter: Planter::new(alloc, n)?,
            sink: EntrySink::new(alloc, n)?,
            numbers: Vec::new(alloc),
            memory: true,
        })
    }

    /// Takes batches and plants what they have of the first so many roots, until every deque is found empty or memory runs out.
    pub fn plant<R: Wait, G: Gate>(
        &mut self,
        rt: &R,
        job: &Job<'_>,
        roots: u32,
        batches: u32,
        gate: &G,
    )
        requires ready { IsReady job.now.graph.now.n self.old }
        requires roots { roots ≤ length job.now.ranking.now }
        requires batches { batches ≤ 2 ^ 30 }
        ensures worked { HasWorked job.now.graph.now.edges job.now.ranking.now roots batches job.now.graph.now.n self.new }
        ensures share { share_of self.new.hand ≡ share_of self.old.hand }
    {
        for _ in rt.forever() {
            let Some(batch) = self.hand.take(rt) else {
                return;
            };
            if batch >= batches {
                continue;
            }
            if self.plant_one(job, roots, batches, batch, gate).is_err() {
                self.memory = false;
                return;
            }
        }
    }

    /// Plants what a batch has of the first so many roots, and notes its number. The only error is that memory ran out.
    fn plant_one<G: Gate>(
        &mut self,
        job: &Job<'_>,
        roots: u32,
        batches: u32,
        batch: u32,
        gate: &G,
    ) -> Result<(), AllocError>
        requires planter { self.old.planter ≡ job.now.graph.now.n }
        requires worked { HasWorked job.now.graph.now.edges job.now.ranking.now roots batches job.now.graph.now.n self.old }
        requires memory { self.old.memory ≡ true }
        requires roots { roots ≤ length job.now.ranking.now }
        requires batches { batches ≤ 2 ^ 30 }
        requires batch { batch < batches }
        requires took { (x : ℕ) → times x self.old.numbers.items + (if batch == x then 1 else 0) ≤ got_from x (reaches self.old.hand) }
        ensures hand { self.new.hand ≡ self.old.hand }
        ensures planter { self.new.planter ≡ self.old.planter }
        ensures memory { self.new.memory ≡ self.old.memory }
        ensures sink { self.new.sink.n ≡ self.old.sink.n }
        ensures worked { OnOk result (HasWorked job.now.graph.now.edges job.now.ranking.now roots batches job.now.graph.now.n self.new) }
        ensures numbers { OnErr result (self.new.numbers.items ≡ self.old.numbers.items) }
    {
        plant_batch(
            job,
            roots,
            batches,
            batch,
            gate,
            &mut self.planter,
            &mut self.sink,
        )?;
        self.numbers.push(batch)?;
        Ok(())
    }
}
