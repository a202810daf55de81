ghost use Rattle.std.specs.Prelude.{◌≡◌, ℕ, ◌^◌, ◌<◌, ◌≤◌, ◌++◌, length, OnOk};
ghost use Rattle.entry_sinks.specs.Sunk.{sunk_at};
ghost use Rattle.plant_tree.specs.Planted.{AreOfNodes};
ghost use Rattle.plant_build.specs.TreeEntries.{entries_of};
ghost use Rattle.plant_build.specs.Gains.{GainsPart, IsOfBatch};

use desk_io::Gate;
use entry_sinks::EntrySink;
use plant_tree::Planter;
use renumbering::Job;
use std::alloc::AllocError;
use walk_laws::{Dist, Entry};

/// Plants the trees that a batch has of the first so many roots: of so many batches that with number `batch` has the positions
/// `batch`, `batch + batches`, and so on. So batches are of even work, though the first roots have the greatest trees. The only
/// error is that memory ran out.
pub fn plant_batch<G: Gate>(
    job: &Job<'_>,
    roots: u32,
    batches: u32,
    batch: u32,
    gate: &G,
    planter: &mut Planter,
    sink: &mut EntrySink,
) -> Result<(), AllocError>
    requires planter { planter.old ≡ job.now.graph.now.n }
    requires sink { sink.old.n ≡ job.now.graph.now.n }
    requires roots { roots ≤ length job.now.ranking.now }
    requires batches { batches ≤ 2 ^ 30 }
    requires batch { batch < batches }
    ensures planter { planter.new ≡ planter.old }
    ensures sink { sink.new.n ≡ sink.old.n }
    ensures gains { OnOk result (GainsPart job.now.graph.now.edges job.now.ranking.now (IsOfBatch roots batches batch) sink.old sink.new) }
{
    let _n = job.graph.n();
    let mut p = batch;
    while p < roots {
        plant_root(job, p, gate, planter, sink)?;
        p += batches;
    }
    Ok(())
}

/// Plants the tree of the root at the position `p`. The gate sees it begin, and end with the number of its entries. The
/// only error is that memory ran out.
fn plant_root<G: Gate>(
    job: &Job<'_>,
    p: u32,
    gate: &G,
    planter: &mut Planter,
    sink: &mut EntrySink,
) -> Result<(), AllocError>
    requires planter { planter.old ≡ job.now.graph.now.n }
    requires sink { sink.old.n ≡ job.now.graph.now.n }
    requires position { p < length job.now.ranking.now }
    ensures planter { planter.new ≡ planter.old }
    ensures sink { sink.new.n ≡ sink.old.n }
    ensures gains { OnOk result (GainsPart job.now.graph.now.edges job.now.ranking.now (λ q. q ≡ p) sink.old sink.new) }
{
    let _n = job.graph.n();
    gate.begins(p);
    let (planted, _settled) = planter.plant(job.alloc, job.graph, job.ranking, p)?;
    put_tree(sink, p, &planted)?;
    gate.ends(p, planted.len() as u32);
    Ok(())
}

/// Puts the entries of the tree of the root at the position `p`.
fn put_tree(sink: &mut EntrySink, p: u32, planted: &[(u32, Dist)]) -> Result<(), AllocError>
    requires { AreOfNodes sink.old.n planted.now }
    ensures sink { sink.new.n ≡ sink.old.n }
    ensures grows { OnOk result ((v : ℕ) → sunk_at sink.new v ≡ sunk_at sink.old v ++ entries_of p v planted.now) }
{
    for (v, dist) in planted {
        sink.push(
            *v,
            Entry {
                pos: p,
                dist: *dist,
            },
        )?;
    }
    Ok(())
}
