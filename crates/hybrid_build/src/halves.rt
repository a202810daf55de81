//! The two halves of a build: the rows of the roots that are planted, and the index to which supersteps bring them. What each
//! hands on names how many roots were planted, which nobody can say of the index alone.
ghost use Rattle.std.specs.Prelude.{◌≡◌, ◌<◌, ◌≤◌, length, min, IfOk, IfErr};
ghost use Rattle.walk_laws.specs.Joined.{Joined};
ghost use Rattle.walk_laws.specs.Labelling.{IsChl, IsPartChl};
ghost use Rattle.walk_laws.specs.Overflow.{Overflows};
ghost use Rattle.hub_index.specs.Faults.{TellsFault};
ghost use Rattle.renumbering.specs.Copies.{IsCopyOf};

use desk_io::Gate;
use gll_build::grow_roots;
use hub_index::{BuildFault, RowList, SplitIndex};
use plant_build::plant_roots;
use renumbering::{Job, WorkingCopy};
use std::alloc::AllocError;
use std::marker::Model;
use std::sync::Wait;
use std::thread::Threads;

/// How many roots are planted of `n`: the first `eta`, or all where there are no more.
pub fn planted_roots(eta: u32, n: u32) -> u32
    ensures { result ≡ min eta n }
{
    eta.min(n)
}

/// The first half: the rows of the hubs that are the first so many nodes of a ranking, whose trees were planted. Contracts see both.
#[derive(Drop)]
pub struct PlantedRows {
    rows: RowList,
    roots: u32,
}

impl Model for PlantedRows {
    ghost use Rattle.hybrid_build.specs.Halves.{Planted};

    ghost Value = { Planted };

    ghost view = { λ p. record { roots = p.roots; rows = p.rows } };
}

impl PlantedRows {
    /// Plants the trees of the first `eta` roots, or of all where there are no more, in batches of at most `cut`. The only error is
    /// that memory ran out.
    pub fn new<R: Threads + Wait + Sync, G: Gate + Sync>(
        rt: &R,
        job: &Job<'_>,
        eta: u32,
        gate: &G,
    ) -> Result<PlantedRows, AllocError>
        ensures roots { IfOk result (λ planted. planted.roots ≡ min eta job.now.graph.now.n) }
        ensures rows { IfOk result (λ planted. IsPartChl (Joined job.now.graph.now.edges) job.now.ranking.now (λ p. p < planted.roots) planted.rows) }
    {
        let roots = planted_roots(eta, job.graph.n());
        let rows = plant_roots(rt, job, roots, gate)?;
        Ok(PlantedRows { rows, roots })
    }
}

/// What both halves make: the index. Contracts see also how many roots were planted for it.
#[derive(Drop)]
pub struct HybridIndex {
    index: SplitIndex,
    planted: u32,
}

impl Model for HybridIndex {
    ghost use Rattle.hybrid_build.specs.Halves.{Hybrid};

    ghost Value = { Hybrid };

    ghost view = { λ h. record { planted = h.planted; index = h.index } };
}

impl HybridIndex {
    /// The second half: supersteps over the rows that were planted, on the copy on which they were, until no root is left, and the index
    /// of the graph and the ranking that the copy was made of. Each worker puts `cut` entries at least in a superstep while roots are
    /// left. Where a hub is too far for an index the first such one is told; the only other error is that memory ran out.
    pub fn grown_from<R: Threads + Wait + Sync, G: Gate + Sync>(
        rt: &R,
        job: &Job<'_>,
        copy: WorkingCopy,
        planted: PlantedRows,
        gate: &G,
    ) -> Result<HybridIndex, BuildFault>
        requires copy { IsCopyOf job.now.graph.now job.now.ranking.now copy }
        requires copied { length copy.ranking ≡ copy.graph.n }
        requires within { planted.roots ≤ job.now.graph.now.n }
        requires rows { IsPartChl (Joined copy.graph.edges) copy.ranking (λ p. p < planted.roots) planted.rows }
        ensures planted { IfOk result (λ hybrid. hybrid.planted ≡ planted.roots) }
        ensures order { IfOk result (λ hybrid. hybrid.index.order ≡ job.now.ranking.now) }
        ensures labelling { IfOk result (λ hybrid. IsChl (Joined job.now.graph.now.edges) job.now.ranking.now hybrid.index.rows) }
        ensures fits { IfOk result (λ _. ¬ Overflows (Joined job.now.graph.now.edges) job.now.ranking.now) }
        ensures fault { IfErr result (λ fault. TellsFault (Joined job.now.graph.now.edges) job.now.ranking.now fault) }
    {
        let PlantedRows { rows, roots } = planted;
        let copied = Job::new(job.alloc, &copy.graph, &copy.ranking, job.workers, job.cut);
        let all = grow_roots(rt, &copied, rows, roots, gate)?;
        Ok(HybridIndex {
            index: copy.split_index(job.alloc, job.graph, job.ranking, all)?,
            planted: roots,
        })
    }

    /// The index, for which so many roots were planted.
    pub fn of_planted(self, roots: u32) -> SplitIndex
        requires { self.planted ≡ roots }
        ensures { result ≡ self.index }
    {
        let HybridIndex { index, planted } = self;
        prove!(planted == roots);
        index
    }
}
