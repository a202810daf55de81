//! What all workers of a build know.
ghost use Rattle.std.specs.Prelude.{◌≡◌, ◌<◌, ◌≤◌, length};
ghost use Rattle.hub_index.specs.Shards.{shard_count};

use crate::named::Build;
use hub_index::Shards;
use rank_table::Ranking;
use rayon::current_num_threads;
use root_claims::Claims;
use std::alloc::Global;
use std::marker::PhantomData;
use std::thread::Threads;
use walk_laws::Graph;

/// What all workers of a build know: the graph, a ranking of its nodes, how the table is divided in shards, how many workers there
/// are, the claims of the roots, how many entries each puts at least in a superstep, and how far the build goes.
#[derive(Drop)]
pub struct BuildContext<'a, B: Build> {
    pub alloc: Global,
    pub graph: &'a Graph,
    pub ranking: &'a Ranking,
    pub plan: Shards,
    /// How many shards there are.
    pub count: u32,
    pub workers: u32,
    pub claims: &'a Claims,
    pub cut: u32,
    /// The build is over once the next root has this position, from 0, or a later one.
    pub goal: u32,
    /// How long a worker looks for the next stage before it sleeps, in rounds.
    pub rounds: u32,
    pub of: PhantomData<B>,
    ghost edges: { graph.now.edges ≡ B.edges },
    ghost order: { ranking.now ≡ B.order },
    ghost nodes: { length B.order ≡ graph.now.n },
    ghost shards: { plan.shift ≡ B.shift },
    ghost shift_is: { plan.shift ≤ 30 },
    ghost count_is: { count ≡ shard_count B.shift (length B.order) },
    ghost workers_are: { workers ≡ B.workers },
    ghost some: { 1 ≤ workers },
    ghost few: { workers ≤ 64 },
    ghost claims_are: { claims.now ≡ B.claims },
    ghost claims_to: { B.claims.n ≡ length B.order },
    ghost claims_for: { B.claims.seats ≡ B.workers },
    ghost cut_is: { 1 ≤ cut },
    ghost goal_is: { goal ≡ B.goal },
    ghost goal_to: { goal ≤ length B.order },
}

impl<'a, B: Build> BuildContext<'a, B> {
    /// What the workers of this build know, which is over where the next root has the position `goal`, from 0, or a later one.
    pub fn new<R: Threads>(
        rt: &R,
        alloc: Global,
        graph: &'a Graph,
        ranking: &'a Ranking,
        plan: Shards,
        workers: u32,
        claims: &'a Claims,
        cut: u32,
        goal: u32,
    ) -> BuildContext<'a, B>
        requires edges { graph.now.edges ≡ B.edges }
        requires order { ranking.now ≡ B.order }
        requires nodes { length B.order ≡ graph.now.n }
        requires shards { plan.shift ≡ B.shift }
        requires shift { plan.shift ≤ 30 }
        requires workers_are { workers ≡ B.workers }
        requires workers { (1 ≤ workers) × (workers ≤ 64) }
        requires claims { claims.now ≡ B.claims }
        requires claims_to { B.claims.n ≡ length B.order }
        requires claims_for { B.claims.seats ≡ B.workers }
        requires cut { 1 ≤ cut }
        requires goal { goal ≡ B.goal }
        requires goal_to { goal ≤ length B.order }
        ensures { result.cut ≡ cut }
    {
        let n = graph.n();
        BuildContext {
            alloc,
            graph,
            ranking,
            plan,
            count: plan.count(n),
            workers,
            claims,
            cut,
            goal,
            rounds: rounds_for(rt, workers),
            of: PhantomData,
        }
    }
}

/// How many rounds a worker looks for what is to be done next before it sleeps: for as long as a superstep may take, unless
/// there are more workers than processors, so that others need the one that it is on.
fn rounds_for<R: Threads>(rt: &R, workers: u32) -> u32 {
    if workers as usize <= current_num_threads(rt) {
        400
    } else {
        1
    }
}
