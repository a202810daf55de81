//! What a build stands on.
ghost use Rattle.std.specs.Prelude.{◌≡◌, ◌^◌, ◌≤◌, length};

use rank_table::Ranking;
use std::alloc::Global;
use walk_laws::Graph;

/// What a build stands on: a graph, a ranking of its nodes, how many workers there are, and how much one of them does at a
/// time at least, or at most: each build says which, and of what.
#[derive(Drop)]
pub struct Job<'a> {
    pub alloc: Global,
    pub graph: &'a Graph,
    pub ranking: &'a Ranking,
    pub workers: u32,
    pub cut: u32,
    ghost nodes: { length ranking.now ≡ graph.now.n },
    ghost workers_from: { 1 ≤ workers },
    ghost workers_to: { workers ≤ 64 },
    ghost cut_from: { 1 ≤ cut },
    ghost cut_to: { cut ≤ 2 ^ 30 },
}

impl<'a> Job<'a> {
    /// The build of this graph under this ranking, by so many workers.
    pub fn new(
        alloc: Global,
        graph: &'a Graph,
        ranking: &'a Ranking,
        workers: u32,
        cut: u32,
    ) -> Job<'a>
        requires nodes { length ranking.now ≡ graph.now.n }
        requires workers_from { 1 ≤ workers }
        requires workers_to { workers ≤ 64 }
        requires cut_from { 1 ≤ cut }
        requires cut_to { cut ≤ 2 ^ 30 }
        ensures graph { result.graph.now ≡ graph.now }
        ensures ranking { result.ranking.now ≡ ranking.now }
        ensures workers { result.workers ≡ workers }
        ensures cut { result.cut ≡ cut }
    {
        Job {
            alloc,
            graph,
            ranking,
            workers,
            cut,
        }
    }
}
