ghost use Rattle.std.specs.Prelude.{◌≡◌, length, IfOk};
ghost use Rattle.walk_laws.specs.Joined.{Joined};
ghost use Rattle.walk_laws.specs.Labelling.{IsChl};
ghost use Rattle.chl_answers.specs.Commands.{IsFileOf};
ghost use Rattle.chl_words.specs.declared.asked.Version.TheVariants.{Two};

use entry_vias::{TracedIndex, vias_of};
use hub_index::Index;
use index_file::{Pieces, encode_via_by};
use std::alloc::{AllocError, Global};
use std::thread::Threads;
use walk_laws::Graph;

/// The bytes of the file of version 2 of an index that is that of a graph: its vias are made from its rows.
pub fn traced_file<R: Threads + Sync>(
    rt: &R,
    alloc: Global,
    graph: &Graph,
    index: Index,
    workers: u32,
) -> Result<Pieces, AllocError>
    requires nodes { length index.order ≡ graph.now.n }
    requires labelling { IsChl (Joined graph.now.edges) index.order index.rows }
    ensures { IfOk result (IsFileOf Two graph.now index.order) }
{
    let vias = vias_of(rt, alloc, graph, &index, workers)?;
    let traced = TracedIndex::new(index, vias);
    encode_via_by(rt, alloc, &traced, workers)
}
