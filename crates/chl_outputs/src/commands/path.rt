ghost use Rattle.std.specs.Prelude.{◌≡◌, ◌⊎◌, List, Some, None, length, IfOk, IfErr};
ghost use Rattle.hub_index.specs.WellFormed.{IsWellFormed};
ghost use Rattle.hub_query.specs.Paths.{IsPathOf};
ghost use Rattle.hub_query.specs.declared.path_answer.Path.{Path as AnyPath};
ghost use Rattle.walk_laws.specs.Graph.{IsGraph};
ghost use Rattle.chl_inputs.specs.Inputs.{ArePairsWithin};
ghost use Rattle.chl_inputs.specs.Stages.{Conforms};
ghost use Rattle.chl_inputs.specs.declared.stop.Stop.TheVariants.{NoMemory};
ghost use Rattle.chl_answers.specs.Commands.{AreAnswers, first_stop, path_stage, paths_stage, walk_stop};

use super::text::text_output;
use chl_inputs::{NotOf, Stop, read_graph, read_index, read_pairs};
use chl_lines::walk_lines;
use chl_words::Name;
use desk_io::Desk;
use dimacs_text::Pairs;
use hub_index::Index;
use hub_query::{Path, path};
use index_file::Pieces;
use std::alloc::Global;
use walk_laws::Graph;

/// The lines of the walks of the pairs of a text in a graph, by the rows of an index file, of either version: the shortest walks, of which each
/// is the first in lexicographic order, where the index is that of the canonical hub labelling of the graph.
pub fn path_output<D: Desk>(
    alloc: Global,
    graph: &Name,
    index: &Name,
    pairs: &Name,
    desk: &mut D,
) -> Result<Pieces, Stop>
    ensures { Conforms D.Desk (path_stage graph.now index.now pairs.now) result desk.old desk.new }
{
    let graph = read_graph(alloc, graph.text(), desk)?;
    let stored = read_index(alloc, index.text(), desk)?;
    paths_output(alloc, &graph, stored.index(), pairs.text(), desk)
}

/// The lines of the walks of the pairs of a text in a graph, by the rows of an index that has as many nodes.
fn paths_output<D: Desk>(
    alloc: Global,
    graph: &Graph,
    index: &Index,
    pairs: &str,
    desk: &mut D,
) -> Result<Pieces, Stop>
    requires graph { IsGraph graph.now.n graph.now.edges }
    requires index { IsWellFormed index.now.order index.now.rows }
    ensures { Conforms D.Desk (paths_stage graph.now index.now pairs.now) result desk.old desk.new }
{
    if graph.n() != index.n() {
        return Err(Stop::NotOfGraph(NotOf::Sizes {
            graph: graph.n(),
            index: index.n(),
        }));
    }
    let pairs = read_pairs(alloc, pairs, index.n(), desk)?;
    let walks = walks_of(alloc, graph, index, &pairs)?;
    text_output(alloc, walk_lines(alloc, pairs.list(), &walks))
}

/// The walks of the pairs, or the first one that is stuck.
fn walks_of(alloc: Global, graph: &Graph, index: &Index, pairs: &Pairs) -> Result<Vec<Path>, Stop>
    requires graph { IsGraph graph.now.n graph.now.edges }
    requires index { IsWellFormed index.now.order index.now.rows }
    requires within { ArePairsWithin (length index.now.order) pairs.now }
    ensures ok { IfOk result (λ walks. AreAnswers (IsPathOf graph.now index.now) pairs.now walks.items × (first_stop walk_stop walks.items ≡ None)) }
    ensures err { IfErr result (λ stop. (stop ≡ NoMemory)
        ⊎ ((walks : List AnyPath) × AreAnswers (IsPathOf graph.now index.now) pairs.now walks × (first_stop walk_stop walks ≡ Some stop))) }
{
    let mut walks = Vec::new(alloc);
    for pair in pairs.list() {
        let walk = path(alloc, graph, index, pair.0, pair.1)?;
        if let Some(stop) = stop_of(&walk) {
            return Err(stop);
        }
        walks.push(walk)?;
    }
    Ok(walks)
}

/// The stop at a walk of an index of another graph.
fn stop_of(walk: &Path) -> Option<Stop>
    ensures { result ≡ walk_stop walk.now }
{
    match walk {
        Path::Unreachable | Path::Walk { .. } => None,
        Path::Sizes { graph, index } => Some(Stop::NotOfGraph(NotOf::Sizes {
            graph: *graph,
            index: *index,
        })),
        Path::Stuck { at, to } => Some(Stop::NotOfGraph(NotOf::Stuck { at: *at, to: *to })),
    }
}
