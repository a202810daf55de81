//! The trees that go on over edges.
ghost use Rattle.std.specs.Prelude.{◌≡◌, [], All, length, IfOk, OnOk};
ghost use Rattle.walk_laws.specs.Joined.{Joined};
ghost use Rattle.walk_laws.specs.Labelling.{IsChl};
ghost use Rattle.label_clean.specs.Below.{HoldsBelow};
ghost use Rattle.edge_open.specs.OpenArcs.{IsHubStart, AreOpenBut};
ghost use Rattle.edge_open.specs.Opened.{opened};

use crate::starts::{hub_starts, next_hub};
use hub_index::RowList;
use pruned_tree::Work;
use rank_table::Ranking;
use resumed_tree::{Start, resume};
use std::alloc::{AllocError, Global};
use walk_laws::{Edge, Graph};

/// Opens the edges in the rows of the graph's labelling: they then have every canonical entry of the longer graph, which has
/// these edges after its own, and maybe others. The only error is that memory ran out.
pub fn raw_rows(
    alloc: Global,
    graph: &Graph,
    longer: &Graph,
    ranking: &Ranking,
    rows: RowList,
    edges: &[Edge],
) -> Result<RowList, AllocError>
    requires longer { longer.now ≡ opened graph.now edges.now }
    requires nodes { length ranking.now ≡ graph.now.n }
    requires labelling { IsChl (Joined graph.now.edges) ranking.now rows }
    ensures size { IfOk result (λ raw. length raw ≡ length ranking.now) }
    ensures held { IfOk result (λ raw. HoldsBelow longer.now.edges ranking.now (length ranking.now) [] raw) }
{
    let _ranked = ranking.n();
    let mut work = Work::new(alloc, longer.n())?;
    let starts = hub_starts(alloc, longer, ranking, &rows, edges)?;
    let mut rows = rows;
    resume_hubs(
        alloc,
        longer,
        ranking,
        starts.as_slice(),
        &mut rows,
        &mut work,
    )?;
    Ok(rows)
}

/// Goes on with the trees of the hubs at the starts, which stand hub by hub: one tree for all starts of a hub that stand
/// together. The only error is that memory ran out.
fn resume_hubs(
    alloc: Global,
    graph: &Graph,
    ranking: &Ranking,
    starts: &[Start],
    rows: &mut RowList,
    work: &mut Work,
) -> Result<(), AllocError>
    requires nodes { length ranking.now ≡ graph.now.n }
    requires work { work.old ≡ graph.now.n }
    requires starts { All (IsHubStart (Joined graph.now.edges) ranking.now) starts.now }
    requires open { AreOpenBut starts.now (Joined graph.now.edges) (Joined graph.now.edges) ranking.now rows.old }
    ensures { OnOk result (AreOpenBut [] (Joined graph.now.edges) (Joined graph.now.edges) ranking.now rows.new) }
{
    let _n = graph.n();
    let _ranked = ranking.n();
    let mut left = starts;
    while let Some((p, group, others)) = next_hub(left) {
        resume(alloc, graph, ranking, p, group, rows, work)?;
        left = others;
    }
    Ok(())
}
