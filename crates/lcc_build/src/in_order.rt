//! Trees that are grown one after another, the highest-ranked root first.
ghost use Rattle.std.specs.Prelude.{◌≡◌, ℕ, ◌+◌, ◌<◌, length, IfOk, OnOk};
ghost use Rattle.walk_laws.specs.Graph.{IsGraph};
ghost use Rattle.walk_laws.specs.Labelling.{label_row};
ghost use Rattle.walk_laws.specs.Ranking.{IsRanking};
ghost use Rattle.hub_index.specs.Views.{IsNode};
ghost use Rattle.label_clean.specs.Below.{IsChlBelow, IsRowBelow};

use desk_io::Gate;
use hub_index::{PlainRows, RowList};
use pruned_tree::{Work, grow};
use renumbering::Job;
use std::alloc::AllocError;

/// The rows of the labelling, by trees that are grown one after another, the highest-ranked root first: each finds all hubs
/// that rank above its root, so it puts no needless entry. (Pruned landmark labelling, SIGMOD 2013.) The only error is that
/// memory ran out.
pub fn rows_in_order<G: Gate>(job: &Job<'_>, gate: &G) -> Result<RowList, AllocError>
    ensures { IfOk result (λ rows. IsChlBelow job.now.graph.now.edges job.now.ranking.now (length job.now.ranking.now) rows) }
{
    let mut view = PlainRows::new(job.alloc, job.graph, job.ranking)?;
    let mut work = Work::new(job.alloc, job.graph.n())?;
    for p in 0..job.ranking.n() {
        tree_in_order(job, p, &mut view, &mut work, gate)?;
    }
    view.into_rows(job.alloc)
}

/// Grows the tree of the root at the position `p`, where the rows have all hubs before it and no others, and then all up to
/// it. The gate is told of the root when its tree begins and when it ends. The only error is that memory ran out.
fn tree_in_order<G: Gate>(
    job: &Job<'_>,
    p: u32,
    view: &mut PlainRows,
    work: &mut Work,
    gate: &G,
) -> Result<(), AllocError>
    requires graph { IsGraph job.now.graph.now.n job.now.graph.now.edges }
    requires ranking { IsRanking job.now.ranking.now }
    requires position { p < length job.now.ranking.now }
    requires work { work.old ≡ job.now.graph.now.n }
    requires edges { view.old.edges ≡ job.now.graph.now.edges }
    requires order { view.old.order ≡ job.now.ranking.now }
    requires before { (v : ℕ) → IsNode (length job.now.ranking.now) v → IsRowBelow job.now.graph.now.edges job.now.ranking.now p v (label_row view.old.rows v) }
    ensures work { work.new ≡ work.old }
    ensures edges { view.new.edges ≡ view.old.edges }
    ensures order { view.new.order ≡ view.old.order }
    ensures rows { OnOk result ((v : ℕ) → IsNode (length job.now.ranking.now) v → IsRowBelow job.now.graph.now.edges job.now.ranking.now (p + 1) v (label_row view.new.rows v)) }
{
    gate.begins(p);
    let puts = grow(job.alloc, job.graph, job.ranking, p, view, work)?;
    gate.ends(p, puts);
    Ok(())
}
