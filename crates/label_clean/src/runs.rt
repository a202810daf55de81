//! Lists of entries with their runs, each of one root.
ghost use Rattle.std.specs.Prelude.{◌≡◌, ℕ, ◌<◌, ◌≤◌, [], get_or, length, OnOk};
ghost use Rattle.hub_index.specs.declared.node_entry.NodeEntry.{NodeEntry as ANodeEntry};
ghost use Rattle.label_clean.specs.RootRuns.{AreRunsOf};
ghost use Rattle.label_clean.specs.RunLists.{HasItsRuns};

use hub_index::NodeEntry;
use std::alloc::{AllocError, Global};

/// The most entries of a run: the ends of the rows of so many nodes stay in the nearest cache.
const LONGEST: usize = 64;

/// A run: entries of one root that stand side by side in a list, up to 64. It has the root's position, from 0, and the places of
/// the first entry and after the last, from 0. A root may have several runs.
#[derive(Clone, Copy)]
pub struct Run {
    pub pos: u32,
    pub from: usize,
    pub to: usize,
}

/// A list of entries, as one worker puts them, and the runs in which they stand there: it is the worker who lists them, while
/// the entries are in its cache. Who changes the entries lists the runs again.
#[derive(Drop)]
pub struct RunList {
    pub entries: Vec<NodeEntry>,
    pub runs: Vec<Run>,
}

impl RunList {
    /// A list of no entries. It takes no memory.
    pub fn new(alloc: Global) -> RunList
        ensures { result.entries.items ≡ [] }
    {
        RunList {
            entries: Vec::new(alloc),
            runs: Vec::new(alloc),
        }
    }

    /// Lists the runs of its entries, instead of what `runs` had. The only error is that memory ran out.
    pub fn list_runs(&mut self) -> Result<(), AllocError>
        ensures entries { self.new.entries ≡ self.old.entries }
        ensures runs { OnOk result (HasItsRuns self.new) }
    {
        cut_in_runs(self.entries.as_slice(), &mut self.runs)
    }

    /// Takes all entries out. Their room stays.
    pub fn clear(&mut self)
        ensures { self.new.entries.items ≡ [] }
    {
        self.entries.clear();
        self.runs.clear();
    }
}

/// Cuts entries in runs, instead of what `runs` had. The only error is that memory ran out.
fn cut_in_runs(entries: &[NodeEntry], runs: &mut Vec<Run>) -> Result<(), AllocError>
    ensures { OnOk result (AreRunsOf entries.now runs.new.items) }
{
    runs.clear();
    let mut from = 0;
    while from < entries.len() {
        let to = end_of_run(entries, from);
        runs.push(Run {
            pos: entries[from].pos,
            from,
            to,
        })?;
        from = to;
    }
    Ok(())
}

/// The place after the last of the entries from the place `from` on that have its position, of the first 64.
fn end_of_run(entries: &[NodeEntry], from: usize) -> usize
    requires { from < length entries.now }
    ensures more { from < result }
    ensures within { result ≤ length entries.now }
    ensures one { (k : ℕ) (d : ANodeEntry) → from ≤ k → k < result → (get_or entries.now k d).pos ≡ (get_or entries.now from d).pos }
{
    let pos = entries[from].pos;
    let end = from + (entries.len() - from).min(LONGEST);
    for place in from + 1..end {
        if entries[place].pos != pos {
            return place;
        }
    }
    end
}
