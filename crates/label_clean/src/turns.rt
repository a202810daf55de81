//! The runs of many lists in turn: by the roots' positions.
ghost use Rattle.std.specs.Prelude.{◌≡◌, ◌++◌, All, map, OnOk};
ghost use Rattle.label_clean.specs.RunLists.{AreTurnsOf, HasItsRuns, IsTurnOf, part_of, turn_of};

use crate::runs::{Run, RunList};
use hub_index::NodeEntry;
use std::alloc::AllocError;

/// A run of one of many lists: the list's place among them, from 0, and the run.
#[derive(Clone, Copy)]
pub struct Turn {
    pub list: usize,
    pub run: Run,
}

/// The runs of all lists, by position, which never falls, instead of what `turns` had. The only error is that memory ran
/// out.
pub fn list_turns(lists: &[RunList], turns: &mut Vec<Turn>) -> Result<(), AllocError>
    requires { All HasItsRuns lists.now }
    ensures { OnOk result (AreTurnsOf lists.now turns.new.items) }
{
    turns.clear();
    for (place, list) in lists.iter().enumerate() {
        add_turns(place, list.runs.as_slice(), turns)?;
    }
    turns.sort_unstable_by_key(|turn| turn.run.pos);
    Ok(())
}

/// Puts the runs of the list at this place after the others. The only error is that memory ran out.
fn add_turns(list: usize, runs: &[Run], turns: &mut Vec<Turn>) -> Result<(), AllocError>
    ensures { OnOk result (turns.new.items ≡ turns.old.items ++ map (turn_of list) runs.now) }
{
    for run in runs {
        turns.push(Turn { list, run: *run })?;
    }
    Ok(())
}

/// The entries of a run of one of many lists.
pub fn entries_in_turn<'a>(lists: &'a [RunList], turn: &Turn) -> &'a [NodeEntry]
    requires { IsTurnOf lists.now turn.now }
    ensures { result.now ≡ part_of lists.now turn.now }
{
    let entries = lists[turn.list].entries.as_slice();
    &entries[turn.run.from..turn.run.to]
}
