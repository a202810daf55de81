//! Rows that later entries join, but for those that a hub covers.
ghost use Rattle.std.specs.Prelude.{◌≡◌, ℕ, ◌+◌, ◌<◌, ◌≤◌, All, List, length, OnOk};
ghost use Rattle.walk_laws.specs.declared.graph.Edge.{Edge as AnEdge};
ghost use Rattle.walk_laws.specs.Labelling.{label_row};
ghost use Rattle.hub_index.specs.NodeEntries.{entries_of_node};
ghost use Rattle.hub_index.specs.Views.{GoesOnFrom, IsNode};
ghost use Rattle.label_clean.specs.Below.{IsRowBelow};
ghost use Rattle.label_clean.specs.Joining.{JoinsRow, JoinsUnder};
ghost use Rattle.label_clean.specs.RunLists.{HasItsRuns, all_entries};

use crate::hub_rows::HubRows;
use crate::runs::RunList;
use crate::taking::take_in;
use crate::turns::Turn;
use hub_index::SplitRows;
use std::alloc::{AllocError, Global};

/// What one thread takes once, whatever it lets join: room for the runs of many lists. What stands there between two calls is of
/// no use.
#[derive(Drop)]
pub struct Cleaner {
    turns: Vec<Turn>,
}

impl Cleaner {
    /// A cleaner of any number of rows. It takes no memory.
    pub fn new(alloc: Global) -> Cleaner {
        Cleaner {
            turns: Vec::new(alloc),
        }
    }

    /// Puts the entries of all lists after the rows that they belong to, run by run by rising position, but for those that are
    /// covered by then by the row's own entries from the first position of `hub_rows` on and the row of the entry's hub there. The
    /// `node` of an entry is the number of its row, from 1: of which node of the graph that row is, the contract alone knows. Of a
    /// row with exactly the hubs of a node below the first position it makes one with exactly the hubs below another position, by
    /// rising position, where the entries that come to it may all stand in it, are at most one of each hub, have every hub between
    /// the two positions among them, and hubs below the first position cover none. It doesn't matter what becomes of other rows.
    /// The entries come in lists with their runs, in any order. Each that is put takes 8 bytes where its distance and those before
    /// it fit. It costs the entries, and of each whose hub's row is not empty a search in that for each entry that its own row has
    /// got from the first position on. It is fastest where the entries of each hub stand side by side. The only error is that
    /// memory ran out, and then some of the entries may stand in their rows. (Planting Trees, PVLDB 2019.)
    pub fn join(
        &mut self,
        hub_rows: &HubRows,
        lists: &[RunList],
        rows: &mut SplitRows,
    ) -> Result<(), AllocError>
        requires runs { All HasItsRuns lists.now }
        requires nodes { All (λ e. IsNode (length rows.old) e.node) (all_entries lists.now) }
        requires from { All (λ e. hub_rows.now.first ≤ e.pos) (all_entries lists.now) }
        requires within { All (λ e. e.pos < hub_rows.now.first + length hub_rows.now.rows) (all_entries lists.now) }
        ensures size { length rows.new ≡ length rows.old }
        ensures stays { OnOk result ((k : ℕ) → IsNode (length rows.old) k → GoesOnFrom (label_row rows.old k) (label_row rows.new k)) }
        ensures rows { OnOk result ((edges : List AnEdge) (at : List ℕ) (c k v : ℕ) → IsNode (length rows.old) k
            → JoinsUnder edges at hub_rows.now.first c hub_rows.now.rows v
            → IsRowBelow edges at hub_rows.now.first v (label_row rows.old k)
            → JoinsRow edges at hub_rows.now.first c v (entries_of_node (all_entries lists.now) k)
            → IsRowBelow edges at c v (label_row rows.new k)) }
    {
        take_in(hub_rows, lists, &mut self.turns, rows)
    }
}
