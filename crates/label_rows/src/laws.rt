//! The laws of the rule. Their function does nothing: its contract is the laws, over all rows and their seats.
ghost use Rattle.std.specs.Prelude.{◌≡◌, ◌↔◌, ℕ, List};
ghost use Rattle.atomic_table.specs.Table.{Step};
ghost use Rattle.walk_laws.specs.declared.entry.Entry.{Entry as AnEntry};
ghost use Rattle.label_rows.specs.declared.rule.About.{About as AboutRows};
ghost use Rattle.label_rows.specs.Lawful.{IsLawful, Sitter, Table as RowTable};
ghost use Rattle.label_rows.specs.Laws.{HoldsAtFirst, TakesKeep, GivesKeep, SplitsKeep, JoinsKeep, FreeRowsFit, NothingIsLost};

use crate::rule::{About, Handing, Law, Takes, View};
use atomic_table::{Play, TableRule};
use hub_index::Row;
use table_seats::{Looks, SeatView};

/// The rule holds of new rows, and each step of a seat keeps it, whatever the other seats have done before. Of a free row it
/// says that each entry is the length of a walk to a hub ranked no lower than the row's node, and that the row has all
/// entries that seats put there, each once.
pub fn the_rule_is_kept()
    ensures first { HoldsAtFirst }
    ensures take { TakesKeep }
    ensures give { GivesKeep }
    ensures split { SplitsKeep }
    ensures join { JoinsKeep }
    ensures free { FreeRowsFit }
    ensures lost { NothingIsLost }
{}

/// The rule is the one that the table of the rows is held to, between any two steps; and of the steps that a seat takes by
/// itself neither a take nor a look adds a visit.
pub fn the_table_is_held_to_the_rule()
    ensures rule { (about : AboutRows) (rows : RowTable) → ⟦<Law as TableRule<Row, SeatView<View>, About>>⟧.holds about rows ↔ IsLawful about rows }
    ensures take { (step : Step (List AnEntry)) (me : Sitter) (found : ℕ) (after : Sitter) → ⟦<Takes as Play<Row, SeatView<View>>>⟧.then step me found after → after.0.knows.visits ≡ me.0.knows.visits }
    ensures look { (step : Step (List AnEntry)) (me : Sitter) (found : ℕ) (after : Sitter) → ⟦<Looks<Handing> as Play<Row, SeatView<View>>>⟧.then step me found after → after.0.knows.visits ≡ me.0.knows.visits }
{}
