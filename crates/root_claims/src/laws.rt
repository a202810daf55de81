//! The laws of the rule. Their function does nothing: its contract is the laws, over all claims and their seats.
ghost use Rattle.std.specs.Prelude.{◌≡◌, ◌↔◌, ℕ};
ghost use Rattle.atomic_table.specs.Table.{Step};
ghost use Rattle.root_claims.specs.declared.rule.Bounds.{Bounds as BoundsOfClaims};
ghost use Rattle.root_claims.specs.Lawful.{Holds, Sitter, Table};
ghost use Rattle.root_claims.specs.Laws.{HoldsAtFirst, DrawsKeep, SettlesKeep, SplitsKeep, JoinsKeep};

use crate::rule::{Bounds, Handing, Law, View};
use atomic_table::{Play, TableRule};
use table_seats::{Looks, SeatView};

/// The rule holds of new claims, and each step of a seat keeps it, whatever the other seats have done before.
pub fn the_rule_is_kept()
    ensures first { HoldsAtFirst }
    ensures draw { DrawsKeep }
    ensures settle { SettlesKeep }
    ensures split { SplitsKeep }
    ensures join { JoinsKeep }
{}

/// The rule is the one that the table of the counter is held to, between any two steps; and a look adds no number to those
/// that a seat has drawn.
pub fn the_table_is_held_to_the_rule()
    ensures rule { (about : BoundsOfClaims) (claims : Table) → ⟦<Law as TableRule<(), SeatView<View>, Bounds>>⟧.holds about claims ↔ Holds about claims }
    ensures look { (step : Step (Unit {0})) (me : Sitter) (found : ℕ) (after : Sitter) → ⟦<Looks<Handing> as Play<(), SeatView<View>>>⟧.then step me found after → after.0.knows.got ≡ me.0.knows.got }
{}
