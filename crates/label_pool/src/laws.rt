//! The laws of the rule. Their functions do nothing: their contracts are the laws, over all pools and their seats.
ghost use Rattle.std.specs.Prelude.{◌≡◌, ◌↔◌, ℕ, List, ◌∷◌};
ghost use Rattle.atomic_table.specs.Table.{Step};
ghost use Rattle.label_pool.specs.declared.rule.About.{About as AboutPool};
ghost use Rattle.label_pool.specs.Layout.{head_at};
ghost use Rattle.label_pool.specs.Lawful.{IsLawful, Sitter, Table as PoolTable};
ghost use Rattle.label_pool.specs.Laws.{HoldsAtFirst, DrawsKeep, FillsKeep, OpensKeep, FindsKeep, FindsAll, LinksKeep, SplitsKeep, JoinsKeep, ChainsAreShort, ChainsAreApart};

use crate::rule::{
    About, Draws, FillsNext, Finds, Handing, Law, LinkFact, Links, Opens, Reads, View,
};
use atomic_table::{Play, TableRule};
use table_seats::{Looks, SeatView};

/// The rule holds of a new pool, and each step of a seat keeps it, whatever the other seats have done before. Of a chain it
/// says that no cell of it stands in another, that none is open for a seat, and that it has no more cells than there are.
pub fn the_rule_is_kept<F: LinkFact>()
    ensures first { HoldsAtFirst F.fact }
    ensures draw { DrawsKeep F.fact }
    ensures opened { OpensKeep F.fact }
    ensures fill { FillsKeep F.fact }
    ensures find { FindsKeep F.fact }
    ensures link { LinksKeep F.fact }
    ensures split { SplitsKeep F.fact }
    ensures join { JoinsKeep F.fact }
    ensures short { ChainsAreShort F.fact }
    ensures apart { ChainsAreApart F.fact }
{}

/// The rule is the one that the table of a pool is held to, between any two steps. The load of a head finds the whole chain
/// that stands there then; and of the steps that a seat takes by itself it alone adds a look: no draw, no opening, no fill,
/// no link, no load of a cell's word, and no look at word 0.
pub fn the_table_is_held_to_the_rule<F: LinkFact>()
    ensures rule { (about : AboutPool F) (words : PoolTable F) → ⟦<Law as TableRule<(), SeatView<View<F>>, About<F>>>⟧.holds about words ↔ IsLawful F.fact about words }
    ensures find { FindsAll F.fact (λ step me number after. ⟦<Finds as Play<(), SeatView<View<F>>>>⟧.then step me number after) }
    ensures draw { (step : Step (Unit {0})) (me : Sitter F) (number : ℕ) (after : Sitter F) → ⟦<Draws as Play<(), SeatView<View<F>>>>⟧.then step me number after → after.0.knows.looks ≡ me.0.knows.looks }
    ensures next { (step : Step (Unit {0})) (me : Sitter F) (number : ℕ) (after : Sitter F) → ⟦<FillsNext as Play<(), SeatView<View<F>>>>⟧.then step me number after → after.0.knows.looks ≡ me.0.knows.looks }
    ensures opened { (step : Step (Unit {0})) (me : Sitter F) (number : ℕ) (after : Sitter F) (cell : ℕ) (rest : List ℕ) → me.0.knows.reserve ≡ cell ∷ rest → ⟦<Opens as Play<(), SeatView<View<F>>>>⟧.then step me number after → after.0.knows.looks ≡ me.0.knows.looks }
    ensures link { (step : Step (Unit {0})) (me : Sitter F) (number : ℕ) (after : Sitter F) (v : ℕ) → step.word ≡ head_at v → ⟦<Links as Play<(), SeatView<View<F>>>>⟧.then step me number after → after.0.knows.looks ≡ me.0.knows.looks }
    ensures read { (step : Step (Unit {0})) (me : Sitter F) (number : ℕ) (after : Sitter F) → ⟦<Reads as Play<(), SeatView<View<F>>>>⟧.then step me number after → after.0.knows.looks ≡ me.0.knows.looks }
    ensures look { (step : Step (Unit {0})) (me : Sitter F) (number : ℕ) (after : Sitter F) → ⟦<Looks<Handing> as Play<(), SeatView<View<F>>>>⟧.then step me number after → after.0.knows.looks ≡ me.0.knows.looks }
{}
