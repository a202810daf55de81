//! A small grid, worked by hand. The function does nothing: its contract is what was worked.
ghost use Rattle.std.specs.Prelude.{◌≡◌, ℕ, []};
ghost use Rattle.walk_laws.specs.Joined.{Joined};
ghost use Rattle.walk_laws.specs.Labelling.{IsChl};
ghost use Rattle.walk_laws.specs.Worked.{first_four};
ghost use Rattle.grid_work.specs.Grid.{grid_edges};
ghost use Rattle.grid_work.specs.Totals.{distance_sum, entry_count};
ghost use Rattle.grid_work.specs.Worked.{edges_of_side_two, rows_of_side_two};

/// The grid of side 2 from the seed 1: x(1) to x(4) divided by 65536 are 16838, 5758, 10113 and 17515, so the weights are
/// 7, 7, 2 and 4. Its rows, under the order 1, 2, 3, 4, have 10 entries, whose distances add up to 35. A grid of side 1 has no edge.
pub fn a_grid_of_side_two()
    ensures edges { grid_edges 2 1 ≡ edges_of_side_two }
    ensures labelling { IsChl (Joined (grid_edges 2 1)) first_four rows_of_side_two }
    ensures entries { entry_count rows_of_side_two ≡ 10 }
    ensures distances { distance_sum rows_of_side_two ≡ 35 }
    ensures alone { (seed : ℕ) → grid_edges 1 seed ≡ [] }
{}
