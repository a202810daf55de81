//! Two small graphs, worked by hand: what the definitions say of them. Each function does nothing: its contract is what was worked.
ghost use Rattle.std.specs.Prelude.{ℕ, [], ◌∷◌};
ghost use Rattle.walk_laws.specs.Joined.{Joined};
ghost use Rattle.walk_laws.specs.Least.{IsLeast, AreApart};
ghost use Rattle.walk_laws.specs.Canonical.{IsCanonical};
ghost use Rattle.walk_laws.specs.Labelling.{IsChl};
ghost use Rattle.walk_laws.specs.Answer.{IsAnswer, IsWalkAnswer};
ghost use Rattle.walk_laws.specs.Worked.{square, square_rows, two_parts, first_three, first_four};

/// In the square 1-2-3-4-1 with the order 1, 2, 3, 4, node 2 is no hub of node 4: a walk as short leads by node 1.
pub fn hubs_of_a_square()
    ensures one_of_three { IsCanonical (Joined square) first_four 1 3 2 }
    ensures two_of_three { IsCanonical (Joined square) first_four 2 3 1 }
    ensures three_of_four { IsCanonical (Joined square) first_four 3 4 1 }
    ensures two_not_of_four { (d : ℕ) → ¬ IsCanonical (Joined square) first_four 2 4 d }
    ensures answer { IsAnswer (Joined square) first_four 2 4 (Some (2, 1)) }
    ensures walk { IsWalkAnswer (Joined square) 2 4 (Some (2, 2 ∷ 1 ∷ 4 ∷ [])) }
    ensures labelling { IsChl (Joined square) first_four square_rows }
{}

/// Of two parallel edges the shorter counts, a self-loop makes no way shorter, and no walk leads to another part of the
/// graph.
pub fn parallel_edges_a_loop_and_two_parts()
    ensures least { IsLeast (Joined two_parts) 1 2 3 }
    ensures no_way_round { IsLeast (Joined two_parts) 1 1 0 }
    ensures apart { AreApart (Joined two_parts) 1 3 }
    ensures hub { IsCanonical (Joined two_parts) first_three 1 2 3 }
{}
