//! What the definitions give on sample elections.

ghost use Rattle.std.specs.Prelude.{◌≡◌, ◌∷◌, [], Some, None, neg_ℤ, pos};
ghost use Rattle.pb_certificate.specs.declared.refutations.weighting.Role.TheVariants.{Least, Left, Most};
ghost use Rattle.pb_cohesion.specs.FirstU.{FirstStableU, FirstU};
ghost use Rattle.pb_certificate.specs.declared.violations.measure.Measure.TheVariants.{ByCost, ByCount};
ghost use Rattle.pb_cohesion.specs.FirstV.{FirstV};
ghost use Rattle.pb_cohesion.specs.Refutations.{at_least, at_most, budgets_counted, budgets_taken, left_cost, paid_cost, stable_budgets_counted};
ghost use Rattle.pb_definition_tests.specs.Weights.{a_b_c_weights, paid_and_offered, passed_over, row, sharing_x, wanting_c, wanting_y, weights, x_outcome, x_y_weights};
ghost use Rattle.pb_cohesion.specs.Satisfactions.{by_cost, by_count};
ghost use Rattle.pb_cohesion.specs.Short.{FallsShort, got, need};
ghost use Rattle.pb_definition_tests.specs.Samples.{all_want_y, dear_election, dear_outcome, sample_election, sample_outcome, unfair_election, unfair_outcome, unfair_with_ballot};

use pb_cohesion::{RefutationFailure, ViolationFailure};

/// Two of four voters with half of the limit deserve the two projects that they approve.
pub fn cohesive_group()
    ensures { FirstV by_count unfair_election unfair_outcome (1 ∷ 2 ∷ []) (1 ∷ 2 ∷ []) ≡ None }
{}

/// The tests fail in their order.
pub fn failing_tests()
    ensures no_voter { FirstV by_count unfair_election unfair_outcome [] (1 ∷ 2 ∷ []) ≡ Some ViolationFailure.V1 }
    ensures not_approved { FirstV by_count unfair_election unfair_outcome (1 ∷ []) (3 ∷ []) ≡ Some (ViolationFailure.V2 1 3) }
    ensures too_few { FirstV by_count unfair_election unfair_outcome (1 ∷ []) (1 ∷ 2 ∷ []) ≡ Some ViolationFailure.V3 }
    ensures has_enough { FirstV by_count (unfair_with_ballot (1 ∷ 2 ∷ 3 ∷ [])) unfair_outcome (1 ∷ 2 ∷ []) (1 ∷ []) ≡ Some (ViolationFailure.V4 2) }
    ensures nothing_demanded { FirstV by_count unfair_election unfair_outcome (1 ∷ 2 ∷ []) [] ≡ Some (ViolationFailure.V4 1) }
{}

/// By which measure a violation is one.
pub fn measures()
    // Each member gets one project where two are demanded, but that one costs more than both.
    ensures fewer { FirstV by_count all_want_y unfair_outcome (1 ∷ 2 ∷ []) (1 ∷ 2 ∷ []) ≡ None }
    ensures dearer { FirstV (by_cost all_want_y) all_want_y unfair_outcome (1 ∷ 2 ∷ []) (1 ∷ 2 ∷ []) ≡ Some (ViolationFailure.V4 1) }
    // The member gets one project where one is demanded, but the one that is demanded costs more.
    ensures as_many { FirstV by_count dear_election dear_outcome (1 ∷ []) (2 ∷ []) ≡ Some (ViolationFailure.V4 1) }
    ensures cheaper { FirstV (by_cost dear_election) dear_election dear_outcome (1 ∷ []) (2 ∷ []) ≡ None }
{}

/// Weights that refute all prices, and what they come to. Amounts are in millionths.
pub fn refuting_weights()
    ensures refuted { FirstU (wanting_c 7) sample_outcome a_b_c_weights ≡ None }
    ensures counted { budgets_counted (wanting_c 7) sample_outcome a_b_c_weights ≡ 2 }
    ensures taken { budgets_taken (wanting_c 7) sample_outcome a_b_c_weights ≡ 2 }
    ensures paid { paid_cost (wanting_c 7) sample_outcome a_b_c_weights ≡ pos 8000000 }
    ensures left { left_cost (wanting_c 7) sample_outcome a_b_c_weights ≡ 7000000 }
    // The same with the row `most` on the other side.
    ensures least { at_least (wanting_c 7) sample_outcome a_b_c_weights ≡ 12000000 }
    ensures most { at_most (wanting_c 7) sample_outcome a_b_c_weights ≡ 11000000 }
    // Where c costs as much as the weights leave for it, there is no contradiction.
    ensures as_much { FirstU (wanting_c 8) sample_outcome a_b_c_weights ≡ Some RefutationFailure.U3 }
{}

/// Weights that refute prices under Cover.
pub fn refuting_under_cover()
    ensures refuted { FirstU (wanting_y 3) x_outcome (x_y_weights 1 1) ≡ None }
    // Under Cover as much is enough, but not less, and it has to have a weight, which counts for each voter.
    ensures as_much { FirstU (wanting_y 8) x_outcome (x_y_weights 1 1) ≡ None }
    ensures dearer { FirstU (wanting_y 9) x_outcome (x_y_weights 1 1) ≡ Some RefutationFailure.U3 }
    ensures below_zero { paid_cost (wanting_y 3) x_outcome (x_y_weights 0 1) ≡ neg_ℤ (pos 2000000) }
    ensures without_cover { FirstU (wanting_y 3) x_outcome (x_y_weights 0 1) ≡ Some RefutationFailure.U3 }
    ensures more_cover { FirstU (wanting_y 3) x_outcome (x_y_weights 2 1) ≡ Some RefutationFailure.U2 }
    // A group that is passed over: its voters are the weight of Cover, and all voters that of the projects.
    ensures passed_over { FirstU passed_over x_outcome (x_y_weights 3 5) ≡ None }
    // What is counted of the voter who wants x alone doesn't fall below 0.
    ensures not_below_zero { budgets_counted passed_over x_outcome (x_y_weights 0 5) ≡ 0 }
{}

/// Weights that refute stable prices alone. Each voter offers at least half of its budget, and so much of x is paid.
pub fn refuting_stable_prices()
    ensures refuted { FirstStableU (sharing_x 1) x_outcome (paid_and_offered 0 1 1) ≡ None }
    ensures plain { FirstU (sharing_x 1) x_outcome (paid_and_offered 0 1 1) ≡ Some RefutationFailure.U2 }
    ensures counted { stable_budgets_counted (sharing_x 1) x_outcome (paid_and_offered 0 1 1) ≡ 2 }
    ensures plain_counted { budgets_counted (sharing_x 1) x_outcome (paid_and_offered 0 1 1) ≡ 4 }
    ensures as_much { FirstStableU (sharing_x 4) x_outcome (paid_and_offered 0 1 1) ≡ Some RefutationFailure.U3 }
    // Cover counts for each voter as well.
    ensures under_cover { FirstStableU (sharing_x 4) x_outcome (paid_and_offered 1 2 4) ≡ None }
    ensures more_cover { FirstStableU (sharing_x 4) x_outcome (paid_and_offered 2 2 4) ≡ Some RefutationFailure.U2 }
{}

/// The tests of weights fail in their order.
pub fn failing_weights()
    ensures funded { FirstU (wanting_c 7) sample_outcome (weights 0 (row Left 2 ∷ row Most 1 ∷ row Least 1 ∷ [])) ≡ Some (RefutationFailure.U1 1) }
    // A row counts whatever its weight is.
    ensures unfunded { FirstU (wanting_c 7) sample_outcome (weights 0 (row Least 2 ∷ row Most 1 ∷ row Most 0 ∷ [])) ≡ Some (RefutationFailure.U1 3) }
    ensures counted { FirstU sample_election sample_outcome a_b_c_weights ≡ Some RefutationFailure.U2 }
    ensures no_rows { FirstU (wanting_y 3) x_outcome (weights 0 (None ∷ None ∷ [])) ≡ Some RefutationFailure.U3 }
{}

/// Two voters got x, which costs 2, and want y, with a limit of 10 that is theirs alone.
pub fn short_groups()
    ensures cost { got ByCost (wanting_y 3) x_outcome 1 ≡ 2000000 }
    ensures count { got ByCount (wanting_y 3) x_outcome 1 ≡ 1 }
    ensures need_by_cost { need ByCost (wanting_y 3) 2 2000000 ≡ 5000000 }
    ensures need_by_count { need ByCount (wanting_y 3) 2 1 ≡ 6000000 }
    ensures as_much { FallsShort ByCost (wanting_y 8) x_outcome (1 ∷ 2 ∷ []) 2 }
    ensures dearer { FallsShort ByCost (wanting_y 9) x_outcome (1 ∷ 2 ∷ []) 2 → ⊥ }
    // By counting, y has to cost half of the limit.
    ensures half { FallsShort ByCount (wanting_y 5) x_outcome (1 ∷ 2 ∷ []) 2 }
    ensures over_half { FallsShort ByCount (wanting_y 6) x_outcome (1 ∷ 2 ∷ []) 2 → ⊥ }
    // One of them alone has half of it.
    ensures alone { FallsShort ByCost (wanting_y 3) x_outcome (1 ∷ []) 2 }
    ensures too_few { FallsShort ByCost (wanting_y 4) x_outcome (1 ∷ []) 2 → ⊥ }
{}
