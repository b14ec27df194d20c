//! What the definitions give on sample elections and prices.

ghost use Rattle.std.specs.Prelude.{◌≡◌, ◌+◌, ◌*◌, ◌∷◌, [], Some, None, false, true};
ghost use Rattle.pb_election.specs.Instance.{cost_of, cost_of_all, voters};
ghost use Rattle.pb_definition_tests.specs.Samples.{sample_election, sample_outcome, sample_prices, sample_prices_with, sample_with_costs, shared_election, shared_prices, split_election, split_outcome, split_prices};
ghost use Rattle.pb_cohesion.specs.EveryGroup.{DemandsAreWithinReach, NoDemandIsPassedOver, NoGroupHasMoreLeft, NoGroupIsPassedOver, NothingBlocks, SharesAreWithinReach, SupportersBlock};
ghost use Rattle.pb_cohesion.specs.Groups.{funded_for};
ghost use Rattle.pb_price.specs.First.{First};
ghost use Rattle.pb_definition_tests.specs.Prices.{moved_prices, no_money, none_funded, overpaid_prices, overpaying_election, pool_of_two, pool_prices};

use pb_price::{Failure, Mode};

const PLAIN: Mode = Mode::PLAIN;

const STABLE: Mode = Mode::STABLE;

const PLAIN_ALONE: Mode = Mode {
    exhaustive: false,
    ..Mode::PLAIN
};

/// Prices that pay for two projects.
pub fn supported_prices()
    ensures plain { First PLAIN sample_election sample_outcome sample_prices ≡ None }
    ensures stable { First STABLE sample_election sample_outcome sample_prices ≡ None }
{}

/// Thirds are exact, and 999 of 1000 is too little.
pub fn exact_sums()
    ensures thirds { First PLAIN shared_election (true ∷ []) (shared_prices 3 1 1) ≡ None }
    ensures below { First PLAIN shared_election (true ∷ []) (shared_prices 1000 333 333) ≡ Some (Failure.C3 1) }
{}

/// One supporter is over the budget, though the sum of what is left is small.
pub fn over_the_budget()
    ensures verdict { First PLAIN overpaying_election sample_outcome overpaid_prices ≡ Some (Failure.C2 2) }
    // A yes would be wrong: voter 3 alone has more left than the pool costs.
    ensures not_supported { NoGroupHasMoreLeft overpaying_election sample_outcome overpaid_prices → ⊥ }
{}

/// What is left, and what can be offered.
pub fn left_and_offered()
    ensures plain { First PLAIN (sample_with_costs 6 4 2) sample_outcome sample_prices ≡ None }
    ensures stable { First STABLE (sample_with_costs 6 4 2) sample_outcome sample_prices ≡ None }
    ensures too_cheap { First PLAIN (sample_with_costs 6 4 1) sample_outcome sample_prices ≡ Some (Failure.C5 3) }
    ensures moved_plain { First PLAIN (sample_with_costs 6 4 2) sample_outcome moved_prices ≡ None }
    ensures moved_stable { First STABLE (sample_with_costs 6 4 2) sample_outcome moved_prices ≡ Some (Failure.S5 3) }
    // What is left and the largest payment are not added: the supporters of the pool do not block.
    ensures not_added { SupportersBlock (sample_with_costs 6 4 2) sample_outcome sample_prices 3 → ⊥ }
    // What is left is not all that counts: voter 3 blocks by what it pays for the library.
    ensures not_left_alone { NothingBlocks (sample_with_costs 6 4 2) sample_outcome moved_prices → ⊥ }
{}

/// A group may have a share of the limit of just what a project costs that it lacks, with all that was funded for it.
pub fn shares_of_groups()
    ensures supported { First PLAIN_ALONE pool_of_two sample_outcome pool_prices ≡ None }
    ensures share { 2 * pool_of_two.limit ≡ voters pool_of_two * (cost_of pool_of_two 3 + funded_for pool_of_two sample_outcome (2 ∷ 3 ∷ [])) }
    ensures demand { cost_of_all pool_of_two (1 ∷ 3 ∷ []) ≡ cost_of pool_of_two 3 + funded_for pool_of_two sample_outcome (2 ∷ 3 ∷ []) }
    // So a yes doesn't exclude that a group or a demand is passed over where the budgets only reach the limit.
    ensures group_passed_over { NoGroupIsPassedOver pool_of_two sample_outcome → ⊥ }
    ensures demand_passed_over { NoDemandIsPassedOver pool_of_two sample_outcome → ⊥ }
    // Where they don't, it says nothing of shares and demands.
    ensures poor { First PLAIN_ALONE pool_of_two none_funded no_money ≡ None }
    ensures poor_share { SharesAreWithinReach pool_of_two none_funded → ⊥ }
    ensures poor_demand { DemandsAreWithinReach pool_of_two none_funded → ⊥ }
{}

/// The limit.
pub fn within_the_limit()
    ensures over { First PLAIN (sample_with_costs 7 4 9) sample_outcome sample_prices ≡ Some Failure.Feasible }
    ensures room { First PLAIN (split_election 5) split_outcome split_prices ≡ Some (Failure.Exhaustive 2) }
    ensures not_asked { First PLAIN_ALONE (split_election 5) split_outcome split_prices ≡ None }
    ensures no_payment { First PLAIN_ALONE (split_election 4) split_outcome split_prices ≡ Some (Failure.C5 2) }
{}

/// The first condition, and its first culprit.
pub fn first_culprits()
    ensures first_condition { First PLAIN sample_election sample_outcome (sample_prices_with (((1, 5) ∷ []) ∷ [] ∷ ((1, 1) ∷ (3, 1) ∷ []) ∷ [])) ≡ Some (Failure.C1 3 1) }
    ensures wasted { First PLAIN sample_election sample_outcome (sample_prices_with (((1, 2) ∷ (2, 2) ∷ []) ∷ ((1, 4) ∷ []) ∷ ((2, 2) ∷ (3, 1) ∷ []) ∷ [])) ≡ Some (Failure.C4 3) }
    ensures too_much { First PLAIN sample_election sample_outcome (sample_prices_with (((1, 2) ∷ (2, 2) ∷ []) ∷ ((1, 4) ∷ []) ∷ ((2, 3) ∷ []) ∷ [])) ≡ Some (Failure.C3 2) }
    ensures lowest { First PLAIN sample_election sample_outcome (sample_prices_with ([] ∷ ((2, 1) ∷ (3, 1) ∷ []) ∷ [] ∷ [])) ≡ Some (Failure.C1 2 2) }
    ensures other_outcome { First PLAIN sample_election (false ∷ false ∷ true ∷ []) (record { projects = 3; denominator = 1; budget = 9; payments = [] ∷ [] ∷ ((3, 9) ∷ []) ∷ [] }) ≡ Some (Failure.C5 1) }
{}
