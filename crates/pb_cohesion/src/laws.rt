//! Laws on groups of voters, whatever the election, the outcome and the prices are.

ghost use Rattle.std.specs.Prelude.{◌≡◌, ◌<◌, ◌≤◌, ◌⊎◌, ◌↔◌, ◌≤ℤ◌, [], ℕ, pos, Bool, true, Contains, List, filter, sum_by, None};
ghost use Rattle.pb_election.specs.Instance.{Instance, IsProject, all_projects, all_voters, cost_of};
ghost use Rattle.pb_election.specs.Outcome.{OutcomeFits, funds};
ghost use Rattle.pb_election.specs.Text.{IsElection};
ghost use Rattle.pb_certificate.specs.Prices.{Prices};
ghost use Rattle.pb_certificate.specs.Refutations.{Weights};
ghost use Rattle.pb_certificate.specs.declared.violations.measure.Measure.{Measure};
ghost use Rattle.pb_certificate.specs.declared.violations.measure.Measure.TheVariants.{ByCount, ByCost};
ghost use Rattle.pb_cohesion.specs.Amounts.{paid, spent};
ghost use Rattle.pb_cohesion.specs.Closest.{AreAllFigures};
ghost use Rattle.pb_cohesion.specs.declared.GroupFigures.{GroupFigures};
ghost use Rattle.pb_cohesion.specs.Conditions.{C1, C2, C3, C4, C5, Cover, Exhaustive, S5, culprits_of_C1, culprits_of_C2, culprits_of_C3, culprits_of_C4, culprits_of_C5, culprits_of_Exhaustive, culprits_of_S5, most_of};
ghost use Rattle.pb_cohesion.specs.EveryGroup.{BudgetsAreTheLimit, BudgetsAreWithinReach, BudgetsReachTheLimit, DemandsAreWithinReach, GroupsGetTheirShare, NoDemandIsPassedOver, NoGroupHasMoreLeft, NoGroupIsPassedOver, NoViolationByCounting, NothingBlocks, SharesAreWithinReach, SupportersBlock, SupportersHaveMoreLeft};
ghost use Rattle.pb_cohesion.specs.FirstU.{FirstStableU, FirstU};
ghost use Rattle.pb_cohesion.specs.FirstV.{FirstV};
ghost use Rattle.pb_cohesion.specs.Groups.{Offer, Violates};
ghost use Rattle.pb_cohesion.specs.Larger.{FundsNoLess, with_limit};
ghost use Rattle.pb_cohesion.specs.Outcome.{total};
ghost use Rattle.pb_cohesion.specs.RefutationFindings.{TellWhichRefutationTestsHold, refutation_findings};
ghost use Rattle.pb_cohesion.specs.Refutations.{NoPricesSupport, NoPricesWithCoverSupport, NothingRefutes, Refutes, Supports, IsLeast, NoStablePricesSupport, NoStablePricesWithCoverSupport, NothingRefutesStable, OffersMakeUp, RefutesStable, SupportsStable, gain, stable_gain};
ghost use Rattle.pb_cohesion.specs.Short.{IsLargestShort, SatisfiesEjrPlus, FallsShort};
ghost use Rattle.pb_cohesion.specs.ViolationFindings.{TellWhichTestsHold, violation_findings};

/// The total of an outcome is what its funded projects cost, where the instance is an election or the outcome fits it.
pub fn outcomes_cost_their_projects()
    ensures { (e : Instance) (w : List Bool) → (IsElection e ⊎ OutcomeFits (funds w e) e) → (funds w e).total ≡ total e w }
{}

/// The sum over a part of a list is at most the sum over the list.
pub fn parts_sum_to_less()
    ensures { (f : ℕ → ℕ) (test : ℕ → Bool) (xs : List ℕ) → sum_by f (filter test xs) ≤ sum_by f xs }
{}

/// What a voter offers is at most the larger of its largest payment and what it has left.
pub fn offers_are_limited()
    ensures { (e : Instance) (w : List Bool) (p : Prices) (i x : ℕ) → Offer e w p i x → pos x ≤ℤ most_of e p i }
{}

/// The sum over voters of sums over projects is the sum over projects of sums over voters.
pub fn double_sums_exchange()
    ensures sums { (f : ℕ → ℕ → ℕ) (voters projects : List ℕ) → sum_by (λ i. sum_by (λ c. f i c) projects) voters ≡ sum_by (λ c. sum_by (λ i. f i c) voters) projects }
    // What all voters spend is what is paid for all projects.
    ensures payments { (e : Instance) (p : Prices) → sum_by (spent e p) (all_voters e) ≡ sum_by (paid e p) (all_projects e) }
{}

/// Under C2 and C5 no group of supporters of an unfunded project has more left than it costs.
pub fn no_group_has_more_left()
    ensures every_group { (e : Instance) (w : List Bool) (p : Prices) → C2 e p → C5 e w p → NoGroupHasMoreLeft e w p }
    // At a culprit the supporters together have more.
    ensures at_culprit { (e : Instance) (w : List Bool) (p : Prices) (c : ℕ) → Contains (culprits_of_C5 e w p) c → SupportersHaveMoreLeft e p c }
{}

/// Under S5 no group blocks. Under C4, S5 holds exactly where no group blocks.
pub fn stable_where_nothing_blocks()
    ensures nothing_blocks { (e : Instance) (w : List Bool) (p : Prices) → S5 e w p → NothingBlocks e w p }
    ensures exactly { (e : Instance) (w : List Bool) (p : Prices) → C4 e w p → (S5 e w p ↔ NothingBlocks e w p) }
    // At a culprit the supporters together block.
    ensures at_culprit { (e : Instance) (w : List Bool) (p : Prices) (c : ℕ) → C4 e w p → Contains (culprits_of_S5 e w p) c → SupportersBlock e w p c }
{}

/// Under C1, C3 and C4, and either C2 and C5 or S5, the budgets of a group of supporters of an unfunded project come to
/// at most its cost and that of the group's reach.
pub fn budgets_within_reach()
    ensures { (e : Instance) (w : List Bool) (p : Prices) → C1 e p → C3 e w p → C4 e w p → ((C2 e p × C5 e w p) ⊎ S5 e w p) → BudgetsAreWithinReach e w p }
{}

/// No group is passed over: under C1, C3 and C4, and either C2 and C5 or S5, where the budgets of all voters together
/// are at least the limit, the share of a group of supporters of an unfunded project is at most what this project costs
/// and what was funded for the group together. Where they are more than the limit the share is less, which is PJR+ up to
/// any project, by cost.
pub fn shares_within_reach()
    ensures reached { (e : Instance) (w : List Bool) (p : Prices) → 1 ≤ p.denominator → C1 e p → C3 e w p → C4 e w p → ((C2 e p × C5 e w p) ⊎ S5 e w p) → BudgetsReachTheLimit e p → SharesAreWithinReach e w }
    ensures covered { (e : Instance) (w : List Bool) (p : Prices) → C1 e p → C3 e w p → C4 e w p → ((C2 e p × C5 e w p) ⊎ S5 e w p) → Cover e p → NoGroupIsPassedOver e w }
{}

/// So it is also where the budgets of all voters together are the limit, and no unfunded project can be added within it:
/// under C1 to C4 no group is passed over, and under S5 none is a violation by counting, and none falls short by
/// counting.
pub fn exhaustive_is_as_good_as_cover_at_the_limit()
    ensures shares { (e : Instance) (w : List Bool) (p : Prices) → 1 ≤ p.denominator → C1 e p → C2 e p → C3 e w p → C4 e w p → Exhaustive e w → BudgetsAreTheLimit e p → NoGroupIsPassedOver e w }
    ensures counting { (e : Instance) (w : List Bool) (p : Prices) → 1 ≤ p.denominator → C1 e p → C2 e p → C3 e w p → C4 e w p → S5 e w p → Exhaustive e w → BudgetsAreTheLimit e p → NoViolationByCounting e w }
    ensures ejr_plus { (e : Instance) (w : List Bool) (p : Prices) → 1 ≤ p.denominator → C1 e p → C2 e p → C3 e w p → C4 e w p → S5 e w p → Exhaustive e w → BudgetsAreTheLimit e p → SatisfiesEjrPlus ByCount e w }
{}

/// So no demand is passed over: what a cohesive group demands costs at most what any unfunded project of it costs and
/// what was funded for the group together, and less where no group is passed over: PJR up to any project, by cost.
pub fn demands_within_reach()
    ensures reached { (e : Instance) (w : List Bool) → SharesAreWithinReach e w → DemandsAreWithinReach e w }
    ensures covered { (e : Instance) (w : List Bool) → NoGroupIsPassedOver e w → NoDemandIsPassedOver e w }
{}

/// Stable prices are fair: under C1, C3, C4 and S5, where the budgets of a group come to more than what a set of
/// projects costs, and all members approve the set, some member approves at least as many funded projects. Members may
/// spend more than the budget.
pub fn stable_prices_are_fair()
    ensures { (e : Instance) (w : List Bool) (p : Prices) → C1 e p → C3 e w p → C4 e w p → S5 e w p → GroupsGetTheirShare e w p }
{}

/// Stable prices exclude violations: under C1, C3, C4, S5 and Cover, no group and no demand are a violation by
/// counting. Of violations by cost nothing is said.
pub fn stable_prices_exclude_violations()
    ensures { (e : Instance) (w : List Bool) (p : Prices) → C1 e p → C3 e w p → C4 e w p → S5 e w p → Cover e p → NoViolationByCounting e w }
{}

/// Stable prices satisfy EJR+ up to any project by counting: under C1, C4, S5 and Cover no group falls short by
/// counting. By cost one can.
pub fn stable_prices_satisfy_ejr_plus()
    ensures { (e : Instance) (w : List Bool) (p : Prices) → C1 e p → C4 e w p → S5 e w p → Cover e p → SatisfiesEjrPlus ByCount e w }
{}

/// Where no group falls short by cost, none is passed over: EJR+ up to any project is at least as much as PJR+ up to any
/// project.
pub fn ejr_plus_passes_nobody_over()
    ensures { (e : Instance) (w : List Bool) → SatisfiesEjrPlus ByCost e w → NoGroupIsPassedOver e w }
{}

/// Where no group falls short, none does when more projects are funded, nor when the limit is lower, by either measure.
pub fn ejr_plus_stays()
    ensures more_funded { (m : Measure) (e : Instance) (v w : List Bool) → SatisfiesEjrPlus m e w → FundsNoLess e v w → SatisfiesEjrPlus m e v }
    ensures lower_limit { (m : Measure) (e : Instance) (w : List Bool) (limit : ℕ) → SatisfiesEjrPlus m e w → limit ≤ e.limit → SatisfiesEjrPlus m (with_limit e limit) w }
{}

/// Where all projects cost the same, a group falls short by cost exactly where it does by counting.
pub fn measures_agree_at_equal_costs()
    ensures { (e : Instance) (w : List Bool) (cost : ℕ) (s : List ℕ) (c : ℕ) → ((j : ℕ) → IsProject e j → cost_of e j ≡ cost) → (FallsShort ByCost e w s c ↔ FallsShort ByCount e w s c) }
{}

/// There is at most one largest group that falls short for a project.
pub fn largest_group_is_one()
    ensures { (m : Measure) (e : Instance) (w : List Bool) (s t : List ℕ) (c : ℕ) → IsLargestShort m e w s c → IsLargestShort m e w t c → s ≡ t }
{}

/// Each condition but Feasible and Cover, which name no culprit, holds exactly where it has none.
pub fn conditions_have_culprits()
    ensures exhaustive { (e : Instance) (w : List Bool) → (culprits_of_Exhaustive e w ≡ []) ↔ Exhaustive e w }
    ensures c1 { (e : Instance) (p : Prices) → (culprits_of_C1 e p ≡ []) ↔ C1 e p }
    ensures c2 { (e : Instance) (p : Prices) → (culprits_of_C2 e p ≡ []) ↔ C2 e p }
    ensures c3 { (e : Instance) (w : List Bool) (p : Prices) → (culprits_of_C3 e w p ≡ []) ↔ C3 e w p }
    ensures c4 { (e : Instance) (w : List Bool) (p : Prices) → (culprits_of_C4 e w p ≡ []) ↔ C4 e w p }
    ensures c5 { (e : Instance) (w : List Bool) (p : Prices) → (culprits_of_C5 e w p ≡ []) ↔ C5 e w p }
    ensures s5 { (e : Instance) (w : List Bool) (p : Prices) → (culprits_of_S5 e w p ≡ []) ↔ S5 e w p }
{}

/// A group and its demand are a violation exactly where no test fails, whatever each project is worth.
pub fn violation_where_no_test_fails()
    ensures { (worth : ℕ → ℕ) (e : Instance) (w : List Bool) (s t : List ℕ) → (FirstV worth e w s t ≡ None) ↔ Violates worth e w s t }
{}

/// The findings on a group and its demand tell which tests hold: V1 where there are members, V2 and V4 where there is
/// no culprit, and V3 where the group's share of the limit covers what the demanded projects cost.
pub fn violation_findings_tell_what_holds()
    ensures { (worth : ℕ → ℕ) (e : Instance) (w : List Bool) (s t : List ℕ) → TellWhichTestsHold worth e w s t (violation_findings worth e w s t) }
{}

/// Weights that refute exclude all prices for the outcome, in the plain form and in the stable one: where Cover has no
/// weight each price system, whatever its denominator, its budget and its payments are, and else each whose budgets
/// together are more than the limit.
pub fn refutations_exclude_prices()
    ensures all { (e : Instance) (w : List Bool) (r : Weights) → Refutes e w r → r.cover ≡ 0 → NoPricesSupport e w }
    ensures covered { (e : Instance) (w : List Bool) (r : Weights) → Refutes e w r → 0 < r.cover → NoPricesWithCoverSupport e w }
    // So where prices support an outcome, weights refute it only with a weight of Cover, and where Cover holds not at all.
    ensures supported { (e : Instance) (w : List Bool) (p : Prices) (cover : Bool) → Supports e w p → (cover ≡ true → Cover e p) → NothingRefutes cover e w }
{}

/// Weights that refute stable prices exclude those alone, in the same way.
pub fn refutations_exclude_stable_prices()
    ensures all { (e : Instance) (w : List Bool) (r : Weights) → RefutesStable e w r → r.cover ≡ 0 → NoStablePricesSupport e w }
    ensures covered { (e : Instance) (w : List Bool) (r : Weights) → RefutesStable e w r → 0 < r.cover → NoStablePricesWithCoverSupport e w }
    ensures supported { (e : Instance) (w : List Bool) (p : Prices) (cover : Bool) → SupportsStable e w p → (cover ≡ true → Cover e p) → NothingRefutesStable cover e w }
    // Weights that refute all prices refute the stable ones.
    ensures plain { (e : Instance) (w : List Bool) (r : Weights) → Refutes e w r → RefutesStable e w r }
{}

/// A voter's gain where prices are stable is the least number at which offers make up for what payments count above it,
/// and no more than its gain for all prices.
pub fn stable_counts_are_least()
    ensures least { (e : Instance) (w : List Bool) (r : Weights) (i : ℕ) → IsLeast (OffersMakeUp e w r i) (stable_gain e w r i) }
    ensures at_most { (e : Instance) (w : List Bool) (r : Weights) (i : ℕ) → stable_gain e w r i ≤ gain e w r i }
{}

/// Weights refute all prices for an outcome, those under Cover where that has a weight, exactly where no test fails. So
/// it is with stable prices and the tests for those.
pub fn refutation_where_no_test_fails()
    ensures all { (e : Instance) (w : List Bool) (r : Weights) → (FirstU e w r ≡ None) ↔ Refutes e w r }
    ensures stable { (e : Instance) (w : List Bool) (r : Weights) → (FirstStableU e w r ≡ None) ↔ RefutesStable e w r }
{}

/// The findings on a refutation tell which tests hold: U1 where there is no culprit, U2 where budgets are counted no
/// more often than they are taken, and U3 where more is paid at least than is paid and left at most, or as much and Cover
/// has a weight. Where by the findings all three hold, and nowhere else, the weights refute all prices, or the stable
/// ones.
pub fn refutation_findings_tell_what_holds()
    ensures { (stable : Bool) (e : Instance) (w : List Bool) (r : Weights) → TellWhichRefutationTestsHold e w r (refutation_findings stable e w r) }
{}

/// For each unfunded project with a supporter there is just one group that is shown, so the figures of all projects are
/// there, and no others.
pub fn group_figures_are_one()
    ensures exist { (m : Measure) (e : Instance) (w : List Bool) → (xs : List GroupFigures) × AreAllFigures m e w xs }
    ensures one { (m : Measure) (e : Instance) (w : List Bool) (xs ys : List GroupFigures) → AreAllFigures m e w xs → AreAllFigures m e w ys → xs ≡ ys }
{}
