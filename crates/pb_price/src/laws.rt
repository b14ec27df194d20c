//! Laws of the verdict and of the sums that it compares, over the definitions alone.

ghost use Rattle.std.specs.Prelude.{◌≡◌, ◌≤◌, ◌↔◌, Bool, IsTrue, List, None, Some};
ghost use Rattle.pb_election.specs.Instance.{Instance};
ghost use Rattle.pb_election.specs.Text.{IsElection};
ghost use Rattle.pb_certificate.specs.Prices.{ArePrices, Prices};
ghost use Rattle.pb_price.specs.Condition.{Holds, is_asked};
ghost use Rattle.pb_price.specs.Findings.{findings};
ghost use Rattle.pb_price.specs.First.{First};
ghost use Rattle.pb_price.specs.FirstFalse.{IsFirstFalse};
ghost use Rattle.pb_price.specs.OnGroups.{IsCaseOf, groups_by};
ghost use Rattle.pb_price.specs.Supports.{Supports};
ghost use Rattle.pb_price.specs.Ranges.{AllSumsFit};
ghost use Rattle.pb_price.specs.Told.{TellWhatHolds, first_told};
ghost use Rattle.pb_price.specs.declared.Failure.{Failure};
ghost use Rattle.pb_price.specs.declared.condition.Condition.{Condition};
ghost use Rattle.pb_cohesion.specs.declared.Mode.{Mode};

/// The prices support the outcome exactly where no condition fails, whatever the mode asks for.
pub fn supported_where_no_condition_fails()
    ensures { (m : Mode) (e : Instance) (w : List Bool) (p : Prices) → (First m e w p ≡ None) ↔ Supports m e w p }
{}

/// The first failure is the one whose condition is the first that is false, of those that the mode asks for, and which
/// names the lowest voter and project at which that condition is false.
pub fn fails_at_the_first_false_condition()
    ensures { (m : Mode) (e : Instance) (w : List Bool) (p : Prices) (f : Failure) → (First m e w p ≡ Some f) ↔ IsFirstFalse m e w p f }
{}

/// Within the limits on elections and certificates each sum that the conditions compare, and each sum over a part of
/// the voters or projects, lies from -10^34 to 10^34 grains, and so fits 128 bits. What voters without a budget have
/// left can reach the lower end.
pub fn sums_fit()
    ensures { (e : Instance) (w : List Bool) (p : Prices) → IsElection e → ArePrices e p → AllSumsFit e w p }
{}

/// What a yes says of groups is strict exactly where the budgets of all voters together are more than the limit, or are
/// the limit and Exhaustive is asked for; weak where they are the limit without that; and little where they are less.
pub fn one_of_three_cases_is_said_of_groups()
    ensures { (m : Mode) (e : Instance) (p : Prices) → IsCaseOf m e p (groups_by m e p) }
{}

/// The prices support the outcome exactly where each condition holds that the mode asks for.
pub fn supported_where_each_condition_asked_for_holds()
    ensures { (m : Mode) (e : Instance) (w : List Bool) (p : Prices) → Supports m e w p ↔ ((c : Condition) → IsTrue (is_asked m c) → Holds c e w p) }
{}

/// The findings on prices tell which conditions hold: Feasible where the total is at most the limit, Cover where the
/// budgets are more than the limit, and each other condition where it has no culprit.
pub fn findings_tell_what_holds()
    ensures { (e : Instance) (w : List Bool) (p : Prices) → 1 ≤ p.denominator → TellWhatHolds e w p (findings e w p) }
{}

/// The first condition that the findings tell to be false is the first failure. So `Findings::verdict` is the verdict
/// on the prices.
pub fn findings_tell_the_first_failure()
    ensures { (m : Mode) (e : Instance) (w : List Bool) (p : Prices) → 1 ≤ p.denominator → first_told m (findings e w p) ≡ First m e w p }
{}
