//! What a yes to prices says of every group of voters.

ghost use Rattle.std.specs.Prelude.{◌≡◌};
ghost use Rattle.pb_price.specs.OnGroups.{on_groups};

use crate::{Findings, Mode, OnGroups};

impl OnGroups {
    /// What a yes says of groups, by the voter budgets of all voters together and the limit, both in one unit, and by
    /// whether the condition Exhaustive was asked for.
    pub fn of(budgets: u128, limit: u128, exhaustive: bool) -> OnGroups
        ensures { result ≡ on_groups exhaustive budgets limit }
    {
        if budgets < limit {
            OnGroups::Little
        } else if limit < budgets || exhaustive {
            OnGroups::Strict
        } else {
            OnGroups::Weak
        }
    }
}

impl Findings {
    /// What a yes in this mode says of groups, by the findings.
    pub fn on_groups(&self, mode: Mode) -> OnGroups
        ensures { result ≡ on_groups mode.exhaustive (self.now).budgets (self.now).limit }
    {
        OnGroups::of(self.budgets, self.limit, mode.exhaustive)
    }
}
