//! The verdict that the findings on prices tell, and how a condition that fails is told.

ghost use Rattle.std.specs.Prelude.{◌≡◌};
ghost use Rattle.pb_price.specs.First.{verdict_of};
ghost use Rattle.pb_price.specs.Told.{first_told, price_failed, told_of_budgets, told_of_outcome, told_of_payments, told_of_supporters};

use crate::{Failure, Findings, Mode, Verdict};
use pb_cohesion::FailedAt;

impl Findings {
    /// The verdict that the findings tell: that the prices support the outcome, where each condition of the mode holds
    /// by them, or else the first that doesn't, with its first culprit. It is the verdict on the prices that they were
    /// found for, in any mode.
    pub fn verdict(&self, mode: Mode) -> Verdict
        ensures { result ≡ verdict_of (first_told mode self.now) }
    {
        match self.first_failure(mode) {
            None => Verdict::Supported,
            Some(failure) => Verdict::Failed(failure),
        }
    }

    // The first condition of the mode that doesn't hold.
    fn first_failure(&self, mode: Mode) -> Option<Failure>
        ensures { result ≡ first_told mode self.now }
    {
        self.failure_of_outcome(mode)
            .or(self.failure_of_budgets(mode))
            .or(self.failure_of_payments())
            .or(self.failure_of_supporters(mode))
    }

    // Whether the funded projects keep within the limit, and leave no room for another where the mode asks for that.
    fn failure_of_outcome(&self, mode: Mode) -> Option<Failure>
        ensures { result ≡ told_of_outcome mode self.now }
    {
        if self.limit < self.total {
            return Some(Failure::Feasible);
        }
        if !mode.exhaustive {
            return None;
        }
        self.exhaustive.first.map(Failure::Exhaustive)
    }

    // Whether the budgets of all voters are together more than the limit, where the mode asks for that.
    fn failure_of_budgets(&self, mode: Mode) -> Option<Failure>
        ensures { result ≡ told_of_budgets mode self.now }
    {
        if mode.cover && self.budgets <= self.limit {
            return Some(Failure::Cover);
        }
        None
    }

    // Who pays how much for what.
    fn failure_of_payments(&self) -> Option<Failure>
        ensures { result ≡ told_of_payments self.now }
    {
        if let Some((i, j)) = self.c1.first {
            return Some(Failure::C1(i, j));
        }
        let over_budget = self.c2.first.map(Failure::C2);
        let paid_wrongly = self.c3.first.map(Failure::C3);
        let paid_in_vain = self.c4.first.map(Failure::C4);
        over_budget.or(paid_wrongly).or(paid_in_vain)
    }

    // What the supporters of unfunded projects have left, or in the stable form can offer.
    fn failure_of_supporters(&self, mode: Mode) -> Option<Failure>
        ensures { result ≡ told_of_supporters mode self.now }
    {
        if mode.stable {
            self.s5.first.map(Failure::S5)
        } else {
            self.c5.first.map(Failure::C5)
        }
    }
}

impl Failure {
    /// The condition that fails, with where it does.
    pub fn failed_at(self) -> FailedAt
        ensures { result ≡ price_failed self }
    {
        match self {
            Failure::Feasible => FailedAt::new(1, "Feasible", None, None),
            Failure::Exhaustive(j) => FailedAt::new(2, "Exhaustive", None, Some(j)),
            Failure::Cover => FailedAt::new(3, "Cover", None, None),
            Failure::C1(i, j) => FailedAt::new(4, "C1", Some(i), Some(j)),
            Failure::C2(i) => FailedAt::new(5, "C2", Some(i), None),
            Failure::C3(j) => FailedAt::new(6, "C3", None, Some(j)),
            Failure::C4(j) => FailedAt::new(7, "C4", None, Some(j)),
            Failure::C5(j) => FailedAt::new(8, "C5", None, Some(j)),
            Failure::S5(j) => FailedAt::new(9, "S5", None, Some(j)),
        }
    }
}
