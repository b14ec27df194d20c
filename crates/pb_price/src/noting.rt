//! What is kept of a condition while its voters or projects are looked at one by one.

ghost use Rattle.std.specs.Prelude.{◌≡◌, ◌≤◌, IfSome};
ghost use Rattle.pb_election.specs.Instance.{most_voters};
ghost use Rattle.pb_price.specs.Findings.{excess};
ghost use Rattle.pb_price.specs.Inside.Noted.{is_closer, noted};
ghost use Rattle.pb_price.specs.Inside.Looked.{IsSmallComparison};

use crate::tally::first_where;
use crate::{Comparison, Finding};

/// What is known before the first is looked at.
pub(crate) const NOTHING_FOUND: Finding = Finding {
    first: None,
    count: 0,
    shown: None,
};

impl Finding {
    /// Looks at one more place, behind those before: whether the condition is false there, and what it compares.
    pub(crate) fn note(&mut self, fails: bool, here: Comparison)
        requires few { (self.old).count ≤ most_voters }
        requires here { IsSmallComparison here }
        requires shown { IfSome (self.old).shown (λ m. IsSmallComparison m) }
        ensures { self.new ≡ noted fails here self.old }
    {
        if self.first.is_none() && (fails || here.is_closer(self.shown)) {
            self.shown = Some(here);
        }
        self.first = first_where(self.first, fails, here.at);
        if fails {
            self.count += 1;
        }
    }
}

impl Comparison {
    // Whether the amount comes closer to its bound than the one that is known, if there is one.
    fn is_closer(&self, known: Option<Comparison>) -> bool
        requires here { IsSmallComparison self.now }
        requires known { IfSome known (λ m. IsSmallComparison m) }
        ensures { result ≡ is_closer self.now known }
    {
        match known {
            None => true,
            Some(known) => known.excess() < self.excess(),
        }
    }

    // By how much the amount is above the bound, which is negative where it is below.
    fn excess(&self) -> i128
        requires { IsSmallComparison self.now }
        ensures { result ≡ excess self.now }
    {
        self.amount - self.bound as i128
    }
}
