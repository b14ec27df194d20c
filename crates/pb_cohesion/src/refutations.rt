//! Whether the weights of a refutation refute all prices for an outcome.

ghost use Rattle.std.specs.Prelude.{◌≡◌, ◌<◌, ◌↔◌, ◌⊎◌, if◌then◌else◌, nat_lt, true, Bool, List};
ghost use Rattle.pb_election.specs.Instance.{Instance};
ghost use Rattle.pb_election.specs.Outcome.{OutcomeFits};
ghost use Rattle.pb_certificate.specs.Refutations.{Weights, WeightsFit};
ghost use Rattle.pb_cohesion.specs.FirstU.{FirstStableU, FirstU, SaysUnpriceable, SaysUnpriceableStable, costs_agree, proved, refutation_verdict};
ghost use Rattle.pb_cohesion.specs.RefutationFindings as found;
ghost use Rattle.pb_cohesion.specs.Refutations.{NoPricesSupport, NoPricesWithCoverSupport, NoStablePricesSupport, NoStablePricesWithCoverSupport, Refutes, RefutesAsked, RefutesStable};

use crate::{RefutationFailure, RefutationFindings, RefutationVerdict};
use pb_certificate::Refutation;
use pb_election::{Election, Outcome};

mod budgets;
mod costs;
mod findings;
mod stable_budgets;

pub use findings::refutation_findings;

/// Whether the weights of a certificate refute all prices for the outcome, or else, where `stable` is asked for, all
/// stable prices, or else the first test that fails: of those for stable prices, where these are asked about. The
/// outcome and the certificate are to fit the election. Takes no memory.
pub fn check_refutation(
    election: &Election,
    outcome: &Outcome,
    refutation: &Refutation,
    stable: bool,
) -> RefutationVerdict
    requires outcome { OutcomeFits outcome.now election.now }
    requires refutation { WeightsFit refutation.now election.now }
    ensures verdict { result ≡ refutation_verdict stable election.now (outcome.now).marks refutation.now }
    ensures refuted { SaysUnpriceable result ↔ Refutes election.now (outcome.now).marks refutation.now }
    // It says one of these exactly where the weights refute what is asked about.
    ensures asked { (SaysUnpriceable result ⊎ SaysUnpriceableStable result) ↔ RefutesAsked stable election.now (outcome.now).marks refutation.now }
    // Of stable prices alone it speaks where these are asked about, and the weights refute those and not all prices.
    ensures refuted_stable { SaysUnpriceableStable result ↔ ((stable ≡ true) × RefutesStable election.now (outcome.now).marks refutation.now × (Refutes election.now (outcome.now).marks refutation.now → ⊥)) }
    // Whether it speaks of prices under Cover alone goes by the weight of Cover.
    ensures all { (result ≡ RefutationVerdict.Unpriceable) ⊎ (result ≡ RefutationVerdict.UnpriceableStable) → (refutation.now).cover ≡ 0 }
    ensures covered { (result ≡ RefutationVerdict.UnpriceableUnderCover) ⊎ (result ≡ RefutationVerdict.UnpriceableStableUnderCover) → 0 < (refutation.now).cover }
    // What it says is so of all prices.
    ensures unpriceable { (result ≡ RefutationVerdict.Unpriceable → NoPricesSupport election.now (outcome.now).marks) × (result ≡ RefutationVerdict.UnpriceableUnderCover → NoPricesWithCoverSupport election.now (outcome.now).marks) }
    // Or of all stable prices.
    ensures unpriceable_stable { (result ≡ RefutationVerdict.UnpriceableStable → NoStablePricesSupport election.now (outcome.now).marks) × (result ≡ RefutationVerdict.UnpriceableStableUnderCover → NoStablePricesWithCoverSupport election.now (outcome.now).marks) }
{
    refutation_findings(election, outcome, refutation, stable).verdict()
}

impl RefutationFindings {
    /// The verdict that the findings tell: where each test holds by them, that no prices support the outcome, or no
    /// stable prices, or none under Cover where that has a weight, or else the first test that fails, with its first
    /// culprit.
    pub fn verdict(&self) -> RefutationVerdict
        ensures { (stable : Bool) (e : Instance) (w : List Bool) (r : Weights) → self.now ≡ found.refutation_findings stable e w r → result ≡ refutation_verdict stable e w r }
    {
        match self.first_failure() {
            Some(failure) => RefutationVerdict::Failed(failure),
            None => self.proved(),
        }
    }

    // What is proved where no test fails: of stable prices alone, where the budgets are counted too often for all.
    fn proved(&self) -> RefutationVerdict
        ensures { result ≡ proved (nat_lt (self.now).taken (self.now).counted) (self.now).cover }
    {
        match (self.taken < self.counted, self.cover == 0) {
            (false, true) => RefutationVerdict::Unpriceable,
            (false, false) => RefutationVerdict::UnpriceableUnderCover,
            (true, true) => RefutationVerdict::UnpriceableStable,
            (true, false) => RefutationVerdict::UnpriceableStableUnderCover,
        }
    }

    // The first test that fails, of those for stable prices where these are asked about.
    fn first_failure(&self) -> Option<RefutationFailure>
        ensures { (stable : Bool) (e : Instance) (w : List Bool) (r : Weights) → self.now ≡ found.refutation_findings stable e w r → result ≡ (if stable then FirstStableU e w r else FirstU e w r) }
    {
        if let Some(j) = self.misplaced.first {
            return Some(RefutationFailure::U1(j));
        }
        if self.taken < self.counted_stable.unwrap_or(self.counted) {
            return Some(RefutationFailure::U2);
        }
        if self.costs_agree() {
            return Some(RefutationFailure::U3);
        }
        None
    }

    // Whether the costs don't contradict each other.
    fn costs_agree(&self) -> bool
        ensures { result ≡ costs_agree (self.now).at_most (self.now).at_least (self.now).cover }
    {
        self.at_least < self.at_most || self.at_least == self.at_most && self.cover == 0
    }
}
