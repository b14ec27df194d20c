//! What a page tells of a refutation.
ghost use Rattle.std.specs.Prelude.{◌≡◌};
ghost use Rattle.pb_figures.specs.Amounts.{of};
ghost use Rattle.pb_figures.specs.Told as spec;
ghost use Rattle.pb_figures.specs.Told.{amount_in};

use crate::amounts::Balance;
use crate::figure::Figure;
use pb_certificate::Refutation;
use pb_cohesion::{RefutationFindings, RefutationVerdict};
use pb_words::Headline;

/// What was found of a refutation. Amounts are in millionths of the currency, and so are the figures.
#[derive(Drop)]
pub struct RefutationFigures {
    pub verdict: RefutationVerdict,
    pub refutation: Refutation,
    pub findings: RefutationFindings,
    /// What each project costs, in the order of the election.
    pub costs: Vec<u64>,
    pub limit: u64,
    /// What the funded projects cost together.
    pub funded: u128,
}

/// The answer on a refutation, by whether stable prices were asked about.
pub fn refutation_headline(verdict: RefutationVerdict, stable: bool) -> Headline
    ensures { result ≡ spec.refutation_headline stable verdict }
{
    match verdict {
        RefutationVerdict::Unpriceable => Headline::Unpriceable,
        RefutationVerdict::UnpriceableUnderCover => Headline::UnpriceableUnderCover,
        RefutationVerdict::UnpriceableStable => Headline::UnpriceableStable,
        RefutationVerdict::UnpriceableStableUnderCover => Headline::UnpriceableStableUnderCover,
        RefutationVerdict::Failed(_) if stable => Headline::NotRefutedStable,
        RefutationVerdict::Failed(_) => Headline::NotRefuted,
    }
}

impl RefutationFigures {
    /// How many grains one unit of the currency has: a grain is a millionth.
    pub(crate) const GRAINS_PER_UNIT: u64 = 1_000_000;

    /// The amount of a figure, in grains.
    pub(crate) fn amount_of(&self, figure: Figure) -> Balance
        ensures { result ≡ spec.refutation_amount self.now figure }
    {
        match figure {
            Figure::Limit => Balance::of(u128::from(self.limit)),
            Figure::Funded => Balance::of(self.funded),
            Figure::Remains => Balance::of(u128::from(self.limit).abs_diff(self.funded)),
            Figure::Cost(j) => self.cost(j),
            Figure::PaidAtLeast => Balance::of(self.findings.at_least),
            Figure::PaidAtMost => Balance::of(self.findings.at_most),
            _ => Balance::NOTHING,
        }
    }

    /// Whether stable prices were asked about.
    pub fn asks_stable(&self) -> bool
        ensures { result ≡ spec.asks_stable self.now }
    {
        self.findings.counted_stable.is_some()
    }

    /// Whether what is told is of stable prices alone. These were asked about, and the weights don't refute all prices.
    pub fn tells_of_stable(&self) -> bool
        ensures { result ≡ spec.tells_of_stable self.now }
    {
        match self.verdict {
            RefutationVerdict::Unpriceable | RefutationVerdict::UnpriceableUnderCover => false,
            RefutationVerdict::UnpriceableStable
            | RefutationVerdict::UnpriceableStableUnderCover
            | RefutationVerdict::Failed(_) => self.asks_stable(),
        }
    }

    /// How often the weights count the budgets of all voters, at most, for the prices that are told of.
    pub fn counted(&self) -> u128
        ensures { result ≡ spec.counted self.now }
    {
        match self.findings.counted_stable {
            Some(counted) if self.tells_of_stable() => counted,
            _ => self.findings.counted,
        }
    }

    /// Whether U2 holds, for those prices.
    pub fn budgets_suffice(&self) -> bool
        ensures { result ≡ spec.budgets_suffice self.now }
    {
        self.counted() <= self.findings.taken
    }

    fn cost(&self, j: u32) -> Balance
        ensures { result ≡ amount_in of (spec.at (self.now).costs.items j) }
    {
        if j == 0 {
            return Balance::NOTHING;
        }
        match self.costs.get(j as usize - 1) {
            Some(cost) => Balance::of(u128::from(*cost)),
            None => Balance::NOTHING,
        }
    }
}
