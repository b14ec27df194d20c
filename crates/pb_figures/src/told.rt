//! What a page tells of the files: the answer, and the amounts by name.
ghost use Rattle.std.specs.Prelude.{◌≡◌, option_copied};
ghost use Rattle.std.specs.Int.{abs_diff};
ghost use Rattle.pb_price.specs.Condition.{finding_in, found, holds};
ghost use Rattle.pb_figures.specs.Amounts.{of, signed};
ghost use Rattle.pb_figures.specs.Told as spec;
ghost use Rattle.pb_figures.specs.Told.{amount_in};

use crate::amounts::{Balance, Style};
use crate::extremes::Extremes;
use crate::figure::Figure;
use crate::refutations::{RefutationFigures, refutation_headline};
use crate::short_groups::{ShortFigures, groups_headline};
use pb_certificate::{Measure, Violation};
use pb_cohesion::{ViolationFindings, ViolationVerdict};
use pb_price::{Comparison, Condition, Finding, Findings, Margins, Mode, ProjectMargins, Verdict};
use pb_words::Headline;

/// What is told: the answer, and what was found.
#[derive(Drop)]
pub struct Told {
    pub style: Style,
    pub mode: Mode,
    /// The line that the program prints, as it is shown.
    pub line: String,
    pub found: CertificateFigures,
}

/// What was found of a certificate, or of the groups of an election without one.
#[derive(Drop)]
pub enum CertificateFigures {
    Prices(PriceFigures),
    Violation(ViolationFigures),
    Refutation(RefutationFigures),
    Groups(ShortFigures),
}

/// What was found of prices.
#[derive(Drop)]
pub struct PriceFigures {
    pub findings: Findings,
    pub margins: Margins,
    pub extremes: Extremes,
}

/// What was found of a violation. Amounts are in millionths of the currency, but figures in grains, which are finer.
#[derive(Drop)]
pub struct ViolationFigures {
    pub verdict: ViolationVerdict,
    pub violation: Violation,
    pub findings: ViolationFindings,
    /// What each project costs, in the order of the election.
    pub costs: Vec<u64>,
    pub limit: u64,
    /// What the funded projects cost together.
    pub funded: u128,
    pub voters: u32,
}

impl Told {
    /// The answer.
    pub fn headline(&self) -> Headline
        ensures { result ≡ spec.headline_of (self.now).mode (self.now).found }
    {
        match &self.found {
            CertificateFigures::Prices(figures) => price_headline(
                figures.findings.verdict(self.mode),
                self.mode,
            ),
            CertificateFigures::Violation(figures) => violation_headline(figures.verdict),
            CertificateFigures::Refutation(figures) => refutation_headline(
                figures.verdict,
                figures.asks_stable(),
            ),
            CertificateFigures::Groups(figures) => groups_headline(figures.verdict()),
        }
    }

    /// How many grains one unit of the currency has.
    pub fn grains_per_unit(&self) -> u64
        ensures { result ≡ spec.grains_per_unit (self.now).found }
    {
        match &self.found {
            CertificateFigures::Prices(figures) => figures.findings.grains_per_unit,
            CertificateFigures::Violation(figures) => figures.grains_per_unit(),
            CertificateFigures::Refutation(_) => RefutationFigures::GRAINS_PER_UNIT,
            CertificateFigures::Groups(figures) => figures.grains_per_unit(),
        }
    }

    /// The amount of a figure, in grains.
    pub fn amount_of(&self, figure: Figure) -> Balance
        ensures { result ≡ spec.amount_of (self.now).found figure }
    {
        match &self.found {
            CertificateFigures::Prices(figures) => figures.amount_of(figure),
            CertificateFigures::Violation(figures) => figures.amount_of(figure),
            CertificateFigures::Refutation(figures) => figures.amount_of(figure),
            CertificateFigures::Groups(figures) => figures.amount_of(figure),
        }
    }
}

/// The answer on prices.
pub fn price_headline(verdict: Verdict, mode: Mode) -> Headline
    ensures { result ≡ spec.price_headline mode.stable verdict }
{
    match verdict {
        Verdict::Supported if mode.stable => Headline::SupportedStable,
        Verdict::Supported => Headline::Supported,
        Verdict::Failed(_) => Headline::NotSupported,
    }
}

/// The answer on a violation.
pub fn violation_headline(verdict: ViolationVerdict) -> Headline
    ensures { result ≡ spec.violation_headline verdict }
{
    match verdict {
        ViolationVerdict::Violation => Headline::Violation,
        ViolationVerdict::Failed(_) => Headline::NoViolation,
    }
}

impl PriceFigures {
    fn amount_of(&self, figure: Figure) -> Balance
        ensures { result ≡ spec.price_amount self.now figure }
    {
        let f = &self.findings;
        match figure {
            Figure::Limit => Balance::of(f.limit),
            Figure::Funded => Balance::of(f.total),
            Figure::Remains => Balance::of(f.limit.abs_diff(f.total)),
            Figure::VoterBudget => Balance::of(f.voter_budget),
            Figure::Budgets => Balance::of(f.budgets),
            Figure::Spent => Balance::of(spent(&self.margins.projects)),
            Figure::Unspent => Balance::of(f.budgets.abs_diff(spent(&self.margins.projects))),
            Figure::Cost(j) => self.cost(j),
            Figure::Paid(j) => self.paid(j),
            Figure::Left(j) => self.left(j),
            Figure::Offer(j) => self.offer(j),
            Figure::PaidOff(j) => self.paid_off(j),
            Figure::LeftOff(j) => self.left_off(j),
            Figure::OfferOff(j) => self.offer_off(j),
            Figure::Bound(condition) => self.bound(condition),
            Figure::Amount(condition) => self.compared(condition),
            Figure::AmountOff(condition) => self.compared_off(condition),
            Figure::Demand | Figure::Share | Figure::ShareOff | Figure::Gets | Figure::Worth =>
                Balance::NOTHING,
            Figure::PaidAtLeast | Figure::PaidAtMost => Balance::NOTHING,
            Figure::Part(_) | Figure::Need(_) | Figure::Most(_) => Balance::NOTHING,
        }
    }

    /// The figures of a project, which is numbered from 1.
    pub fn project(&self, j: u32) -> Option<&ProjectMargins>
        ensures { option_copied result ≡ spec.at (self.now).margins.projects.items j }
    {
        if j == 0 {
            return None;
        }
        self.margins.projects.get(j as usize - 1)
    }

    fn cost(&self, j: u32) -> Balance
        ensures { result ≡ spec.of_project (λ m. of m.cost) self.now j }
    {
        match self.project(j) {
            Some(project) => Balance::of(project.cost),
            None => Balance::NOTHING,
        }
    }

    fn paid(&self, j: u32) -> Balance
        ensures { result ≡ spec.of_project (λ m. of m.paid) self.now j }
    {
        match self.project(j) {
            Some(project) => Balance::of(project.paid),
            None => Balance::NOTHING,
        }
    }

    fn left(&self, j: u32) -> Balance
        ensures { result ≡ spec.of_project (λ m. signed m.left) self.now j }
    {
        match self.project(j) {
            Some(project) => Balance::signed(project.left),
            None => Balance::NOTHING,
        }
    }

    fn offer(&self, j: u32) -> Balance
        ensures { result ≡ spec.of_project (λ m. signed m.offer) self.now j }
    {
        match self.project(j) {
            Some(project) => Balance::signed(project.offer),
            None => Balance::NOTHING,
        }
    }

    fn paid_off(&self, j: u32) -> Balance
        ensures { result ≡ spec.of_project (λ m. of (abs_diff m.paid m.cost)) self.now j }
    {
        match self.project(j) {
            Some(project) => Balance::of(project.paid.abs_diff(project.cost)),
            None => Balance::NOTHING,
        }
    }

    fn left_off(&self, j: u32) -> Balance
        ensures { result ≡ spec.of_project (λ m. of (spec.distance m.left m.cost)) self.now j }
    {
        match self.project(j) {
            Some(project) => Balance::of(distance(project.left, project.cost)),
            None => Balance::NOTHING,
        }
    }

    fn offer_off(&self, j: u32) -> Balance
        ensures { result ≡ spec.of_project (λ m. of (spec.distance m.offer m.cost)) self.now j }
    {
        match self.project(j) {
            Some(project) => Balance::of(distance(project.offer, project.cost)),
            None => Balance::NOTHING,
        }
    }

    /// Whether a condition holds.
    pub fn holds(&self, condition: Condition) -> bool
        ensures { result ≡ holds (found (self.now).findings condition) }
    {
        self.findings.found(condition).holds()
    }

    /// What a condition on voters or on projects comes to.
    pub fn finding(&self, condition: Condition) -> Option<Finding>
        ensures { result ≡ finding_in (found (self.now).findings condition) }
    {
        self.findings.found(condition).finding()
    }

    /// The two sums that a condition compares at the place that its finding shows.
    pub fn shown(&self, condition: Condition) -> Option<Comparison>
        ensures { result ≡ spec.shown self.now condition }
    {
        self.finding(condition)?.shown
    }

    fn bound(&self, condition: Condition) -> Balance
        ensures { result ≡ amount_in (λ s. of s.bound) (spec.shown self.now condition) }
    {
        match self.shown(condition) {
            Some(shown) => Balance::of(shown.bound),
            None => Balance::NOTHING,
        }
    }

    fn compared(&self, condition: Condition) -> Balance
        ensures { result ≡ amount_in (λ s. signed s.amount) (spec.shown self.now condition) }
    {
        match self.shown(condition) {
            Some(shown) => Balance::signed(shown.amount),
            None => Balance::NOTHING,
        }
    }

    fn compared_off(&self, condition: Condition) -> Balance
        ensures { result ≡ amount_in (λ s. of (spec.distance s.amount s.bound)) (spec.shown self.now condition) }
    {
        match self.shown(condition) {
            Some(shown) => Balance::of(distance(shown.amount, shown.bound)),
            None => Balance::NOTHING,
        }
    }
}

// What is paid for all projects together.
fn spent(projects: &[ProjectMargins]) -> u128
    ensures { result ≡ spec.spent projects.now }
{
    let mut spent: u128 = 0;
    for project in projects {
        spent = spent.saturating_add(project.paid);
    }
    spent
}

// How far an amount is from a bound.
fn distance(amount: i128, bound: u128) -> u128
    ensures { result ≡ spec.distance amount bound }
{
    if amount < 0 {
        bound.saturating_add(amount.unsigned_abs())
    } else {
        bound.abs_diff(amount.unsigned_abs())
    }
}

impl ViolationFigures {
    fn amount_of(&self, figure: Figure) -> Balance
        ensures { result ≡ spec.violation_amount self.now figure }
    {
        match figure {
            Figure::Limit => self.in_grains(u128::from(self.limit)),
            Figure::Funded => self.in_grains(self.funded),
            Figure::Remains => self.in_grains(u128::from(self.limit).abs_diff(self.funded)),
            Figure::Cost(j) => self.cost(j),
            Figure::Demand => self.in_grains(self.findings.cost),
            Figure::Share => Balance::of(self.share()),
            Figure::ShareOff => Balance::of(
                self.grains_of(self.findings.cost).abs_diff(self.share()),
            ),
            Figure::Gets => self.worth(self.findings.gets),
            Figure::Worth => self.worth(self.findings.demanded),
            _ => Balance::NOTHING,
        }
    }

    // How many grains one unit of the currency has: a millionth has one for each voter, so that the share of a group has
    // a whole number of them.
    fn grains_per_unit(&self) -> u64
        ensures { result ≡ spec.grains_of_violation self.now }
    {
        1_000_000 * u64::from(self.voters.max(1))
    }

    // Millionths in grains.
    fn grains_of(&self, millionths: u128) -> u128
        ensures { result ≡ spec.grains_of self.now millionths }
    {
        millionths.saturating_mul(u128::from(self.voters.max(1)))
    }

    fn in_grains(&self, millionths: u128) -> Balance
        ensures { result ≡ of (spec.grains_of self.now millionths) }
    {
        Balance::of(self.grains_of(millionths))
    }

    fn cost(&self, j: u32) -> Balance
        ensures { result ≡ amount_in (λ cost. of (spec.grains_of self.now cost)) (spec.at (self.now).costs.items j) }
    {
        if j == 0 {
            return Balance::NOTHING;
        }
        match self.costs.get(j as usize - 1) {
            Some(cost) => self.in_grains(u128::from(*cost)),
            None => Balance::NOTHING,
        }
    }

    // What projects are worth, where that is an amount.
    fn worth(&self, projects: u128) -> Balance
        ensures { result ≡ spec.worth self.now projects }
    {
        match self.violation.satisfaction() {
            Measure::ByCost => self.in_grains(projects),
            Measure::ByCount => Balance::NOTHING,
        }
    }

    /// Whether the group's share of the limit covers what it demands.
    pub fn is_large_enough(&self) -> bool {
        self.findings.cost.saturating_mul(u128::from(self.voters)) <= self.share()
    }

    // The group's share of the limit, in grains.
    fn share(&self) -> u128
        ensures { result ≡ spec.share self.now }
    {
        u128::from(self.limit) * u128::from(self.findings.members)
    }
}
