//! What a page tells of groups that fall short.
ghost use Rattle.std.specs.Prelude.{◌≡◌, ◌*◌, ◌^◌, max, option_copied};
ghost use Rattle.pb_figures.specs.Amounts.{of};
ghost use Rattle.pb_figures.specs.Told as spec;
ghost use Rattle.pb_figures.specs.Told.{amount_in, at, grains_among};

use crate::amounts::Balance;
use crate::figure::Figure;
use pb_certificate::Measure;
use pb_cohesion::{GroupFigures, GroupsVerdict, first_short};
use pb_words::Headline;

/// What was found of groups that fall short. Amounts are in millionths of the currency, but figures in grains, of which a
/// millionth has one for each voter.
#[derive(Drop)]
pub struct ShortFigures {
    pub measure: Measure,
    /// The group that is shown for each unfunded project that has a supporter, in the order of the election.
    pub groups: Vec<GroupFigures>,
    /// Of these the one that the answer tells of: the first that falls short, or else the closest.
    pub shown: Option<GroupFigures>,
    /// What each project costs, in the order of the election.
    pub costs: Vec<u64>,
    pub limit: u64,
    /// What the funded projects cost together.
    pub funded: u128,
    pub voters: u32,
}

/// The answer on groups that fall short.
pub fn groups_headline(verdict: GroupsVerdict) -> Headline
    ensures { result ≡ spec.groups_headline verdict }
{
    match verdict {
        GroupsVerdict::Satisfied => Headline::NoGroupFallsShort,
        GroupsVerdict::Failed { .. } => Headline::GroupFallsShort,
    }
}

impl ShortFigures {
    /// Whether no group falls short, or else the first project for which one does.
    pub fn verdict(&self) -> GroupsVerdict
        ensures { result ≡ spec.verdict_on_groups self.now }
    {
        GroupsVerdict::by(first_short(&self.groups))
    }

    /// The group in a row, which is numbered from 1.
    pub fn group(&self, k: u32) -> Option<&GroupFigures>
        ensures { option_copied result ≡ at (self.now).groups.items k }
    {
        if k == 0 {
            return None;
        }
        self.groups.get(k as usize - 1)
    }

    /// The amount of a figure, in grains.
    pub(crate) fn amount_of(&self, figure: Figure) -> Balance
        ensures { result ≡ spec.groups_amount self.now figure }
    {
        match figure {
            Figure::Limit => self.in_grains(u128::from(self.limit)),
            Figure::Funded => self.in_grains(self.funded),
            Figure::Remains => self.in_grains(u128::from(self.limit).abs_diff(self.funded)),
            Figure::Cost(j) => self.cost(j),
            Figure::Part(k) => self.part(k),
            Figure::Need(k) => self.need(k),
            Figure::Most(k) => self.most(k),
            _ => Balance::NOTHING,
        }
    }

    /// How many grains one unit of the currency has: a millionth has one for each voter, so that the part of a group is a
    /// whole number of them.
    pub(crate) fn grains_per_unit(&self) -> u64
        ensures { result ≡ 10 ^ 6 * max (self.now).voters 1 }
    {
        1_000_000 * u64::from(self.voters.max(1))
    }

    // Millionths in grains.
    fn in_grains(&self, millionths: u128) -> Balance
        ensures { result ≡ of (grains_among (self.now).voters millionths) }
    {
        Balance::of(millionths.saturating_mul(u128::from(self.voters.max(1))))
    }

    fn cost(&self, j: u32) -> Balance
        ensures { result ≡ amount_in (λ cost. of (grains_among (self.now).voters cost)) (at (self.now).costs.items j) }
    {
        if j == 0 {
            return Balance::NOTHING;
        }
        match self.costs.get(j as usize - 1) {
            Some(cost) => self.in_grains(u128::from(*cost)),
            None => Balance::NOTHING,
        }
    }

    fn part(&self, k: u32) -> Balance
        ensures { result ≡ amount_in (λ x. of (spec.part self.now x)) (at (self.now).groups.items k) }
    {
        match self.group(k) {
            Some(group) => self.part_of(*group),
            None => Balance::NOTHING,
        }
    }

    // The part of the limit that falls to a group.
    fn part_of(&self, group: GroupFigures) -> Balance
        ensures { result ≡ of (spec.part self.now group) }
    {
        Balance::of(u128::from(self.limit) * u128::from(group.voters))
    }

    fn need(&self, k: u32) -> Balance
        ensures { result ≡ amount_in (λ x. of (grains_among (self.now).voters x.need)) (at (self.now).groups.items k) }
    {
        match self.group(k) {
            Some(group) => self.in_grains(group.need),
            None => Balance::NOTHING,
        }
    }

    // What a member got, where that is an amount.
    fn most(&self, k: u32) -> Balance
        ensures { result ≡ amount_in (λ x. spec.most self.now x) (at (self.now).groups.items k) }
    {
        match self.group(k) {
            Some(group) if self.measure == Measure::ByCost => self.in_grains(group.most),
            _ => Balance::NOTHING,
        }
    }
}
