//! The verdict on a price system: whether it supports an outcome, and by what margins. The conditions are after Peters,
//! Pierczyński and Skowron (2021), and S5 after Peters, Pierczyński, Shah and Skowron (2021), each in this project's
//! form for projects with costs.
#![tactic(auto)]

mod at_hand;
mod checking;
mod condition;
mod explaining;
mod figures;
pub mod laws;
mod nearest;
mod noting;
mod on_groups;
mod open_tally;
mod tally;
mod tallying;
mod telling;

pub use checking::{check, check_rows};
pub use condition::{Condition, Found};
pub use explaining::findings_of;
pub use figures::{findings_and_margins_of, margins_of};
pub use nearest::{NearestGroup, nearest_to};
pub use pb_cohesion::Mode;

/// Whether a price system supports an outcome.
#[derive(Clone, Copy, Debug, PartialEq, Eq)]
pub enum Verdict {
    /// All conditions of the mode hold.
    Supported,
    /// A condition is false.
    Failed(Failure),
}

/// The first condition that is false, with its first culprit: the lowest voter, and then the lowest project. Voters and
/// projects are numbered from 1.
#[derive(Clone, Copy, Debug, PartialEq, Eq)]
pub enum Failure {
    /// The funded projects cost more than the limit.
    Feasible,
    /// This unfunded project could be added within the limit.
    Exhaustive(u32),
    /// The voter budgets of all voters together are at most the limit.
    Cover,
    /// This voter pays for this project, and does not approve it.
    C1(u32, u32),
    /// This voter pays more than the voter budget.
    C2(u32),
    /// The payments for this funded project are not exactly its cost.
    C3(u32),
    /// There are payments for this unfunded project.
    C4(u32),
    /// The supporters of this unfunded project have together more left than it costs.
    C5(u32),
    /// The supporters of this unfunded project can offer together more than it costs, each either what it has left or
    /// its largest payment.
    S5(u32),
}

/// What a yes to prices says of every group of voters who all approve an unfunded project, by the voter budgets of all
/// voters together.
#[derive(Clone, Copy, Debug, PartialEq, Eq)]
pub enum OnGroups {
    /// The budgets are more than the limit, or they are the limit and the condition Exhaustive was asked for. Then the
    /// share of such a group in the limit is less than what that project costs and what was funded for the group together.
    Strict,
    /// The budgets are the limit, and Exhaustive was not asked for. Then its share is no more than that.
    Weak,
    /// The budgets are less than the limit. Then nothing is said of shares.
    Little,
}

/// What a pass over a certificate answers.
#[derive(Clone, Copy, Debug, PartialEq, Eq)]
pub struct Checked {
    /// The verdict on the prices that the certificate states.
    pub verdict: Verdict,
    /// The steps that it took: one for each payment row taken, each entry of a ballot looked at, each voter closed, and
    /// each project looked at in a pass over the projects.
    pub steps: u64,
}

/// The figures of each project by a price certificate. A grain is 1/(10^6 D) of the currency, where D is the
/// denominator of the certificate.
#[derive(Debug, Drop)]
pub struct Margins {
    /// How many grains one unit of the currency has: 10^6 D, from 10^6 to 10^15.
    pub grains_per_unit: u64,
    /// The figures of the projects, in the order of the election.
    pub projects: Vec<ProjectMargins>,
}

/// The figures of a project, with all amounts in grains. How far the cost is from what is paid is the margin of C3 at a
/// funded project, and from what is left or can be offered that of C5 or S5 at an unfunded one.
#[derive(Clone, Copy, Debug, PartialEq, Eq)]
pub struct ProjectMargins {
    /// Whether it is funded.
    pub funded: bool,
    /// How many voters approve it, at most 1,000,000.
    pub supporters: u32,
    /// What it costs, at most 10^27.
    pub cost: u128,
    /// What all voters pay for it together, at most 10^33.
    pub paid: u128,
    /// What its supporters have left together, from -10^34 to 10^33: negative where they pay more than their budgets.
    pub left: i128,
    /// What its supporters can offer together in the stable form, each the larger of its largest payment and what it
    /// has left. From 0 to 10^33.
    pub offer: i128,
}

/// What each condition on a price system comes to by a price certificate, also those behind the first that is false.
/// Amounts are in grains: a grain is 1/(10^6 D) of the currency, where D is the denominator of the certificate.
#[derive(Clone, Copy, Debug, PartialEq, Eq)]
pub struct Findings {
    /// How many grains one unit of the currency has: 10^6 D, from 10^6 to 10^15.
    pub grains_per_unit: u64,
    /// What the funded projects cost together, at most 10^32. Feasible holds where this is at most the limit.
    pub total: u128,
    /// The budget limit, at most 10^27.
    pub limit: u128,
    /// The budget of each voter, at most 10^27.
    pub voter_budget: u128,
    /// The voter budgets of all voters together, at most 10^33. Cover holds where this is more than the limit.
    pub budgets: u128,
    /// Exhaustive: the cost of an unfunded project, and what remains of the limit, which is to be less.
    pub exhaustive: Finding,
    /// C1: the payments for projects that their voters do not approve.
    pub c1: PaymentFinding,
    /// C2: the voter budget, and what a voter spends, which is to be no more.
    pub c2: Finding,
    /// C3: the cost of a funded project, and what is paid for it, which is to be the same.
    pub c3: Finding,
    /// C4: for an unfunded project 0, and what is paid for it, which is to be the same.
    pub c4: Finding,
    /// C5: the cost of an unfunded project, and what its supporters have left together, which is to be no more.
    pub c5: Finding,
    /// S5: the cost of an unfunded project, and what its supporters can offer together, which is to be no more.
    pub s5: Finding,
}

/// Where C1 is false.
#[derive(Clone, Copy, Debug, PartialEq, Eq)]
pub struct PaymentFinding {
    /// The first culprit: the lowest voter that pays for a project that it does not approve, and the lowest such
    /// project. `None` where C1 holds.
    pub first: Option<(u32, u32)>,
    /// How many such payments there are, and 0 where C1 holds.
    pub count: u64,
}

/// Where another condition is false, and the sums that it compares at one place: at a voter for C2, and at a project
/// for the others.
#[derive(Clone, Copy, Debug, PartialEq, Eq)]
pub struct Finding {
    /// The first culprit: the lowest number of a place at which the condition is false. `None` where it holds.
    pub first: Option<u32>,
    /// How many culprits there are, and 0 where the condition holds.
    pub count: u32,
    /// The sums at the first culprit. Where there is none, they are those at the place where the amount comes closest
    /// to the bound, the lowest of several: at a voter for C2, and at an unfunded project for the others. `None` where
    /// there is no such place, and where C3 or C4 holds.
    pub shown: Option<Comparison>,
}

/// The two sums that a condition compares at one place.
#[derive(Clone, Copy, Debug, PartialEq, Eq)]
pub struct Comparison {
    /// The voter at C2, and the project at the others. They are numbered from 1.
    pub at: u32,
    /// The voter budget at C2, 0 at C4, and what the project costs at the others. At most 10^27.
    pub bound: u128,
    /// What is compared with that, from -10^34 to 10^33: what is spent, remains, is paid, is left or is offered.
    pub amount: i128,
}
