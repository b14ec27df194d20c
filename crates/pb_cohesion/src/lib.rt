//! Groups of voters: satisfactions, violations of extended justified representation (EJR) after Peters, Pierczyński and
//! Skowron (2021), groups that fall short (EJR+) after Brill and Peters (2023), and laws on groups.
#![tactic(auto)]

mod explaining;
mod failed;
mod funded;
pub mod laws;
mod refutations;
mod satisfactions;
mod short;
mod violations;
mod worths;

pub use explaining::violation_findings;
pub use failed::FailedAt;
pub use funded::cost_of_funded;
pub use refutations::{check_refutation, refutation_findings};
pub use satisfactions::{Cost, Count, Satisfaction};
pub use short::{check_groups, first_short, group_figures, members_up_to, shown_of};
pub use violations::check_violation;

/// What is asked of a price system.
#[derive(Clone, Copy, Debug, PartialEq, Eq)]
pub struct Mode {
    /// Whether the stable form is asked for in place of the plain one: S5 in place of C5.
    pub stable: bool,
    /// Whether no unfunded project may be affordable within the limit.
    pub exhaustive: bool,
    /// Whether the voter budgets of all voters together have to be more than the limit.
    pub cover: bool,
}

impl Mode {
    /// The plain form, with Exhaustive and without Cover.
    pub const PLAIN: Mode = Mode {
        stable: false,
        exhaustive: true,
        cover: false,
    };

    /// The stable form, with Exhaustive and without Cover.
    pub const STABLE: Mode = Mode {
        stable: true,
        ..Mode::PLAIN
    };
}

/// Whether a violation certificate proves a violation.
#[derive(Clone, Copy, Debug, PartialEq, Eq)]
pub enum ViolationVerdict {
    /// The group deserves what it demands, and each member gets less.
    Violation,
    /// A test fails.
    Failed(ViolationFailure),
}

/// The first test that a violation certificate fails. Voters and projects are numbered from 1.
#[derive(Clone, Copy, Debug, PartialEq, Eq)]
pub enum ViolationFailure {
    /// The group is empty.
    V1,
    /// A member does not approve a demanded project: the lowest such voter, and its lowest such project.
    V2(u32, u32),
    /// The group is too small: its share of the limit is less than the demanded projects cost.
    V3,
    /// The funded projects that a member approves are worth at least as much as the demanded ones: the lowest such
    /// voter.
    V4(u32),
}

/// What each test of a violation certificate comes to, also of those behind the first that fails. What projects are
/// worth is counted by the measure that was asked for, as 1 each, as what they cost in millionths of the currency, or
/// otherwise.
#[derive(Clone, Copy, Debug, PartialEq, Eq)]
pub struct ViolationFindings {
    /// How many voters the group has, at most 1,000,000. V1 holds where this is not 0.
    pub members: u32,
    /// What the demanded projects cost together, in millionths of the currency, at most 2 * 10^22. V3 holds where this
    /// times the number of all voters is at most the limit times the members.
    pub cost: u128,
    /// V2: the demanded projects that members do not approve.
    pub unapproved: MissingApprovals,
    /// What the demanded projects are worth together, at most 2 * 10^22.
    pub demanded: u128,
    /// V4: the members that get at least so much.
    pub satisfied: SatisfiedMembers,
    /// What the first such member gets: what the funded projects that it approves are worth together, at most 2 *
    /// 10^22. Where there is none, the most that a member gets, and 0 where the group is empty.
    pub gets: u128,
}

/// Where V2 fails.
#[derive(Clone, Copy, Debug, PartialEq, Eq)]
pub struct MissingApprovals {
    /// The lowest member that does not approve a demanded project, and its lowest such project. `None` where V2 holds.
    /// Voters and projects are numbered from 1.
    pub first: Option<(u32, u32)>,
    /// How many such pairs of a member and a project there are, at most 2 * 10^10, and 0 where V2 holds.
    pub count: u64,
}

/// Where V4 fails.
#[derive(Clone, Copy, Debug, PartialEq, Eq)]
pub struct SatisfiedMembers {
    /// The lowest member that gets at least what is demanded. `None` where V4 holds. Voters are numbered from 1.
    pub first: Option<u32>,
    /// How many such members there are, at most 1,000,000, and 0 where V4 holds.
    pub count: u32,
}

/// What a refutation proves.
#[derive(Clone, Copy, Debug, PartialEq, Eq)]
pub enum RefutationVerdict {
    /// No prices whatever support the outcome.
    Unpriceable,
    /// No prices support the outcome whose budgets together are more than the limit.
    UnpriceableUnderCover,
    /// No stable prices support the outcome. Others may.
    UnpriceableStable,
    /// No stable prices support the outcome whose budgets together are more than the limit. Others may.
    UnpriceableStableUnderCover,
    /// A test fails. Other prices, or other weights, may do all the same.
    Failed(RefutationFailure),
}

/// The first test that a refutation fails. Projects are numbered from 1.
#[derive(Clone, Copy, Debug, PartialEq, Eq)]
pub enum RefutationFailure {
    /// A row for funded projects names an unfunded one, or the other way round: the lowest such project.
    U1(u32),
    /// The weights count the budgets more often than they take them.
    U2,
    /// What the weights add up to is not false.
    U3,
}

/// What each test of a refutation comes to, also of those behind the first that fails. Weights are whole numbers up to
/// 10^12, and costs are in millionths of the currency.
#[derive(Clone, Copy, Debug, PartialEq, Eq)]
pub struct RefutationFindings {
    /// U1: the projects whose row is not one for projects that are funded so.
    pub misplaced: MisplacedRows,
    /// The weight of Cover, at most 10^12.
    pub cover: u64,
    /// U2: how often the weights count the budgets of all voters, at most, below 10^23. U2 holds where this is at most
    /// `taken`.
    pub counted: u128,
    /// U2 for stable prices, where these are asked about: the same for those, at most `counted`. It holds for them where
    /// this is at most `taken`.
    pub counted_stable: Option<u128>,
    /// How often the weights take the budgets of all voters, below 10^23.
    pub taken: u128,
    /// U3: what is paid at least for funded projects, each cost times its weight, and the limit times the weight of
    /// Cover, in millionths of the currency, below 4 * 10^34. U3 holds where this is more than `at_most`, and where it
    /// is as much and Cover has a weight.
    pub at_least: u128,
    /// What is paid at most for funded projects and left at most for unfunded ones, each cost times its weight, in
    /// millionths of the currency, below 4 * 10^34.
    pub at_most: u128,
}

/// Where U1 fails.
#[derive(Clone, Copy, Debug, PartialEq, Eq)]
pub struct MisplacedRows {
    /// The lowest unfunded project with a row for funded ones, or funded project with a row for unfunded ones. `None`
    /// where U1 holds. Projects are numbered from 1.
    pub first: Option<u32>,
    /// How many such projects there are, at most 20,000, and 0 where U1 holds.
    pub count: u32,
}

/// Whether a group of voters falls short. Projects are numbered from 1.
#[derive(Clone, Copy, Debug, PartialEq, Eq)]
pub enum GroupsVerdict {
    /// No group falls short for any project.
    Satisfied,
    /// Groups fall short.
    Failed {
        /// The lowest project for which one does.
        project: u32,
        /// How many voters the largest such group has.
        voters: u32,
    },
}

/// The group that is shown for a project: the largest one that falls short for it, or where none does, the closest, which
/// is the one whose share of the limit covers most of what it has to come to. It is all supporters of the project that
/// got at most so much, by the measure that was asked for: as the number of the funded projects that a voter approves,
/// or as what these cost, in millionths of the currency.
#[derive(Clone, Copy, Debug, PartialEq, Eq)]
pub struct GroupFigures {
    /// The project, numbered from 1.
    pub project: u32,
    /// How many voters approve it, at most 1,000,000.
    pub supporters: u32,
    /// How many voters the group has.
    pub voters: u32,
    /// The most that a member got, at most 2 * 10^22.
    pub most: u128,
    /// What the group's share of the limit has to come to, in millionths of the currency, below 3 * 10^22. The group
    /// falls short where this times the number of all voters is at most the limit times the voters of the group.
    pub need: u128,
    /// Whether it falls short.
    pub falls_short: bool,
}
