//! The conditions on prices one by one: their names, which of them are asked for, and what each comes to.

ghost use Rattle.std.specs.Prelude.{◌≡◌};
ghost use Rattle.pb_price.specs.Condition as spec;

use crate::{Failure, Finding, Findings, Mode, PaymentFinding};

/// A condition on prices. They are in the order in which they are told, and the first that fails is looked for.
#[derive(Clone, Copy, Debug, PartialEq, Eq)]
pub enum Condition {
    /// The funded projects cost no more than the limit.
    Feasible,
    /// No unfunded project could be added within the limit.
    Exhaustive,
    /// The voter budgets of all voters together are more than the limit.
    Cover,
    /// Nobody pays for a project that it does not approve.
    C1,
    /// Nobody pays more than the voter budget.
    C2,
    /// The payments for each funded project are exactly its cost.
    C3,
    /// Nothing is paid for an unfunded project.
    C4,
    /// The supporters of an unfunded project have together no more left than it costs.
    C5,
    /// The supporters of an unfunded project can offer together no more than it costs.
    S5,
}

/// What a condition comes to.
#[derive(Clone, Copy, Debug, PartialEq, Eq)]
pub enum Found {
    /// Whether it holds, and the two totals that Feasible and Cover compare: an amount, and the limit.
    Totals(bool, u128, u128),
    /// C1 is on payments.
    Payments(PaymentFinding),
    /// C2 is on voters.
    Voters(Finding),
    /// The others are on projects.
    Projects(Finding),
}

impl Condition {
    /// All conditions, in their order.
    pub fn all() -> &'static [Condition]
        ensures { result.now ≡ spec.all_conditions }
    {
        &[
            Condition::Feasible,
            Condition::Exhaustive,
            Condition::Cover,
            Condition::C1,
            Condition::C2,
            Condition::C3,
            Condition::C4,
            Condition::C5,
            Condition::S5,
        ]
    }

    /// Its name, as `Feasible` or `C3`.
    pub fn name(self) -> &'static str
        ensures { result.now ≡ spec.name self }
    {
        match self {
            Condition::Feasible => "Feasible",
            Condition::Exhaustive => "Exhaustive",
            Condition::Cover => "Cover",
            Condition::C1 => "C1",
            Condition::C2 => "C2",
            Condition::C3 => "C3",
            Condition::C4 => "C4",
            Condition::C5 => "C5",
            Condition::S5 => "S5",
        }
    }

    /// Whether a mode asks for it.
    pub fn is_asked(self, mode: Mode) -> bool
        ensures { result ≡ spec.is_asked mode self }
    {
        match self {
            Condition::Exhaustive => mode.exhaustive,
            Condition::Cover => mode.cover,
            Condition::C5 => !mode.stable,
            Condition::S5 => mode.stable,
            _ => true,
        }
    }
}

impl Findings {
    /// What a condition comes to.
    pub fn found(&self, condition: Condition) -> Found
        ensures { result ≡ spec.found self.now condition }
    {
        match condition {
            Condition::Feasible => {
                Found::Totals(self.total <= self.limit, self.total, self.limit)
            }
            Condition::Exhaustive => Found::Projects(self.exhaustive),
            Condition::Cover => {
                Found::Totals(self.limit < self.budgets, self.budgets, self.limit)
            }
            Condition::C1 => Found::Payments(self.c1),
            Condition::C2 => Found::Voters(self.c2),
            Condition::C3 => Found::Projects(self.c3),
            Condition::C4 => Found::Projects(self.c4),
            Condition::C5 => Found::Projects(self.c5),
            Condition::S5 => Found::Projects(self.s5),
        }
    }
}

impl Found {
    /// Whether the condition holds.
    pub fn holds(self) -> bool
        ensures { result ≡ spec.holds self }
    {
        match self {
            Found::Totals(holds, _, _) => holds,
            Found::Payments(found) => found.count == 0,
            Found::Voters(found) | Found::Projects(found) => found.count == 0,
        }
    }

    /// How many culprits it has: one where two totals are compared and it is false, and 0 where it holds.
    pub fn culprits(self) -> u64
        ensures { result ≡ spec.culprits self }
    {
        match self {
            Found::Totals(holds, _, _) => u64::from(!holds),
            Found::Payments(found) => found.count,
            Found::Voters(found) | Found::Projects(found) => u64::from(found.count),
        }
    }

    /// The finding on voters or on projects.
    pub fn finding(self) -> Option<Finding>
        ensures { result ≡ spec.finding_in self }
    {
        match self {
            Found::Voters(found) | Found::Projects(found) => Some(found),
            Found::Totals(_, _, _) | Found::Payments(_) => None,
        }
    }
}

impl Failure {
    /// The condition that fails.
    pub fn condition(self) -> Condition
        ensures { result ≡ spec.condition_of self }
    {
        match self {
            Failure::Feasible => Condition::Feasible,
            Failure::Exhaustive(_) => Condition::Exhaustive,
            Failure::Cover => Condition::Cover,
            Failure::C1(_, _) => Condition::C1,
            Failure::C2(_) => Condition::C2,
            Failure::C3(_) => Condition::C3,
            Failure::C4(_) => Condition::C4,
            Failure::C5(_) => Condition::C5,
            Failure::S5(_) => Condition::S5,
        }
    }
}
