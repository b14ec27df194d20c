//! What is told in numbers of how an answer ends.
ghost use Rattle.std.specs.Prelude.{◌≡◌};
ghost use Rattle.pb_c.specs.Facts as spec;

use pb_audit::{InputName, Status, Unmet};
use pb_cohesion::FailedAt;

/// A condition or a test that fails.
#[repr(C)]
#[derive(Clone, Copy)]
pub struct Culprit {
    /// Its number: 1 Feasible, 2 Exhaustive, 3 Cover, 4 to 8 C1 to C5, 9 S5; 11 to 14 V1 to V4; 21 to 23 U1 to U3; 31
    /// that no group falls short; 0 where none fails.
    pub number: u32,
    /// The voter at which it does, from 1, or 0.
    pub voter: u32,
    /// The project at which it does, from 1 in the order of the election, or 0.
    pub project: u32,
}

/// What a caller in C is told beside the text. A number is 0 where there is nothing to tell.
#[repr(C)]
#[derive(Clone, Copy)]
pub struct Facts {
    /// The input that is refused: 1 the election, 2 the outcome file, 3 the certificate, and of two certificates 4 the
    /// prices and 5 the violation.
    pub input: u32,
    /// The number of its fault.
    pub fault: u32,
    /// The record at which the fault stands, from 1, or 0 where it stands at none.
    pub record_number: u64,
    /// The first condition on prices that fails.
    pub condition: Culprit,
    /// The first test of a violation, or of a refutation, that fails; or that no group falls short, with the project for
    /// which one does.
    pub test: Culprit,
}

/// Where nothing is told.
pub(crate) const NO_FACTS: Facts = Facts {
    input: 0,
    fault: 0,
    record_number: 0,
    condition: NONE,
    test: NONE,
};

const NONE: Culprit = Culprit {
    number: 0,
    voter: 0,
    project: 0,
};

/// What is told of a status.
pub(crate) fn facts_of(status: Status) -> Facts
    ensures { result ≡ spec.facts_of status }
{
    match status {
        Status::Yes => NO_FACTS,
        Status::No(unmet) => Facts {
            condition: condition_of(unmet),
            test: test_of(unmet),
            ..NO_FACTS
        },
        Status::Refused(refusal) => Facts {
            input: input_number(refusal.input),
            fault: refusal.fault.number(),
            record_number: refusal.fault.record_number(),
            ..NO_FACTS
        },
    }
}

fn input_number(input: InputName) -> u32
    ensures { result ≡ spec.input_number input }
{
    match input {
        InputName::Election => 1,
        InputName::Outcome => 2,
        InputName::Certificate => 3,
        InputName::Prices => 4,
        InputName::Violation => 5,
        InputName::Folder => 6,
    }
}

fn condition_of(unmet: Unmet) -> Culprit
    ensures { result ≡ spec.condition_of unmet }
{
    match unmet {
        Unmet::Prices(failure) | Unmet::Both(failure, _) => culprit_of(&failure.failed_at()),
        Unmet::Violation(_) | Unmet::Refutation(_) | Unmet::Groups { .. } => NONE,
    }
}

fn test_of(unmet: Unmet) -> Culprit
    ensures { result ≡ spec.test_of unmet }
{
    match unmet {
        Unmet::Prices(_) => NONE,
        Unmet::Violation(failure) | Unmet::Both(_, failure) => culprit_of(&failure.failed_at()),
        Unmet::Refutation(failure) => culprit_of(&failure.failed_at()),
        Unmet::Groups { project, .. } => culprit_of(&FailedAt::short_for(project)),
    }
}

/// What fails, as C is told it.
fn culprit_of(failed: &FailedAt) -> Culprit
    ensures { result ≡ spec.culprit_of failed.now }
{
    Culprit {
        number: failed.number,
        voter: failed.voter.unwrap_or(0),
        project: failed.project.unwrap_or(0),
    }
}
