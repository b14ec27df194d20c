//! The lines of verdicts.
ghost use Rattle.std.specs.Prelude.{◌≡◌, IfOk, string_bytes};
ghost use Rattle.pb_cohesion.specs.Failed.{NamesProject, RefutationNamesProject, ViolationNamesProject};
ghost use Rattle.pb_price.specs.Told.{PricesNameProject};
ghost use Rattle.pb_reply.specs.Replies as replies;
ghost use Rattle.pb_reply.specs.Lines as spec;
ghost use Rattle.pb_reply.specs.Named.{GroupsNameProject};

use crate::{Status, Unmet};
use pb_certificate::Measure;
use pb_cohesion::{FailedAt, GroupsVerdict, RefutationVerdict, ViolationVerdict};
use pb_election::Election;
use pb_price::Verdict;
use std::alloc::{AllocError, Global};

/// The line of a verdict on prices, in the stable form or the plain one.
pub fn price_line(
    alloc: Global,
    election: &Election,
    verdict: Verdict,
    stable: bool,
) -> Result<String, AllocError>
    requires { PricesNameProject election.now verdict }
    ensures { IfOk result (λ line. string_bytes line ≡ spec.price_line stable election.now verdict) }
{
    match verdict {
        Verdict::Supported if stable => String::from_str(alloc, "supported stable"),
        Verdict::Supported => String::from_str(alloc, "supported priceable"),
        Verdict::Failed(failure) => failed_line(alloc, election, &failure.failed_at()),
    }
}

pub fn price_status(verdict: Verdict) -> Status
    ensures { result ≡ replies.price_status verdict }
{
    match verdict {
        Verdict::Supported => Status::Yes,
        Verdict::Failed(failure) => Status::No(Unmet::Prices(failure)),
    }
}

/// The line of a verdict on a violation certificate.
pub fn violation_line(
    alloc: Global,
    election: &Election,
    verdict: ViolationVerdict,
) -> Result<String, AllocError>
    requires { ViolationNamesProject election.now verdict }
    ensures { IfOk result (λ line. string_bytes line ≡ spec.violation_line election.now verdict) }
{
    match verdict {
        ViolationVerdict::Violation => String::from_str(alloc, "violation"),
        ViolationVerdict::Failed(failure) => failed_line(alloc, election, &failure.failed_at()),
    }
}

pub fn violation_status(verdict: ViolationVerdict) -> Status
    ensures { result ≡ replies.violation_status verdict }
{
    match verdict {
        ViolationVerdict::Violation => Status::Yes,
        ViolationVerdict::Failed(failure) => Status::No(Unmet::Violation(failure)),
    }
}

/// The line of a verdict on a refutation.
pub fn refutation_line(
    alloc: Global,
    election: &Election,
    verdict: RefutationVerdict,
) -> Result<String, AllocError>
    requires { RefutationNamesProject election.now verdict }
    ensures { IfOk result (λ line. string_bytes line ≡ spec.refutation_line election.now verdict) }
{
    match verdict {
        RefutationVerdict::Unpriceable => String::from_str(alloc, "unpriceable"),
        RefutationVerdict::UnpriceableUnderCover => String::from_str(alloc, "unpriceable cover"),
        RefutationVerdict::UnpriceableStable => String::from_str(alloc, "unpriceable stable"),
        RefutationVerdict::UnpriceableStableUnderCover => {
            String::from_str(alloc, "unpriceable stable cover")
        }
        RefutationVerdict::Failed(failure) => failed_line(alloc, election, &failure.failed_at()),
    }
}

pub fn refutation_status(verdict: RefutationVerdict) -> Status
    ensures { result ≡ replies.refutation_status verdict }
{
    match verdict {
        RefutationVerdict::Unpriceable
        | RefutationVerdict::UnpriceableUnderCover
        | RefutationVerdict::UnpriceableStable
        | RefutationVerdict::UnpriceableStableUnderCover => Status::Yes,
        RefutationVerdict::Failed(failure) => Status::No(Unmet::Refutation(failure)),
    }
}

/// The line of a verdict on groups that fall short by this measure.
pub fn groups_line(
    alloc: Global,
    election: &Election,
    measure: Measure,
    verdict: GroupsVerdict,
) -> Result<String, AllocError>
    requires { GroupsNameProject election.now verdict }
    ensures { IfOk result (λ line. string_bytes line ≡ spec.groups_line measure election.now verdict) }
{
    let words = measure_words(measure);
    match verdict {
        GroupsVerdict::Satisfied => format!(in alloc; "satisfied ejr+ {words}"),
        GroupsVerdict::Failed { project, voters } => {
            groups_failed_line(alloc, words, voters, election.id(project))
        }
    }
}

fn groups_failed_line(
    alloc: Global,
    words: &str,
    voters: u32,
    id: &str,
) -> Result<String, AllocError>
    ensures { IfOk result (λ line. string_bytes line ≡ spec.groups_failed_line words.now voters id.now) }
{
    format!(in alloc; "failed EJR+ {words} voters {voters} project {id}")
}

fn measure_words(measure: Measure) -> &'static str
    ensures { result.now ≡ spec.measure_words measure }
{
    match measure {
        Measure::ByCount => "by count",
        Measure::ByCost => "by cost",
    }
}

pub fn groups_status(verdict: GroupsVerdict) -> Status
    ensures { result ≡ replies.groups_status verdict }
{
    match verdict {
        GroupsVerdict::Satisfied => Status::Yes,
        GroupsVerdict::Failed { project, voters } => {
            Status::No(Unmet::Groups { project, voters })
        }
    }
}

/// The line of a condition or a test that fails.
fn failed_line(alloc: Global, election: &Election, failed: &FailedAt) -> Result<String, AllocError>
    requires { NamesProject election.now failed.now }
    ensures { IfOk result (λ line. string_bytes line ≡ spec.failed_line election.now failed.now) }
{
    let name = failed.name;
    match (failed.voter, failed.project) {
        (None, None) => format!(in alloc; "failed {name}"),
        (Some(i), None) => format!(in alloc; "failed {name} voter {i}"),
        (None, Some(j)) => format!(in alloc; "failed {name} project {}", election.id(j)),
        (Some(i), Some(j)) => format!(in alloc;
            "failed {name} voter {i} project {}",
            election.id(j)
        ),
    }
}
