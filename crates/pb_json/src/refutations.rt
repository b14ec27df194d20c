//! The answer on a refutation.
ghost use Rattle.std.specs.Prelude.{◌≡◌, IfOk, IfSome, option_map};
ghost use Rattle.serde_json.specs.View.{view};
ghost use Rattle.pb_cohesion.specs.Failed.{RefutationNamesProject};
ghost use Rattle.pb_election.specs.Instance.{IsProject};
ghost use Rattle.pb_json.specs.Members.{or_null};
ghost use Rattle.pb_json.specs.Refutations as spec;

use crate::elections::{election_json, outcome_json};
use crate::members::{amount, amount_or_null, answer, push_value, text_or_null};
use crate::places::{failed_json, project_json};
use pb_cohesion::{MisplacedRows, RefutationFindings, RefutationVerdict};
use pb_election::{DecidedElection, Election};
use serde_json::{Value, json};
use std::alloc::{AllocError, Global};

/// The answer on a refutation: the verdict, with what each test comes to, also those behind the first that fails. The
/// verdict and the findings are to be of this election. An error means out of memory.
pub fn refutation_json(
    alloc: Global,
    decided: &DecidedElection,
    verdict: RefutationVerdict,
    findings: &RefutationFindings,
) -> Result<Value, AllocError>
    requires verdict { RefutationNamesProject (decided.now).election verdict }
    requires findings { spec.FindingsNameProject (decided.now).election findings.now }
    ensures { IfOk result (λ v. view v ≡ spec.refutation_json (decided.now).election (decided.now).outcome.marks verdict findings.now) }
{
    let election = decided.election();
    json!(in alloc; {
        "answer": answer(is_yes(verdict)),
        "election": election_json(alloc, election)?,
        "failed": first_failed(alloc, election, verdict)?,
        "kind": "refutation",
        "outcome": outcome_json(alloc, decided)?,
        "proves": text_or_null(alloc, proved(verdict))?,
        "stable": findings.counted_stable.is_some(),
        "tests": tests_json(alloc, election, findings)?,
        "version": 1u32,
    })
}

// A list of the tests, in their order.
fn tests_json(
    alloc: Global,
    election: &Election,
    findings: &RefutationFindings,
) -> Result<Value, AllocError>
    requires { spec.FindingsNameProject election.now findings.now }
    ensures { IfOk result (λ v. view v ≡ spec.tests_json election.now findings.now) }
{
    let mut tests = Vec::new(alloc);
    push_value(&mut tests, u1_json(alloc, election, &findings.misplaced)?)?;
    push_value(&mut tests, u2_json(alloc, findings)?)?;
    push_value(&mut tests, u3_json(alloc, findings)?)?;
    Ok(Value::Array(tests))
}

fn u1_json(alloc: Global, election: &Election, found: &MisplacedRows) -> Result<Value, AllocError>
    requires { IfSome (found.now).first (IsProject election.now) }
    ensures { IfOk result (λ v. view v ≡ spec.u1_json election.now found.now) }
{
    json!(in alloc; {
        "culprits": found.count,
        "first": row_or_null(alloc, election, found.first)?,
        "holds": found.count == 0,
        "name": "U1",
    })
}

// The project of a row, or null.
fn row_or_null(alloc: Global, election: &Election, row: Option<u32>) -> Result<Value, AllocError>
    requires { IfSome row (IsProject election.now) }
    ensures { IfOk result (λ v. view v ≡ or_null (spec.row_json election.now) row) }
{
    match row {
        Some(j) => json!(in alloc; {"project": election.id(j)}),
        None => Ok(Value::Null),
    }
}

fn u2_json(alloc: Global, findings: &RefutationFindings) -> Result<Value, AllocError>
    ensures { IfOk result (λ v. view v ≡ spec.u2_json findings.now) }
{
    json!(in alloc; {
        "counted": amount(alloc, findings.counted)?,
        "counted_stable": amount_or_null(alloc, findings.counted_stable)?,
        "holds": findings.counted_stable.unwrap_or(findings.counted) <= findings.taken,
        "name": "U2",
        "taken": amount(alloc, findings.taken)?,
    })
}

fn u3_json(alloc: Global, findings: &RefutationFindings) -> Result<Value, AllocError>
    ensures { IfOk result (λ v. view v ≡ spec.u3_json findings.now) }
{
    json!(in alloc; {
        "at_least": amount(alloc, findings.at_least)?,
        "at_most": amount(alloc, findings.at_most)?,
        "cover": findings.cover,
        "holds": costs_differ(findings),
        "name": "U3",
    })
}

// Whether the costs on the one side are more than on the other, or as much and Cover has a weight.
fn costs_differ(findings: &RefutationFindings) -> bool
    ensures { result ≡ spec.costs_differ (findings.now).at_least (findings.now).at_most (findings.now).cover }
{
    let alike = findings.at_most == findings.at_least;
    findings.at_most < findings.at_least || (alike && 0 < findings.cover)
}

fn is_yes(verdict: RefutationVerdict) -> bool
    ensures { result ≡ spec.is_yes verdict }
{
    match verdict {
        RefutationVerdict::Unpriceable
        | RefutationVerdict::UnpriceableUnderCover
        | RefutationVerdict::UnpriceableStable
        | RefutationVerdict::UnpriceableStableUnderCover => true,
        RefutationVerdict::Failed(_) => false,
    }
}

fn proved(verdict: RefutationVerdict) -> Option<&'static str>
    ensures { option_map (λ s. s.now) result ≡ spec.proved verdict }
{
    match verdict {
        RefutationVerdict::Unpriceable => Some("unpriceable"),
        RefutationVerdict::UnpriceableUnderCover => Some("unpriceable cover"),
        RefutationVerdict::UnpriceableStable => Some("unpriceable stable"),
        RefutationVerdict::UnpriceableStableUnderCover => Some("unpriceable stable cover"),
        RefutationVerdict::Failed(_) => None,
    }
}

// The first test that fails, or null.
fn first_failed(
    alloc: Global,
    election: &Election,
    verdict: RefutationVerdict,
) -> Result<Value, AllocError>
    requires { RefutationNamesProject election.now verdict }
    ensures { IfOk result (λ v. view v ≡ spec.first_failed election.now verdict) }
{
    match verdict {
        RefutationVerdict::Unpriceable
        | RefutationVerdict::UnpriceableUnderCover
        | RefutationVerdict::UnpriceableStable
        | RefutationVerdict::UnpriceableStableUnderCover => Ok(Value::Null),
        RefutationVerdict::Failed(failure) => failed_json(alloc, election, &failure.failed_at()),
    }
}
