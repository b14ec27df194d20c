//! The answer on a violation certificate.
ghost use Rattle.std.specs.Prelude.{◌≡◌, ◌≤◌, IfOk, IfSome};
ghost use Rattle.serde_json.specs.View.{view};
ghost use Rattle.pb_cohesion.specs.Failed.{ViolationNamesProject};
ghost use Rattle.pb_election.specs.Instance.{IsProject};
ghost use Rattle.pb_election.specs.Outcome.{most_total};
ghost use Rattle.pb_json.specs.Members.{or_null};
ghost use Rattle.pb_json.specs.Violations as spec;

use crate::elections::{election_json, outcome_json};
use crate::members::{amount, answer, push_value};
use crate::places::{failed_json, pair_or_null};
use pb_certificate::Measure;
use pb_cohesion::{MissingApprovals, ViolationFindings, ViolationVerdict};
use pb_election::{DecidedElection, Election};
use serde_json::{Value, json};
use std::alloc::{AllocError, Global};

/// The answer on a violation certificate by its measure: the verdict, with what each test comes to, also those behind
/// the first that fails. The verdict and the findings are to be of this election. An error means out of memory.
pub fn violation_json(
    alloc: Global,
    measure: Measure,
    decided: &DecidedElection,
    verdict: ViolationVerdict,
    findings: &ViolationFindings,
) -> Result<Value, AllocError>
    requires verdict { ViolationNamesProject (decided.now).election verdict }
    requires findings { spec.FindingsNameProject (decided.now).election findings.now }
    requires cost { (findings.now).cost ≤ most_total }
    ensures { IfOk result (λ v. view v ≡ spec.violation_json measure (decided.now).election (decided.now).outcome.marks verdict findings.now) }
{
    let election = decided.election();
    json!(in alloc; {
        "answer": answer(is_yes(verdict)),
        "election": election_json(alloc, election)?,
        "failed": first_failed(alloc, election, verdict)?,
        "kind": "violation",
        "measure": measure_word(measure),
        "outcome": outcome_json(alloc, decided)?,
        "tests": tests_json(alloc, election, findings)?,
        "version": 1u32,
    })
}

// A list of the tests, in their order.
fn tests_json(
    alloc: Global,
    election: &Election,
    findings: &ViolationFindings,
) -> Result<Value, AllocError>
    requires project { spec.FindingsNameProject election.now findings.now }
    requires cost { (findings.now).cost ≤ most_total }
    ensures { IfOk result (λ v. view v ≡ spec.tests_json election.now findings.now) }
{
    let mut tests = Vec::new(alloc);
    push_value(&mut tests, v1_json(alloc, findings)?)?;
    push_value(&mut tests, v2_json(alloc, election, &findings.unapproved)?)?;
    push_value(&mut tests, v3_json(alloc, election, findings)?)?;
    push_value(&mut tests, v4_json(alloc, findings)?)?;
    Ok(Value::Array(tests))
}

fn v1_json(alloc: Global, findings: &ViolationFindings) -> Result<Value, AllocError>
    ensures { IfOk result (λ v. view v ≡ spec.v1_json findings.now) }
{
    json!(in alloc; {
        "holds": 0 < findings.members,
        "members": findings.members,
        "name": "V1",
    })
}

fn v2_json(
    alloc: Global,
    election: &Election,
    found: &MissingApprovals,
) -> Result<Value, AllocError>
    requires { IfSome (found.now).first (λ q. IsProject election.now q.1) }
    ensures { IfOk result (λ v. view v ≡ spec.v2_json election.now found.now) }
{
    json!(in alloc; {
        "culprits": found.count,
        "first": pair_or_null(alloc, election, found.first)?,
        "holds": found.count == 0,
        "name": "V2",
    })
}

fn v3_json(
    alloc: Global,
    election: &Election,
    findings: &ViolationFindings,
) -> Result<Value, AllocError>
    requires { (findings.now).cost ≤ most_total }
    ensures { IfOk result (λ v. view v ≡ spec.v3_json election.now findings.now) }
{
    let voters = election.voters();
    let limits = u128::from(findings.members) * u128::from(election.limit().millionths());
    let holds = u128::from(voters) * findings.cost <= limits;
    json!(in alloc; {
        "cost": amount(alloc, findings.cost)?,
        "holds": holds,
        "name": "V3",
        "share": {"denominator": voters, "numerator": amount(alloc, limits)?},
    })
}

fn v4_json(alloc: Global, findings: &ViolationFindings) -> Result<Value, AllocError>
    ensures { IfOk result (λ v. view v ≡ spec.v4_json findings.now) }
{
    let found = &findings.satisfied;
    json!(in alloc; {
        "culprits": found.count,
        "demanded": amount(alloc, findings.demanded)?,
        "first": member_or_null(alloc, found.first)?,
        "gets": amount(alloc, findings.gets)?,
        "holds": found.count == 0,
        "name": "V4",
    })
}

// A member by its number, or null.
fn member_or_null(alloc: Global, member: Option<u32>) -> Result<Value, AllocError>
    ensures { IfOk result (λ v. view v ≡ or_null spec.member_json member) }
{
    match member {
        Some(i) => json!(in alloc; {"voter": i}),
        None => Ok(Value::Null),
    }
}

fn is_yes(verdict: ViolationVerdict) -> bool
    ensures { result ≡ spec.is_yes verdict }
{
    match verdict {
        ViolationVerdict::Violation => true,
        ViolationVerdict::Failed(_) => false,
    }
}

// The first test that fails, or null.
fn first_failed(
    alloc: Global,
    election: &Election,
    verdict: ViolationVerdict,
) -> Result<Value, AllocError>
    requires { ViolationNamesProject election.now verdict }
    ensures { IfOk result (λ v. view v ≡ spec.first_failed election.now verdict) }
{
    match verdict {
        ViolationVerdict::Violation => Ok(Value::Null),
        ViolationVerdict::Failed(failure) => failed_json(alloc, election, &failure.failed_at()),
    }
}

pub(crate) fn measure_word(measure: Measure) -> &'static str
    ensures { result.now ≡ spec.measure_word measure }
{
    match measure {
        Measure::ByCount => "count",
        Measure::ByCost => "cost",
    }
}
