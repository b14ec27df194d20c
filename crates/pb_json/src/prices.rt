//! The answer on prices.
ghost use Rattle.std.specs.Prelude.{◌≡◌, IfOk, IfSome, OnOk, option_map};
ghost use Rattle.pb_election.specs.Instance.{IsProject};
ghost use Rattle.pb_price.specs.Condition.{FindingsNameProjects};
ghost use Rattle.pb_price.specs.Told.{PricesNameProject};
ghost use Rattle.serde_json.specs.View.{members_view, view};
ghost use Rattle.pb_json.specs.Members.{with_all};
ghost use Rattle.pb_json.specs.Prices as spec;

use crate::conditions::conditions_json;
use crate::elections::{election_json, outcome_json};
use crate::groups::nearest_or_null;
use crate::members::{amount, answer, text_or_null};
use crate::places::failed_json;
use pb_election::{DecidedElection, Election};
use pb_price::{Findings, Mode, NearestGroup, OnGroups, Verdict};
use serde_json::{Map, Value, json, put};
use std::alloc::{AllocError, Global};

/// The answer on prices: the verdict on them in a mode, with what each condition comes to, also those behind the first
/// that is false and those that the mode leaves out. Where it is a yes, it says what of groups, and where it was looked
/// for also which unfunded project's supporters come nearest to that. The verdict, the findings and the project are to be
/// of this election. An error means out of memory.
pub fn prices_json(
    alloc: Global,
    mode: Mode,
    decided: &DecidedElection,
    verdict: Verdict,
    findings: &Findings,
    nearest: Option<NearestGroup>,
) -> Result<Value, AllocError>
    requires verdict { PricesNameProject (decided.now).election verdict }
    requires findings { FindingsNameProjects (decided.now).election findings.now }
    requires nearest { IfSome nearest (λ g. IsProject (decided.now).election g.project) }
    ensures { IfOk result (λ v. view v ≡ spec.prices_json mode (decided.now).election (decided.now).outcome.marks verdict findings.now nearest) }
{
    let election = decided.election();
    let mut members = Map::new(alloc);
    put_verdict(alloc, &mut members, election, mode, verdict, findings)?;
    put_audited(alloc, &mut members, decided, mode)?;
    put_amounts(alloc, &mut members, findings)?;
    let conditions = conditions_json(alloc, mode, election, findings)?;
    put(&mut members, alloc, "conditions", conditions)?;
    let nearest = nearest_or_null(alloc, election, nearest)?;
    put(&mut members, alloc, "nearest", nearest)?;
    Ok(Value::Object(members))
}

// Puts the verdict among members, and what a yes says of groups.
fn put_verdict(
    alloc: Global,
    members: &mut Map<String, Value>,
    election: &Election,
    mode: Mode,
    verdict: Verdict,
    findings: &Findings,
) -> Result<(), AllocError>
    requires { PricesNameProject election.now verdict }
    ensures { OnOk result (members_view members.new.entries ≡ with_all (spec.verdict_members election.now mode verdict findings.now) (members_view members.old.entries)) }
{
    let word = answer(is_yes(verdict));
    put(members, alloc, "answer", Value::try_from_str(alloc, word)?)?;
    let failed = first_failed(alloc, election, verdict)?;
    put(members, alloc, "failed", failed)?;
    let groups = text_or_null(alloc, groups_word(mode, verdict, findings))?;
    put(members, alloc, "groups", groups)
}

// Puts what was audited among members, and in which mode.
fn put_audited(
    alloc: Global,
    members: &mut Map<String, Value>,
    decided: &DecidedElection,
    mode: Mode,
) -> Result<(), AllocError>
    ensures { OnOk result (members_view members.new.entries ≡ with_all (spec.audited_members (decided.now).election (decided.now).outcome.marks mode) (members_view members.old.entries)) }
{
    let election = decided.election();
    put(members, alloc, "election", election_json(alloc, election)?)?;
    put(
        members,
        alloc,
        "kind",
        Value::try_from_str(alloc, "prices")?,
    )?;
    put(members, alloc, "mode", mode_json(alloc, mode)?)?;
    let outcome = outcome_json(alloc, decided)?;
    put(members, alloc, "outcome", outcome)?;
    put(members, alloc, "version", Value::from(1u32))
}

// Puts the amounts that the certificate and the election make among members.
fn put_amounts(
    alloc: Global,
    members: &mut Map<String, Value>,
    findings: &Findings,
) -> Result<(), AllocError>
    ensures { OnOk result (members_view members.new.entries ≡ with_all (spec.amount_members findings.now) (members_view members.old.entries)) }
{
    let unit = Value::from(findings.grains_per_unit);
    put(members, alloc, "budgets", amount(alloc, findings.budgets)?)?;
    put(members, alloc, "grains_per_unit", unit)?;
    put(members, alloc, "limit", amount(alloc, findings.limit)?)?;
    put(members, alloc, "total", amount(alloc, findings.total)?)?;
    let budget = amount(alloc, findings.voter_budget)?;
    put(members, alloc, "voter_budget", budget)
}

fn mode_json(alloc: Global, mode: Mode) -> Result<Value, AllocError>
    ensures { IfOk result (λ v. view v ≡ spec.mode_json mode) }
{
    json!(in alloc; {
        "cover": mode.cover,
        "exhaustive": mode.exhaustive,
        "stable": mode.stable,
    })
}

fn is_yes(verdict: Verdict) -> bool
    ensures { result ≡ spec.is_yes verdict }
{
    match verdict {
        Verdict::Supported => true,
        Verdict::Failed(_) => false,
    }
}

// The first condition that is false, or null.
fn first_failed(alloc: Global, election: &Election, verdict: Verdict) -> Result<Value, AllocError>
    requires { PricesNameProject election.now verdict }
    ensures { IfOk result (λ v. view v ≡ spec.first_failed election.now verdict) }
{
    match verdict {
        Verdict::Supported => Ok(Value::Null),
        Verdict::Failed(failure) => failed_json(alloc, election, &failure.failed_at()),
    }
}

// What a yes says of groups.
fn groups_word(mode: Mode, verdict: Verdict, findings: &Findings) -> Option<&'static str>
    ensures { option_map (λ s. s.now) result ≡ spec.groups_said mode verdict findings.now }
{
    match verdict {
        Verdict::Supported => Some(word_on_groups(findings.on_groups(mode))),
        Verdict::Failed(_) => None,
    }
}

fn word_on_groups(said: OnGroups) -> &'static str
    ensures { result.now ≡ spec.groups_word said }
{
    match said {
        OnGroups::Strict => "strict",
        OnGroups::Weak => "weak",
        OnGroups::Little => "little",
    }
}
