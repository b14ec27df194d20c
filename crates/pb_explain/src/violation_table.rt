//! The table of the tests of a violation.
ghost use Rattle.std.specs.Prelude.{◌≡◌, ◌≤◌, ◌++◌, IfOk, IfSome, OnOk, map, string_bytes};
ghost use Rattle.pb_election.specs.Instance.{IsProject};
ghost use Rattle.pb_election.specs.Outcome.{most_total};
ghost use Rattle.pb_explain.specs.ViolationTable as spec;

use crate::amounts::{Amount, MILLION};
use crate::rows::{HowMany, Opening, push_line};
use pb_certificate::Measure;
use pb_cohesion::{MissingApprovals, ViolationFindings};
use pb_election::Election;
use std::alloc::{AllocError, Global};
use std::fmt;

/// Adds a line for each test of a violation, in their order: its name, whether it holds, and the figures that it
/// compares, with what projects are worth by this measure. Amounts are told in units of the currency, and exactly;
/// voters by their numbers, from 1, and projects by their ids. The findings are to be of this election and by this
/// measure. An error means out of memory, after which some of the lines may have been added.
pub fn push_violation_table(
    alloc: Global,
    lines: &mut Vec<String>,
    election: &Election,
    measure: Measure,
    findings: &ViolationFindings,
) -> Result<(), AllocError>
    requires cost { (findings.now).cost ≤ most_total }
    requires project { IfSome (findings.now).unapproved.first (λ q. IsProject election.now q.1) }
    ensures { OnOk result (map string_bytes lines.new.items ≡ map string_bytes lines.old.items ++ spec.violation_table measure election.now findings.now) }
{
    push_line(lines, v1_line(alloc, election, findings)?)?;
    push_line(lines, v2_line(alloc, election, &findings.unapproved)?)?;
    push_line(lines, v3_line(alloc, election, findings)?)?;
    push_line(lines, v4_line(alloc, measure, findings)?)
}

fn v1_line(
    alloc: Global,
    election: &Election,
    findings: &ViolationFindings,
) -> Result<String, AllocError>
    ensures { IfOk result (λ line. string_bytes line ≡ spec.v1_line election.now findings.now) }
{
    let members = findings.members;
    let voters = election.voters();
    let opening = Opening("V1          ", 0 < members);
    format!(in alloc; "{opening}{members} of {voters} voters are in the group")
}

fn v2_line(
    alloc: Global,
    election: &Election,
    found: &MissingApprovals,
) -> Result<String, AllocError>
    requires project { IfSome (found.now).first (λ q. IsProject election.now q.1) }
    ensures { IfOk result (λ line. string_bytes line ≡ spec.v2_line election.now found.now) }
{
    let count = found.count;
    let opening = Opening("V2          ", count == 0);
    let Some((i, j)) = found.first else {
        return format!(in alloc; "{opening}each member approves each demanded project");
    };
    let project = election.id(j);
    let others = HowMany("such pairs of a member and a project", count);
    format!(in alloc; "{opening}voter {i} doesn't approve project {project}{others}")
}

// The group's share, where the limit times the members is cut into as many parts as there are voters.
fn v3_line(
    alloc: Global,
    election: &Election,
    findings: &ViolationFindings,
) -> Result<String, AllocError>
    requires cost { (findings.now).cost ≤ most_total }
    ensures { IfOk result (λ line. string_bytes line ≡ spec.v3_line election.now findings.now) }
{
    let voters = election.voters();
    let limits = u128::from(findings.members) * u128::from(election.limit().millionths());
    let holds = u128::from(voters) * findings.cost <= limits;
    let opening = Opening("V3          ", holds);
    if voters == 0 {
        return format!(in alloc; "{opening}there are no voters");
    }
    let share = Amount(MILLION * u64::from(voters), limits);
    let cost = Amount(MILLION, findings.cost);
    format!(in alloc;
        "{opening}the group's share of the limit is {share}; the demanded projects cost {cost}"
    )
}

fn v4_line(
    alloc: Global,
    measure: Measure,
    findings: &ViolationFindings,
) -> Result<String, AllocError>
    ensures { IfOk result (λ line. string_bytes line ≡ spec.v4_line measure findings.now) }
{
    let found = &findings.satisfied;
    let opening = Opening("V4          ", found.count == 0);
    let by = measure_words(measure);
    let demanded = Worth(measure, findings.demanded);
    let gets = Worth(measure, findings.gets);
    let Some(i) = found.first else {
        return format!(in alloc;
            "{opening}{by} the demanded projects are worth {demanded}, and each member gets at most {gets}"
        );
    };
    let others = HowMany("members who get enough", u64::from(found.count));
    format!(in alloc;
        "{opening}{by} the demanded projects are worth {demanded}, and voter {i} gets {gets}{others}"
    )
}

/// By which measure.
pub(crate) fn measure_words<'a>(measure: Measure) -> &'a str
    ensures { result.now ≡ spec.measure_words measure }
{
    match measure {
        Measure::ByCount => "by count",
        Measure::ByCost => "by cost",
    }
}

/// What projects are worth by a measure.
#[derive(Clone, Copy)]
pub(crate) struct Worth(pub(crate) Measure, pub(crate) u128);

impl fmt::Display for Worth {
    ghost use Rattle.std.specs.Prelude.{Some};
    ghost use Rattle.pb_explain.specs.ViolationTable.{worth};

    ghost output = { λ it. Some (worth it.0 it.1) };

    fn fmt<W: fmt::Write>(&self, f: &mut fmt::Formatter<W>) -> fmt::Result {
        let worth = self.1;
        match self.0 {
            Measure::ByCount => write!(f, "{worth}"),
            Measure::ByCost => write!(f, "{}", Amount(MILLION, worth)),
        }
    }
}
