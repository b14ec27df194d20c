//! The table of the tests of a refutation.
ghost use Rattle.std.specs.Prelude.{◌≡◌, ◌++◌, ◌+◌, ◌≤◌, if◌then◌else◌, false, IfOk, IfSome, OnOk, map, string_bytes};
ghost use Rattle.std.specs.Option.{option_map_or};
ghost use Rattle.pb_election.specs.Instance.{IsProject, most_projects};
ghost use Rattle.pb_cohesion.specs.Refutations.{is_least, is_left, is_most};
ghost use Rattle.pb_explain.specs.RefutationTable as spec;

use crate::amounts::{Amount, MILLION};
use crate::rows::{HowMany, Opening, push_line};
use pb_certificate::{Refutation, Role};
use pb_cohesion::{MisplacedRows, RefutationFindings};
use pb_election::Election;
use std::alloc::{AllocError, Global};

/// Adds a line for each test of a refutation, in their order: its name, whether it holds, and what it compares. The
/// first tells how many rows of each role there are, where each fits. Amounts are told in units of the currency, and
/// exactly, and projects by their ids. The refutation and the findings are to be of this election. An error means out of
/// memory, after which some of the lines may have been added.
pub fn push_refutation_table(
    alloc: Global,
    lines: &mut Vec<String>,
    election: &Election,
    refutation: &Refutation,
    findings: &RefutationFindings,
) -> Result<(), AllocError>
    requires project { IfSome (findings.now).misplaced.first (IsProject election.now) }
    ensures { OnOk result (map string_bytes lines.new.items ≡ map string_bytes lines.old.items ++ spec.refutation_table election.now refutation.now findings.now) }
{
    push_line(
        lines,
        u1_line(alloc, election, refutation, &findings.misplaced)?,
    )?;
    push_line(lines, u2_line(alloc, findings)?)?;
    push_line(lines, u3_line(alloc, findings)?)
}

fn u1_line(
    alloc: Global,
    election: &Election,
    refutation: &Refutation,
    found: &MisplacedRows,
) -> Result<String, AllocError>
    requires project { IfSome (found.now).first (IsProject election.now) }
    ensures { IfOk result (λ line. string_bytes line ≡ spec.u1_line election.now refutation.now found.now) }
{
    let opening = Opening("U1          ", found.count == 0);
    let Some(j) = found.first else {
        let RowCounts { least, most, left } = row_counts(election, refutation);
        return format!(in alloc;
            "{opening}each row fits whether its project is funded; rows of least: {least}, of most: {most}, of left: {left}"
        );
    };
    let project = election.id(j);
    let others = HowMany("such rows", u64::from(found.count));
    format!(in alloc;
        "{opening}the row of project {project} doesn't fit whether it is funded{others}"
    )
}

// How many rows of each role there are.
#[derive(Clone, Copy)]
struct RowCounts {
    least: u32,
    most: u32,
    left: u32,
}

fn row_counts(election: &Election, refutation: &Refutation) -> RowCounts
    ensures { result ≡ spec.row_counts election.now refutation.now }
{
    let mut rows = RowCounts {
        least: 0,
        most: 0,
        left: 0,
    };
    for k in 0..election.projects() {
        rows.count(refutation.role(k + 1));
    }
    rows
}

impl RowCounts {
    // Counts the row of one more project, if it has one.
    fn count(&mut self, role: Option<Role>)
        requires least { (self.old).least ≤ most_projects }
        requires most { (self.old).most ≤ most_projects }
        requires left { (self.old).left ≤ most_projects }
        ensures least { (self.new).least ≡ (self.old).least + (if option_map_or is_least role false then 1 else 0) }
        ensures most { (self.new).most ≡ (self.old).most + (if option_map_or is_most role false then 1 else 0) }
        ensures left { (self.new).left ≡ (self.old).left + (if option_map_or is_left role false then 1 else 0) }
    {
        match role {
            None => {}
            Some(Role::Least) => self.least += 1,
            Some(Role::Most) => self.most += 1,
            Some(Role::Left) => self.left += 1,
        }
    }
}

fn u2_line(alloc: Global, findings: &RefutationFindings) -> Result<String, AllocError>
    ensures { IfOk result (λ line. string_bytes line ≡ spec.u2_line findings.now) }
{
    let (counted, taken) = (findings.counted, findings.taken);
    let Some(stable) = findings.counted_stable else {
        let opening = Opening("U2          ", counted <= taken);
        return format!(in alloc;
            "{opening}the weights count at most {counted} voter budgets, and take {taken}"
        );
    };
    let opening = Opening("U2          ", stable <= taken);
    format!(in alloc;
        "{opening}the weights count at most {stable} voter budgets if prices are stable, and take {taken}; for all prices they count at most {counted}"
    )
}

fn u3_line(alloc: Global, findings: &RefutationFindings) -> Result<String, AllocError>
    ensures { IfOk result (λ line. string_bytes line ≡ spec.u3_line findings.now) }
{
    let cover = findings.cover;
    let opening = Opening("U3          ", costs_differ(findings));
    let least = Amount(MILLION, findings.at_least);
    let most = Amount(MILLION, findings.at_most);
    format!(in alloc;
        "{opening}costs times weights come to {least} for least and Cover, whose weight is {cover}, and to {most} for most and left"
    )
}

// Whether the costs on the one side are more than on the other, or as much and Cover has a weight.
fn costs_differ(findings: &RefutationFindings) -> bool
    ensures { result ≡ spec.costs_differ (findings.now).at_least (findings.now).at_most (findings.now).cover }
{
    let alike = findings.at_most == findings.at_least;
    findings.at_most < findings.at_least || (alike && 0 < findings.cover)
}
