//! The table of what each condition or test comes to.
ghost use Rattle.std.specs.Prelude.{◌≡◌, ◌++◌, OnOk, map, string_bytes};
ghost use Rattle.pb_audit.specs.Explained.{groups_told};
ghost use Rattle.pb_audit.specs.Inside.Told as spec;
ghost use Rattle.pb_cohesion.specs.Shown.{shown};
ghost use Rattle.pb_explain.specs.GroupLines.{group_lines};
ghost use Rattle.pb_explain.specs.ShownGroup.{shown_table};
ghost use Rattle.pb_report.specs.CanBeTold.{CanBeReported, CertificateCanBeTold, GroupsCanBeTold, PricesCanBeTold};
ghost use Rattle.pb_report.specs.Found.{on_groups_by, price_verdict};

use pb_cohesion::shown_of;
use pb_election::Election;
use pb_explain::{
    push_group_lines, push_price_table, push_refutation_table, push_shown_group,
    push_violation_table,
};
use pb_price::Verdict;
use pb_report::{CertificateFound, GroupsFound, PricesFound, Report};
use std::alloc::{AllocError, Global};

/// Adds the table of what each condition or test comes to. Both certificates together have none.
pub(crate) fn push_table(
    alloc: Global,
    lines: &mut Vec<String>,
    election: &Election,
    report: &Report,
) -> Result<(), AllocError>
    requires { CanBeReported election.now report.now }
    ensures { OnOk result (map string_bytes lines.new.items ≡ map string_bytes lines.old.items ++ spec.table_told election.now report.now) }
{
    match report {
        Report::Certificate(found) => push_certificate_table(alloc, lines, election, found),
        Report::Groups(groups) => push_groups_table(alloc, lines, election, groups),
        Report::Both(_, _) => Ok(()),
    }
}

/// Adds the table on a certificate.
fn push_certificate_table(
    alloc: Global,
    lines: &mut Vec<String>,
    election: &Election,
    found: &CertificateFound,
) -> Result<(), AllocError>
    requires { CertificateCanBeTold election.now found.now }
    ensures { OnOk result (map string_bytes lines.new.items ≡ map string_bytes lines.old.items ++ spec.certificate_table election.now found.now) }
{
    match found {
        CertificateFound::Prices(prices) => push_prices_table(alloc, lines, election, prices),
        CertificateFound::Group(group) => {
            push_violation_table(alloc, lines, election, group.measure(), &group.findings)
        }
        CertificateFound::Weights(weights) => push_refutation_table(
            alloc,
            lines,
            election,
            &weights.refutation,
            &weights.findings,
        ),
    }
}

/// Adds the table on prices, and what a yes says of groups.
fn push_prices_table(
    alloc: Global,
    lines: &mut Vec<String>,
    election: &Election,
    prices: &PricesFound,
) -> Result<(), AllocError>
    requires { PricesCanBeTold election.now prices.now }
    ensures { OnOk result (map string_bytes lines.new.items ≡ map string_bytes lines.old.items ++ spec.prices_table election.now prices.now) }
{
    push_price_table(alloc, lines, election, &prices.findings, prices.mode)?;
    push_groups(alloc, lines, election, prices)
}

/// Adds what a yes says of groups, behind an empty line.
fn push_groups(
    alloc: Global,
    lines: &mut Vec<String>,
    election: &Election,
    prices: &PricesFound,
) -> Result<(), AllocError>
    requires { PricesCanBeTold election.now prices.now }
    ensures { OnOk result (map string_bytes lines.new.items ≡ map string_bytes lines.old.items ++ groups_told (price_verdict prices.now) (group_lines election.now (on_groups_by prices.now) (prices.now).nearest)) }
{
    match prices.verdict() {
        Verdict::Supported => {
            lines.push(String::new(alloc))?;
            push_group_lines(alloc, lines, election, prices.on_groups(), prices.nearest)
        }
        Verdict::Failed(_) => Ok(()),
    }
}

/// Adds the table of the group that is shown: the largest that falls short for the first project for which one does, or
/// else the closest of all.
#[tactic(auto, using(pb_report::proofs::Told::shown_can_be_told))]
fn push_groups_table(
    alloc: Global,
    lines: &mut Vec<String>,
    election: &Election,
    groups: &GroupsFound,
) -> Result<(), AllocError>
    requires { GroupsCanBeTold election.now groups.now }
    ensures { OnOk result (map string_bytes lines.new.items ≡ map string_bytes lines.old.items ++ shown_table (groups.now).measure election.now (shown (groups.now).figures.items)) }
{
    let shown = shown_of(&groups.figures);
    push_shown_group(alloc, lines, groups.measure, election, shown)
}
