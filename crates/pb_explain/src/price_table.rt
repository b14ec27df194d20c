//! The table of the conditions on prices.
ghost use Rattle.std.specs.Prelude.{◌≡◌, ◌≤◌, ◌^◌, ◌++◌, IfOk, IfSome, OnOk, map, string_bytes};
ghost use Rattle.pb_election.specs.Instance.{IsProject};
ghost use Rattle.pb_price.specs.Condition.{FindingNamesProjects, FindingsNameProjects, FoundNamesProjects, found};
ghost use Rattle.pb_explain.specs.PriceTable as spec;
ghost use Rattle.pb_explain.specs.Rows.{opening_if};

use crate::amounts::{Amount, Balance};
use crate::rows::{HowMany, OpeningIf, push_line};
use pb_election::Election;
use pb_price::{Condition, Finding, Findings, Mode};
use std::alloc::{AllocError, Global};

/// Adds a line for each condition on prices, in their order: its name, whether it holds, and the figures that it
/// compares. A condition that the mode leaves out is told too, with how to ask for it. Amounts are told in units of the
/// currency, and exactly where a unit has a multiple of 10^6 grains, as it has in all that `findings_of` answers;
/// voters by their numbers, from 1, and projects by their ids. The findings are to be of this election. An error
/// means out of memory, after which some of the lines may have been added.
pub fn push_price_table(
    alloc: Global,
    lines: &mut Vec<String>,
    election: &Election,
    findings: &Findings,
    mode: Mode,
) -> Result<(), AllocError>
    requires unit { 10 ^ 6 ≤ (findings.now).grains_per_unit }
    requires projects { FindingsNameProjects election.now findings.now }
    ensures { OnOk result (map string_bytes lines.new.items ≡ map string_bytes lines.old.items ++ spec.price_table mode election.now findings.now) }
{
    for condition in Condition::all() {
        let line = condition_line(alloc, election, findings, mode, *condition)?;
        push_line(lines, line)?;
    }
    Ok(())
}

// The line on a condition.
fn condition_line(
    alloc: Global,
    election: &Election,
    findings: &Findings,
    mode: Mode,
    condition: Condition,
) -> Result<String, AllocError>
    requires unit { 10 ^ 6 ≤ (findings.now).grains_per_unit }
    requires projects { FoundNamesProjects election.now (found findings.now condition) }
    ensures { IfOk result (λ line. string_bytes line ≡ spec.line mode election.now findings.now condition) }
{
    let holds = findings.found(condition).holds();
    let opening = OpeningIf(
        condition.is_asked(mode),
        column(condition),
        how_to_ask(condition),
        holds,
    );
    match condition {
        Condition::Feasible => feasible_line(alloc, findings, &opening),
        Condition::Exhaustive => exhaustive_line(alloc, election, findings, &opening),
        Condition::Cover => cover_line(alloc, findings, &opening),
        Condition::C1 => c1_line(alloc, election, findings, &opening),
        Condition::C2 => c2_line(alloc, findings, &opening),
        Condition::C3 => c3_line(alloc, election, findings, &opening),
        Condition::C4 => c4_line(alloc, election, findings, &opening),
        Condition::C5 => {
            let (unit, found) = (findings.grains_per_unit, &findings.c5);
            supporter_line(alloc, election, unit, &opening, "leftovers", found)
        }
        Condition::S5 => {
            let (unit, found) = (findings.grains_per_unit, &findings.s5);
            supporter_line(alloc, election, unit, &opening, "offers", found)
        }
    }
}

// The name of a condition, as a column.
fn column(condition: Condition) -> &'static str
    ensures { result.now ≡ spec.column condition }
{
    match condition {
        Condition::Feasible => "Feasible    ",
        Condition::Exhaustive => "Exhaustive  ",
        Condition::Cover => "Cover       ",
        Condition::C1 => "C1          ",
        Condition::C2 => "C2          ",
        Condition::C3 => "C3          ",
        Condition::C4 => "C4          ",
        Condition::C5 => "C5          ",
        Condition::S5 => "S5          ",
    }
}

// How a condition is asked for that some mode leaves out.
fn how_to_ask(condition: Condition) -> &'static str
    ensures { result.now ≡ spec.how_to_ask condition }
{
    match condition {
        Condition::Exhaustive => "without --no-exhaustive",
        Condition::Cover => "with --cover",
        Condition::C5 => "without --stable",
        Condition::S5 => "with --stable",
        _ => "",
    }
}

fn feasible_line(
    alloc: Global,
    findings: &Findings,
    opening: &OpeningIf<'_>,
) -> Result<String, AllocError>
    requires unit { 10 ^ 6 ≤ (findings.now).grains_per_unit }
    ensures { IfOk result (λ line. string_bytes line ≡ opening_if (opening.now).0 (opening.now).1.now (opening.now).2.now (opening.now).3 ++ spec.outcome_told findings.now) }
{
    let unit = findings.grains_per_unit;
    let total = Amount(unit, findings.total);
    let limit = Amount(unit, findings.limit);
    format!(in alloc; "{opening}the funded projects cost {total}; the limit is {limit}")
}

fn exhaustive_line(
    alloc: Global,
    election: &Election,
    findings: &Findings,
    opening: &OpeningIf<'_>,
) -> Result<String, AllocError>
    requires unit { 10 ^ 6 ≤ (findings.now).grains_per_unit }
    requires project { FindingNamesProjects election.now (findings.now).exhaustive }
    ensures { IfOk result (λ line. string_bytes line ≡ opening_if (opening.now).0 (opening.now).1.now (opening.now).2.now (opening.now).3 ++ spec.room_told election.now findings.now) }
{
    let unit = findings.grains_per_unit;
    let found = &findings.exhaustive;
    let Some(here) = found.shown else {
        return format!(in alloc; "{opening}every project is funded");
    };
    let rest = Balance(unit, here.amount);
    let project = election.id(here.at);
    let cost = Amount(unit, here.bound);
    if found.count == 0 {
        return format!(in alloc;
            "{opening}{rest} of the limit remains; the cheapest unfunded project, {project}, costs {cost}"
        );
    }
    let others = HowMany("unfunded projects that still fit", u64::from(found.count));
    format!(in alloc;
        "{opening}{rest} of the limit remains, and project {project} costs {cost}{others}"
    )
}

fn cover_line(
    alloc: Global,
    findings: &Findings,
    opening: &OpeningIf<'_>,
) -> Result<String, AllocError>
    requires unit { 10 ^ 6 ≤ (findings.now).grains_per_unit }
    ensures { IfOk result (λ line. string_bytes line ≡ opening_if (opening.now).0 (opening.now).1.now (opening.now).2.now (opening.now).3 ++ spec.budgets_told findings.now) }
{
    let unit = findings.grains_per_unit;
    let budgets = Amount(unit, findings.budgets);
    let limit = Amount(unit, findings.limit);
    format!(in alloc; "{opening}all voter budgets come to {budgets} together; the limit is {limit}")
}

fn c1_line(
    alloc: Global,
    election: &Election,
    findings: &Findings,
    opening: &OpeningIf<'_>,
) -> Result<String, AllocError>
    requires project { IfSome (findings.now).c1.first (λ q. IsProject election.now q.1) }
    ensures { IfOk result (λ line. string_bytes line ≡ opening_if (opening.now).0 (opening.now).1.now (opening.now).2.now (opening.now).3 ++ spec.payments_told election.now (findings.now).c1.count (findings.now).c1.first) }
{
    let found = findings.c1;
    let Some((i, j)) = found.first else {
        return format!(in alloc; "{opening}no voter pays for a project that isn't on its ballot");
    };
    let project = election.id(j);
    let others = HowMany("such payments", found.count);
    format!(in alloc;
        "{opening}voter {i} pays for project {project}, which isn't on its ballot{others}"
    )
}

fn c2_line(
    alloc: Global,
    findings: &Findings,
    opening: &OpeningIf<'_>,
) -> Result<String, AllocError>
    requires unit { 10 ^ 6 ≤ (findings.now).grains_per_unit }
    ensures { IfOk result (λ line. string_bytes line ≡ opening_if (opening.now).0 (opening.now).1.now (opening.now).2.now (opening.now).3 ++ spec.spent_told findings.now) }
{
    let unit = findings.grains_per_unit;
    let found = &findings.c2;
    let Some(here) = found.shown else {
        return format!(in alloc; "{opening}there are no voters");
    };
    let voter = here.at;
    let spent = Balance(unit, here.amount);
    let budget = Amount(unit, here.bound);
    if found.count == 0 {
        return format!(in alloc;
            "{opening}voter {voter} spends most, {spent} of its budget of {budget}"
        );
    }
    let others = HowMany("voters who spend more than that", u64::from(found.count));
    format!(in alloc; "{opening}voter {voter} spends {spent} and has a budget of {budget}{others}")
}

fn c3_line(
    alloc: Global,
    election: &Election,
    findings: &Findings,
    opening: &OpeningIf<'_>,
) -> Result<String, AllocError>
    requires unit { 10 ^ 6 ≤ (findings.now).grains_per_unit }
    requires project { FindingNamesProjects election.now (findings.now).c3 }
    ensures { IfOk result (λ line. string_bytes line ≡ opening_if (opening.now).0 (opening.now).1.now (opening.now).2.now (opening.now).3 ++ spec.exactly_told election.now findings.now) }
{
    let unit = findings.grains_per_unit;
    let found = &findings.c3;
    let Some(here) = found.shown else {
        return format!(in alloc; "{opening}each funded project is paid for exactly");
    };
    let project = election.id(here.at);
    let cost = Amount(unit, here.bound);
    let paid = Balance(unit, here.amount);
    let others = HowMany("funded projects not paid exactly", u64::from(found.count));
    format!(in alloc; "{opening}project {project} costs {cost}, and {paid} is paid for it{others}")
}

fn c4_line(
    alloc: Global,
    election: &Election,
    findings: &Findings,
    opening: &OpeningIf<'_>,
) -> Result<String, AllocError>
    requires unit { 10 ^ 6 ≤ (findings.now).grains_per_unit }
    requires project { FindingNamesProjects election.now (findings.now).c4 }
    ensures { IfOk result (λ line. string_bytes line ≡ opening_if (opening.now).0 (opening.now).1.now (opening.now).2.now (opening.now).3 ++ spec.in_vain_told election.now findings.now) }
{
    let unit = findings.grains_per_unit;
    let found = &findings.c4;
    let Some(here) = found.shown else {
        return format!(in alloc; "{opening}nothing is paid for an unfunded project");
    };
    let paid = Balance(unit, here.amount);
    let project = election.id(here.at);
    let others = HowMany(
        "unfunded projects that are paid for",
        u64::from(found.count),
    );
    format!(in alloc; "{opening}{paid} is paid for project {project}, which isn't funded{others}")
}

// What an unfunded project costs, and what its supporters have left or can offer; `sums_of` says which.
fn supporter_line(
    alloc: Global,
    election: &Election,
    unit: u64,
    opening: &OpeningIf<'_>,
    sums_of: &str,
    found: &Finding,
) -> Result<String, AllocError>
    requires unit { 10 ^ 6 ≤ unit }
    requires project { FindingNamesProjects election.now found.now }
    ensures { IfOk result (λ line. string_bytes line ≡ opening_if (opening.now).0 (opening.now).1.now (opening.now).2.now (opening.now).3 ++ spec.supporters_told election.now unit sums_of.now found.now) }
{
    let Some(here) = found.shown else {
        return format!(in alloc; "{opening}every project is funded");
    };
    let project = election.id(here.at);
    let cost = Amount(unit, here.bound);
    let sum = Balance(unit, here.amount);
    if found.count == 0 {
        return format!(in alloc;
            "{opening}project {project}, the closest, costs {cost}, and its supporters' {sums_of} come to {sum}"
        );
    }
    let others = HowMany(
        "unfunded projects where that is more than the cost",
        u64::from(found.count),
    );
    format!(in alloc;
        "{opening}project {project} costs {cost}, and its supporters' {sums_of} come to {sum}{others}"
    )
}
