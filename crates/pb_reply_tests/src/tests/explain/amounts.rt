//! Amounts as texts.
use pb_election::Election;
use pb_explain::push_price_table;
use pb_price::{Comparison, Finding, Findings, Mode, PaymentFinding};
use pb_samples::files::ELECTION;
use std::alloc::Global;
use std::process::Abort;
use std::test::Fail;

/// How many grains a unit of the currency has.
const MILLION: u64 = 1_000_000;

const THIRDS: u64 = 3_000_000;

const SIXTHS: u64 = 6_000_000;

const FINEST: u64 = 1_000_000_000_000_000;

/// The most that an amount comes to, 10^33 grains, and the least, -10^34.
const MOST: i128 = 1_000_000_000_000_000_000_000_000_000_000_000;

const LEAST: i128 = -10_000_000_000_000_000_000_000_000_000_000_000;

/// A condition that holds, of which no sums are shown.
const NOTHING_SHOWN: Finding = Finding {
    first: None,
    count: 0,
    shown: None,
};

/// Findings without any amount.
const NO_AMOUNTS: Findings = Findings {
    grains_per_unit: 1_000_000,
    total: 0,
    limit: 0,
    voter_budget: 0,
    budgets: 0,
    exhaustive: NOTHING_SHOWN,
    c1: PaymentFinding {
        first: None,
        count: 0,
    },
    c2: NOTHING_SHOWN,
    c3: NOTHING_SHOWN,
    c4: NOTHING_SHOWN,
    c5: NOTHING_SHOWN,
    s5: NOTHING_SHOWN,
};

/// An amount is to be told like this, as what the supporters of project 3 have left, and, unless it is below 0, as the
/// cost of the outcome and the limit.
fn expect_amount(
    rt: &impl Abort,
    alloc: Global,
    election: &Election,
    grains_per_unit: u64,
    grains: i128,
    want: &str,
) -> Result<(), Fail> {
    assert!(rt; 1_000_000 <= grains_per_unit && election.projects() == 3);
    let (total, shown) = if grains < 0 {
        (0, "0.00")
    } else {
        (grains.unsigned_abs(), want)
    };
    let left = Comparison {
        at: 3,
        bound: 0,
        amount: grains,
    };
    let findings = Findings {
        grains_per_unit,
        total,
        limit: total,
        c5: Finding {
            shown: Some(left),
            ..NOTHING_SHOWN
        },
        ..NO_AMOUNTS
    };
    let mut lines = Vec::new(alloc);
    push_price_table(alloc, &mut lines, election, &findings, Mode::PLAIN)?;
    let feasible = format!(in alloc;
        "Feasible    holds      the funded projects cost {shown}; the limit is {shown}"
    )?;
    assert!(rt; lines.first() == Some(&feasible), "{feasible}");
    let c5 = format!(in alloc;
        "C5          holds      project c, the closest, costs 0.00, and its supporters' leftovers come to {want}"
    )?;
    assert!(rt; lines.get(7) == Some(&c5), "{c5}");
    Ok(())
}

/// Decimals have from two to six places, whatever a grain is, and fractions are in lowest terms. What is below 0 has its
/// sign in front, of a fraction too.
#[test]
fn amounts_are_decimals_or_fractions_in_lowest_terms(rt: HostRuntime) -> Result<(), Fail> {
    let election = Election::read(rt.alloc(), ELECTION.as_bytes())?;
    for (grains_per_unit, grains, want) in [
        (MILLION, 0, "0.00"),
        (MILLION, 2_600_000_000, "2600.00"),
        (MILLION, 500_000, "0.50"),
        (MILLION, 10_000, "0.01"),
        (MILLION, 123_000, "0.123"),
        (MILLION, 12_345_600, "12.3456"),
        (MILLION, 20, "0.00002"),
        (MILLION, 7_000_001, "7.000001"),
        (THIRDS, 1_500_000, "0.50"),
        (THIRDS, 3_000_000, "1.00"),
        (THIRDS, 1_000_000, "1/3"),
        (THIRDS, 38_596_000_000, "12865 1/3"),
        (THIRDS, 2, "1/1500000"),
        (SIXTHS, 2_000_000, "1/3"),
        (SIXTHS, 11_000_000, "1 5/6"),
        (FINEST, 1_000_000_000_000_000, "1.00"),
        (FINEST, 1_000_000_000, "0.000001"),
        (FINEST, 500_000_000, "1/2000000"),
        (FINEST, 1, "1/1000000000000000"),
        (MILLION, MOST, "1000000000000000000000000000.00"),
        (THIRDS, MOST, "333333333333333333333333333 1/3"),
        (FINEST, MOST, "1000000000000000000.00"),
        (MILLION, 12_500_000, "12.50"),
        (MILLION, -12_500_000, "-12.50"),
        (MILLION, -1, "-0.000001"),
        (THIRDS, -1_000_000, "-1/3"),
        (THIRDS, -38_596_000_000, "-12865 1/3"),
        (MILLION, LEAST, "-10000000000000000000000000000.00"),
    ] {
        expect_amount(&rt, rt.alloc(), &election, grains_per_unit, grains, want)?;
    }
    Ok(())
}
