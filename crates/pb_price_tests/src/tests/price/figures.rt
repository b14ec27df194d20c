//! What each condition comes to and the figures of each project, one by each call, and the verdict that findings tell.
//! What they are on other files is tried from outside.
use pb_election::{Election, Outcome};
use pb_price::{
    Comparison, Failure, Finding, Findings, Margins, Mode, PaymentFinding, ProjectMargins, Verdict,
    findings_and_margins_of, findings_of, margins_of,
};
use pb_samples::files::{ELECTION, certificate};
use std::alloc::Global;
use std::process::Abort;
use std::test::Fail;

/// A condition that holds, of which no sums are shown.
const HOLDS: Finding = Finding {
    first: None,
    count: 0,
    shown: None,
};

/// Findings by which each condition holds, with the amounts of the sample.
const ALL_HOLD: Findings = Findings {
    grains_per_unit: 1_000_000,
    total: 10_000_000,
    limit: 10_000_000,
    voter_budget: 4_000_000,
    budgets: 12_000_000,
    exhaustive: HOLDS,
    c1: PaymentFinding {
        first: None,
        count: 0,
    },
    c2: HOLDS,
    c3: HOLDS,
    c4: HOLDS,
    c5: HOLDS,
    s5: HOLDS,
};

/// A condition that holds, with the amount against the bound at project 3.
fn holds(amount: i128) -> Finding {
    Finding {
        shown: Some(Comparison {
            at: 3,
            bound: 9_000_000,
            amount,
        }),
        ..HOLDS
    }
}

/// A condition that is false at so many places, with the amount against the bound at the first.
fn fails(at: u32, count: u32, bound: u128, amount: i128) -> Finding {
    Finding {
        first: Some(at),
        count,
        shown: Some(Comparison { at, bound, amount }),
    }
}

/// The figures of a project.
fn project(
    funded: bool,
    supporters: u32,
    cost: u128,
    paid: u128,
    left: i128,
    offer: i128,
) -> ProjectMargins {
    ProjectMargins {
        funded,
        supporters,
        cost,
        paid,
        left,
        offer,
    }
}

/// The plain form without Exhaustive.
const NOT_EXHAUSTIVE: Mode = Mode {
    exhaustive: false,
    ..Mode::PLAIN
};

fn expect_findings(rt: &impl Abort, found: &Findings) {
    let want = Findings {
        exhaustive: holds(0),
        c2: fails(2, 1, 4_000_000, 6_000_000),
        c3: fails(1, 1, 6_000_000, 8_000_000),
        c5: holds(2_000_000),
        s5: holds(2_000_000),
        ..ALL_HOLD
    };
    assert_eq!(rt; *found, want);
}

fn expect_margins(rt: &impl Abort, margins: &Margins) {
    let want = [
        project(true, 2, 6_000_000, 8_000_000, -2_000_000, 8_000_000),
        project(true, 2, 4_000_000, 4_000_000, 2_000_000, 4_000_000),
        project(false, 1, 9_000_000, 0, 2_000_000, 2_000_000),
    ];
    assert_eq!(rt; margins.grains_per_unit, 1_000_000);
    assert_eq!(rt; margins.projects.as_slice(), want.as_slice());
}

/// All three calls are to find voter 2 over its budget.
fn expect_overspent(
    rt: &impl Abort,
    alloc: Global,
    election: &Election,
    bytes: &[u8],
) -> Result<(), Fail> {
    let outcome = Outcome::selected(alloc, election)?;
    expect_findings(rt, &findings_of(alloc, election, &outcome, bytes)?);
    expect_margins(rt, &margins_of(alloc, election, &outcome, bytes)?);
    let (findings, margins) = findings_and_margins_of(alloc, election, &outcome, bytes)?;
    expect_findings(rt, &findings);
    expect_margins(rt, &margins);
    Ok(())
}

/// Voter 2 pays 6 for the park, and so 2 more than its budget, and 8 is paid for the park, which costs 6. Voters 1 and 2
/// approve the park: they have 0 and -2 left, and offer 2 and 6. Voters 1 and 3 approve the library: they have 0 and 2
/// left, and offer 2 each. Voter 3 alone approves the pool.
#[test]
fn voter_over_its_budget_is_found(rt: HostRuntime) -> Result<(), Fail> {
    let prices = certificate(rt.alloc(), "1", "4", "1,a,2\n1,b,2\n2,a,6\n3,b,2\n")?;
    let election = Election::read(rt.alloc(), ELECTION.as_bytes())?;
    expect_overspent(&rt, rt.alloc(), &election, prices.as_bytes())
}

fn expect_failure(rt: &impl Abort, findings: &Findings, mode: Mode, failure: Failure) {
    assert_eq!(rt; findings.verdict(mode), Verdict::Failed(failure));
}

/// From the last condition to the first each one is false in turn, and is told in place of those behind it.
#[test]
fn first_condition_that_is_false_is_told(rt: HostRuntime) {
    let mode = Mode {
        cover: true,
        ..Mode::PLAIN
    };
    let mut findings = ALL_HOLD;
    assert_eq!(rt; findings.verdict(mode), Verdict::Supported);
    findings.c5 = fails(9, 2, 1_000_000, 2_000_000);
    expect_failure(&rt, &findings, mode, Failure::C5(9));
    findings.c4 = fails(8, 2, 0, 2_000_000);
    expect_failure(&rt, &findings, mode, Failure::C4(8));
    findings.c3 = fails(7, 2, 1_000_000, 2_000_000);
    expect_failure(&rt, &findings, mode, Failure::C3(7));
    findings.c2 = fails(6, 2, 1_000_000, 2_000_000);
    expect_failure(&rt, &findings, mode, Failure::C2(6));
    findings.c1 = PaymentFinding {
        first: Some((4, 5)),
        count: 1,
    };
    expect_failure(&rt, &findings, mode, Failure::C1(4, 5));
    findings.budgets = 10_000_000;
    expect_failure(&rt, &findings, mode, Failure::Cover);
    findings.exhaustive = fails(3, 2, 1_000_000, 2_000_000);
    expect_failure(&rt, &findings, mode, Failure::Exhaustive(3));
    findings.total = 10_000_001;
    expect_failure(&rt, &findings, mode, Failure::Feasible);
}

/// C5 counts in the plain form alone and S5 in the stable one, and Exhaustive and Cover where they are asked for.
#[test]
fn what_the_mode_asks_for_is_told(rt: HostRuntime) {
    let findings = Findings {
        budgets: 10_000_000,
        exhaustive: fails(2, 2, 1_000_000, 2_000_000),
        c5: fails(3, 2, 1_000_000, 2_000_000),
        s5: fails(4, 2, 1_000_000, 2_000_000),
        ..ALL_HOLD
    };
    let stable_alone = Mode {
        stable: true,
        ..NOT_EXHAUSTIVE
    };
    let with_cover = Mode {
        cover: true,
        ..NOT_EXHAUSTIVE
    };
    for (mode, failure) in [
        (NOT_EXHAUSTIVE, Failure::C5(3)),
        (stable_alone, Failure::S5(4)),
        (with_cover, Failure::Cover),
        (Mode::PLAIN, Failure::Exhaustive(2)),
        (Mode::STABLE, Failure::Exhaustive(2)),
    ] {
        expect_failure(&rt, &findings, mode, failure);
    }
}
