//! Refutations of stable prices, and those of all prices where stable ones are asked about.
use pb_certificate::Refutation;
use pb_cohesion::{
    MisplacedRows, RefutationFailure, RefutationFindings, RefutationVerdict, check_refutation,
    refutation_findings,
};
use pb_election::{Election, Outcome};
use pb_samples::files::{refutation, town};
use std::alloc::Global;
use std::process::Abort;
use std::test::Fail;

/// The limit, the projects and the ballots of an election, and the weight of Cover and the rows of a refutation.
type Files = (
    &'static str,
    &'static str,
    &'static str,
    &'static str,
    &'static str,
);

const STABLE: RefutationVerdict = RefutationVerdict::UnpriceableStable;

const STABLE_UNDER_COVER: RefutationVerdict = RefutationVerdict::UnpriceableStableUnderCover;

const U2: RefutationVerdict = RefutationVerdict::Failed(RefutationFailure::U2);

const U3: RefutationVerdict = RefutationVerdict::Failed(RefutationFailure::U3);

/// Two funded projects, of which one voter wants both and c, and another one d alone.
const D_ALONE: &str = "a;2;1 b;2;1 c;2;0 d;2;0";

/// Refutations of stable prices, none of which refutes all prices.
const STABLE_ALONE: &[(Files, RefutationVerdict)] = &[
    (
        ("10", "a;4;1 c;1;0", "a,c a,c", "0", "least,a,1 left,c,1"),
        STABLE,
    ),
    (
        ("10", "a;4;1 c;4;0", "a,c a,c", "0", "least,a,1 left,c,1"),
        U3,
    ),
    (
        (
            "10",
            "a;4;1 c;3.999999;0",
            "a,c a,c",
            "0",
            "least,a,1 left,c,1",
        ),
        STABLE,
    ),
    (
        (
            "10",
            "a;4;1 b;4;1 c;3;0",
            "a,b,c a,b,c",
            "0",
            "least,a,1 least,b,1 left,c,2",
        ),
        STABLE,
    ),
    (
        (
            "10",
            "a;4;1 b;4;1 c;4;0",
            "a,b,c a,b,c",
            "0",
            "least,a,1 least,b,1 left,c,2",
        ),
        U3,
    ),
    // Under Cover as much is enough.
    (
        ("10", "a;4;1 c;4;0", "a,c a,c", "1", "least,a,2 left,c,4"),
        STABLE_UNDER_COVER,
    ),
    (
        ("10", "a;4;1 c;4;0", "a,c a,c", "2", "least,a,2 left,c,4"),
        U2,
    ),
    (
        ("10", "a;4;1 c;4.5;0", "a,c a,c", "1", "least,a,2 left,c,4"),
        STABLE_UNDER_COVER,
    ),
    (
        (
            "10",
            "a;4;1 c;4.500001;0",
            "a,c a,c",
            "1",
            "least,a,2 left,c,4",
        ),
        U3,
    ),
    // The count for the voter of a, b and c is rounded up.
    (
        (
            "10",
            D_ALONE,
            "a,b,c d",
            "0",
            "least,a,3 least,b,2 left,c,2 left,d,1",
        ),
        U2,
    ),
    (
        (
            "10",
            D_ALONE,
            "a,b,c d",
            "0",
            "least,a,3 least,b,2 left,c,2 left,d,2",
        ),
        STABLE,
    ),
    (
        ("10", "a;4;1 c;4;0", "a,c", "2", "most,a,1 left,c,4"),
        STABLE_UNDER_COVER,
    ),
    (("10", "a;4;1 c;4;0", "a,c", "3", "most,a,1 left,c,4"), U2),
];

/// Weights for elections that have stable prices.
const NOT_REFUTED: &[Files] = &[
    // A funded project without a row counts, as often as c is missing in what is left: 2 for a and 2 left for each is
    // stable.
    ("7", "a;4;1 c;4;0", "a,c a,c", "3", "left,c,4"),
    // A voter without an unfunded project counts: the first pays 1 for a, and the second 2.
    ("3", "a;3;1 c;1;0", "a,c a", "0", "least,a,1 left,c,1"),
    // What all funded projects count is made up for, and not the largest alone: one voter pays 2 for each.
    (
        "6",
        "a;2;1 b;2;1 e;2;1 c;2;0",
        "a,b,e,c",
        "0",
        "least,a,1 least,b,1 least,e,1 left,c,2",
    ),
    // Neither all funded projects or none, nor those with a row for at least: one voter pays 2 for a and for b.
    (
        "4",
        "a;2;1 b;2;1 e;0;1 c;2;0",
        "a,b,e,c",
        "0",
        "least,a,3 least,b,2 most,e,9 left,c,2",
    ),
];

/// Two voters who want both projects, each of which costs as much as the limit.
const LARGEST: Files = (
    "1000000000000",
    "a;1000000000000;1 c;1000000000000;0",
    "a,c a,c",
    "1000000000000",
    "least,a,1000000000000 left,c,1000000000000",
);

/// The findings and the verdict for stable prices, and those for all.
type Judged = (RefutationFindings, RefutationVerdict);

fn judged(alloc: Global, files: Files, stable: bool) -> Result<Judged, Fail> {
    let (limit, projects, ballots, cover, rows) = files;
    let text = town(alloc, limit, projects, ballots)?;
    let election = Election::read(alloc, text.as_bytes())?;
    let outcome = Outcome::selected(alloc, &election)?;
    let text = refutation(alloc, cover, rows)?;
    let weights = Refutation::read(alloc, text.as_bytes(), &election)?;
    Ok((
        refutation_findings(&election, &outcome, &weights, stable),
        check_refutation(&election, &outcome, &weights, stable),
    ))
}

/// Weights are to come to this verdict where stable prices are asked about, and else to this one, by the call and by the
/// findings.
fn expect_verdicts(
    rt: &impl Abort,
    alloc: Global,
    files: Files,
    for_stable: RefutationVerdict,
    for_all: RefutationVerdict,
) -> Result<(), Fail> {
    for (stable, want) in [(true, for_stable), (false, for_all)] {
        let (findings, verdict) = judged(alloc, files, stable)?;
        assert!(rt; verdict == want, "{files:?} {verdict:?}");
        assert_eq!(rt; findings.verdict(), want);
        assert_eq!(rt; findings.counted_stable.is_some(), stable);
    }
    Ok(())
}

#[test]
fn weights_refute_stable_prices_alone(rt: HostRuntime) -> Result<(), Fail> {
    for (files, want) in STABLE_ALONE {
        expect_verdicts(&rt, rt.alloc(), *files, *want, U2)?;
    }
    Ok(())
}

#[test]
fn budgets_are_counted_too_often(rt: HostRuntime) -> Result<(), Fail> {
    for files in NOT_REFUTED {
        expect_verdicts(&rt, rt.alloc(), *files, U2, U2)?;
    }
    Ok(())
}

/// The limit, the projects and the ballots of an election.
type Town = (&'static str, &'static str, &'static str);

/// Voter 2 wants the pool alone.
const WANTING_C: Town = ("10", "a;6;1 b;4;1 c;7;0", "a,b c b,c");

/// Three of five voters want both, one got x, and one has an empty ballot.
const PASSED_OVER: Town = ("10", "x;2;1 y;3;0", "x,y x,y x,y x -");

/// Voter 1 pays 4 for a and b, so that each voter has as much, and of voter 2 at most 1 may be left for d.
const WANTING_D: Town = ("4", "a;2;1 b;2;1 e;0;1 c;2;0 d;1;0", "a,b,c d,e");

/// What is so of all prices is said though stable ones are asked about, and a row that is misplaced comes first.
#[test]
fn most_that_holds_is_said(rt: HostRuntime) -> Result<(), Fail> {
    let misplaced = RefutationVerdict::Failed(RefutationFailure::U1(1));
    for ((limit, projects, ballots), cover, rows, want) in [
        (
            WANTING_C,
            "0",
            "least,a,2 most,b,1 left,c,1",
            RefutationVerdict::Unpriceable,
        ),
        // Voter 2 counts nothing for e, and nothing for d, which isn't funded.
        (
            WANTING_D,
            "0",
            "least,a,3 least,b,2 most,e,9 left,c,2 left,d,3",
            RefutationVerdict::Unpriceable,
        ),
        (WANTING_C, "0", "left,a,2 most,b,1 least,c,1", misplaced),
        (
            PASSED_OVER,
            "3",
            "left,y,5 most,x,5",
            RefutationVerdict::UnpriceableUnderCover,
        ),
    ] {
        let files = (limit, projects, ballots, cover, rows);
        expect_verdicts(&rt, rt.alloc(), files, want, want)?;
    }
    Ok(())
}

/// Each voter counts twice where a payment of 1 + 1 counts, but once where its offer makes up for the other.
#[test]
fn findings_have_both_counts(rt: HostRuntime) -> Result<(), Fail> {
    let plain = RefutationFindings {
        misplaced: MisplacedRows {
            first: None,
            count: 0,
        },
        cover: 0,
        counted: 4,
        counted_stable: None,
        taken: 2,
        at_least: 4_000_000,
        at_most: 1_000_000,
    };
    let stable = RefutationFindings {
        counted_stable: Some(2),
        ..plain
    };
    let files = ("10", "a;4;1 c;1;0", "a,c a,c", "0", "least,a,1 left,c,1");
    for (asked, want) in [(false, plain), (true, stable)] {
        let (findings, _) = judged(rt.alloc(), files, asked)?;
        assert_eq!(rt; findings, want);
    }
    Ok(())
}

/// The largest weights and costs: the offer of each voter, which is taken 10^12 times, makes up for the other 10^12 times
/// that a payment counts. Cover counts for each voter as often.
#[test]
fn largest_weights_and_costs_are_counted(rt: HostRuntime) -> Result<(), Fail> {
    let (findings, verdict) = judged(rt.alloc(), LARGEST, true)?;
    assert_eq!(rt; verdict, U2);
    let weight = 1_000_000_000_000;
    let limit = 1_000_000_000_000_000_000;
    let want = RefutationFindings {
        misplaced: MisplacedRows {
            first: None,
            count: 0,
        },
        cover: 1_000_000_000_000,
        counted: 6 * weight,
        counted_stable: Some(4 * weight),
        taken: 2 * weight,
        at_least: 2 * weight * limit,
        at_most: weight * limit,
    };
    assert_eq!(rt; findings, want);
    Ok(())
}
