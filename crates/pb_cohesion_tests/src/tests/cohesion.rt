//! Verdicts on violations and refutations, with the findings behind them, one by each call. What they are on other files
//! is tried from outside.
use pb_certificate::{Measure, Refutation, Violation};
use pb_cohesion::{
    Cost, Count, FailedAt, MisplacedRows, MissingApprovals, RefutationFailure, RefutationFindings,
    RefutationVerdict, Satisfaction, SatisfiedMembers, ViolationFailure, ViolationFindings,
    ViolationVerdict, check_refutation, check_violation, cost_of_funded, refutation_findings,
    violation_findings,
};
use pb_election::{Election, Outcome};
use pb_samples::files::{DEAR_ELECTION, ELECTION, REFUTATION, SMALL_SHARE_ELECTION, VIOLATION};
use std::alloc::Global;
use std::process::Abort;
use std::test::Fail;

/// What is found, and the verdict, by a measure.
type Judged = (ViolationFindings, ViolationVerdict);

/// The sample group of an election, judged by a measure.
fn judged_in<S: Satisfaction>(
    alloc: Global,
    election: &Election,
    measure: &S,
) -> Result<Judged, Fail> {
    let outcome = Outcome::selected(alloc, election)?;
    let violation = Violation::read(alloc, VIOLATION.as_bytes(), election)?;
    Ok((
        violation_findings(election, &outcome, &violation, measure),
        check_violation(election, &outcome, &violation, measure),
    ))
}

/// Voters 1 and 2, who demand two projects for 2 each, and get one for 8, judged by a measure.
fn judged<S: Satisfaction>(alloc: Global, measure: &S) -> Result<Judged, Fail> {
    let election = Election::read(alloc, SMALL_SHARE_ELECTION.as_bytes())?;
    judged_in(alloc, &election, measure)
}

/// The certificate counts, and yet a caller may judge it by cost.
#[test]
fn group_is_judged_by_the_measure_that_is_given(rt: HostRuntime) -> Result<(), Fail> {
    let counted = ViolationFindings {
        members: 2,
        cost: 4_000_000,
        unapproved: MissingApprovals {
            first: None,
            count: 0,
        },
        demanded: 2,
        satisfied: SatisfiedMembers {
            first: None,
            count: 0,
        },
        gets: 1,
    };
    let by_cost = ViolationFindings {
        demanded: 4_000_000,
        satisfied: SatisfiedMembers {
            first: Some(1),
            count: 2,
        },
        gets: 8_000_000,
        ..counted
    };
    let counted = (counted, ViolationVerdict::Violation);
    let by_cost = (by_cost, ViolationVerdict::Failed(ViolationFailure::V4(1)));
    for (found, want) in [
        (judged(rt.alloc(), &Count)?, counted),
        (judged(rt.alloc(), &Measure::ByCount)?, counted),
        (judged(rt.alloc(), &Cost)?, by_cost),
        (judged(rt.alloc(), &Measure::ByCost)?, by_cost),
    ] {
        assert_eq!(rt; found, want);
    }
    Ok(())
}

/// The second of two projects is to be worth 1 where projects are counted, and else its cost of 6.
fn expect_worths(rt: &impl Abort, election: &Election) {
    assert_eq!(rt; election.projects(), 2);
    let counted = [
        Count.worth(election, 2),
        Measure::ByCount.worth(election, 2),
    ];
    let by_cost = [Cost.worth(election, 2), Measure::ByCost.worth(election, 2)];
    assert_eq!(rt; (counted, by_cost), ([1, 1], [6_000_000, 6_000_000]));
}

#[test]
fn project_is_worth_one_or_its_cost(rt: HostRuntime) -> Result<(), Fail> {
    let election = Election::read(rt.alloc(), DEAR_ELECTION.as_bytes())?;
    expect_worths(&rt, &election);
    Ok(())
}

/// The park for 6 and the library for 4 are funded, and the pool for 9 isn't.
#[test]
fn what_is_funded_is_added_up(rt: HostRuntime) -> Result<(), Fail> {
    let election = Election::read(rt.alloc(), ELECTION.as_bytes())?;
    let outcome = Outcome::selected(rt.alloc(), &election)?;
    assert_eq!(rt; cost_of_funded(&election, &outcome), 10_000_000);
    Ok(())
}

/// Weights for three projects are to refute prices by these sums.
fn expect_refuted(rt: &impl Abort, election: &Election, outcome: &Outcome, weights: &Refutation) {
    assert!(rt; outcome.fits(election) && weights.fits(election));
    let findings = RefutationFindings {
        misplaced: MisplacedRows {
            first: None,
            count: 0,
        },
        cover: 0,
        counted: 2,
        counted_stable: None,
        taken: 2,
        at_least: 12_000_000,
        at_most: 11_000_000,
    };
    assert_eq!(rt;
        refutation_findings(election, outcome, weights, false),
        findings
    );
    let verdict = check_refutation(election, outcome, weights, false);
    assert_eq!(rt; verdict, RefutationVerdict::Unpriceable);
}

/// The sample weights are to refute prices for the outcome that an election states.
fn expect_sample_refutes(rt: &impl Abort, alloc: Global, election: &Election) -> Result<(), Fail> {
    let outcome = Outcome::selected(alloc, election)?;
    let weights = Refutation::read(alloc, REFUTATION.as_bytes(), election)?;
    expect_refuted(rt, election, &outcome, &weights);
    Ok(())
}

/// Voter 2 wants the pool alone, which costs 7. At least 12 is paid for the park, and at most 4 for the library, so that
/// more than 7 is left for the pool.
fn unpriceable_election(alloc: Global) -> Result<Election, Fail> {
    let text = ELECTION.replace(
        alloc,
        "c;9;Pool;0\nVOTES\nvoter_id;vote\n1;a,b\n2;a\n",
        "c;7;Pool;0\nVOTES\nvoter_id;vote\n1;a,b\n2;c\n",
    )?;
    Ok(Election::read(alloc, text.as_bytes())?)
}

#[test]
fn weights_refute_all_prices(rt: HostRuntime) -> Result<(), Fail> {
    let election = unpriceable_election(rt.alloc())?;
    expect_sample_refutes(&rt, rt.alloc(), &election)
}

/// A test that fails is to be told so.
fn expect_told(
    rt: &impl Abort,
    failed: FailedAt,
    number: u32,
    name: &str,
    voter: Option<u32>,
    project: Option<u32>,
) {
    assert_eq!(rt; failed.number, number);
    assert!(rt; failed.name == name);
    assert_eq!(rt; failed.voter, voter);
    assert_eq!(rt; failed.project, project);
}

#[test]
fn failing_tests_are_told_by_number_and_name(rt: HostRuntime) -> Result<(), Fail> {
    expect_told(&rt, ViolationFailure::V1.failed_at(), 11, "V1", None, None);
    expect_told(
        &rt,
        ViolationFailure::V2(3, 5).failed_at(),
        12,
        "V2",
        Some(3),
        Some(5),
    );
    expect_told(&rt, ViolationFailure::V3.failed_at(), 13, "V3", None, None);
    expect_told(
        &rt,
        ViolationFailure::V4(3).failed_at(),
        14,
        "V4",
        Some(3),
        None,
    );
    expect_told(
        &rt,
        RefutationFailure::U1(5).failed_at(),
        21,
        "U1",
        None,
        Some(5),
    );
    expect_told(&rt, RefutationFailure::U2.failed_at(), 22, "U2", None, None);
    expect_told(&rt, RefutationFailure::U3.failed_at(), 23, "U3", None, None);
    expect_told(&rt, FailedAt::short_for(5), 31, "EJR+", None, Some(5));
    Ok(())
}
