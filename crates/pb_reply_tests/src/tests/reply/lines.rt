//! The lines on an election and those of verdicts, with the status of each, once by each call.
use crate::tests::lines::expect_lines;
use pb_certificate::Measure;
use pb_cohesion::{
    GroupsVerdict, RefutationFailure, RefutationVerdict, ViolationFailure, ViolationVerdict,
};
use pb_election::{DecidedElection, Election, Outcome};
use pb_price::{Failure, Verdict};
use pb_reply::{
    Status, Unmet, groups_line, groups_status, price_line, price_status, push_limit_note,
    push_line, push_notes, read_line, refutation_line, refutation_status, violation_line,
    violation_status,
};
use pb_samples::files::{ELECTION, town, without_outcome};
use std::alloc::{AllocError, Global};
use std::process::Abort;
use std::test::Fail;

#[test]
fn lines_are_added_behind_a_text(rt: HostRuntime) -> Result<(), Fail> {
    let mut text = String::from_str(rt.alloc(), "read ")?;
    push_line(&mut text, "failed V3")?;
    push_line(&mut text, "")?;
    assert!(rt; text.as_str() == "read failed V3\n\n", "{text}");
    Ok(())
}

/// The lines on an election of three projects, and those of a verdict on prices and on a group.
fn lines_on(
    rt: &impl Abort,
    alloc: Global,
    election: &Election,
) -> Result<Vec<String>, AllocError> {
    assert!(rt; election.projects() == 3 && !election.has_selected());
    let mut lines = Vec::new(alloc);
    lines.push(read_line(alloc, election, None)?)?;
    push_notes(alloc, &mut lines, election)?;
    let prices = Verdict::Failed(Failure::C1(3, 1));
    lines.push(price_line(alloc, election, prices, true)?)?;
    let group = ViolationVerdict::Failed(ViolationFailure::V2(2, 3));
    lines.push(violation_line(alloc, election, group)?)?;
    assert_eq!(rt;
        [price_status(prices), violation_status(group)],
        [
            Status::No(Unmet::Prices(Failure::C1(3, 1))),
            Status::No(Unmet::Violation(ViolationFailure::V2(2, 3))),
        ]
    );
    Ok(lines)
}

/// Notes stand in their order, and a verdict has its culprit.
#[test]
fn election_and_verdicts_have_their_lines(rt: HostRuntime) -> Result<(), Fail> {
    let silent = without_outcome(rt.alloc())?;
    let counted = silent.replace(
        rt.alloc(),
        "num_projects;3\nnum_votes;3",
        "num_projects;2\nnum_votes;4",
    )?;
    let weighed = counted.replace(rt.alloc(), "voter_id;vote", "points;vote;weight")?;
    let election = Election::read(rt.alloc(), weighed.as_bytes())?;
    expect_lines(
        &rt,
        &lines_on(&rt, rt.alloc(), &election)?,
        &[
            "read 3 voters 3 projects no outcome",
            "note: num_projects says 2, counted 3",
            "note: num_votes says 4, counted 3",
            "note: column weight of VOTES is not used",
            "note: column points of VOTES is not used",
            "failed C1 voter 3 project a",
            "failed V2 voter 2 project c",
        ],
    );
    Ok(())
}

/// The lines of verdicts on weights for an election of three projects, each with its status.
fn lines_on_weights(
    rt: &impl Abort,
    alloc: Global,
    election: &Election,
) -> Result<Vec<String>, AllocError> {
    assert_eq!(rt; election.projects(), 3);
    let mut lines = Vec::new(alloc);
    for verdict in [
        RefutationVerdict::Unpriceable,
        RefutationVerdict::UnpriceableUnderCover,
        RefutationVerdict::UnpriceableStable,
        RefutationVerdict::UnpriceableStableUnderCover,
    ] {
        lines.push(refutation_line(alloc, election, verdict)?)?;
        assert_eq!(rt; refutation_status(verdict), Status::Yes);
    }
    let failure = RefutationFailure::U1(3);
    let verdict = RefutationVerdict::Failed(failure);
    lines.push(refutation_line(alloc, election, verdict)?)?;
    assert_eq!(rt;
        refutation_status(verdict),
        Status::No(Unmet::Refutation(failure))
    );
    Ok(lines)
}

#[test]
fn verdicts_on_weights_have_their_lines(rt: HostRuntime) -> Result<(), Fail> {
    let election = Election::read(rt.alloc(), ELECTION.as_bytes())?;
    expect_lines(
        &rt,
        &lines_on_weights(&rt, rt.alloc(), &election)?,
        &[
            "unpriceable",
            "unpriceable cover",
            "unpriceable stable",
            "unpriceable stable cover",
            "failed U1 project c",
        ],
    );
    Ok(())
}

/// The lines of verdicts on groups in an election of three projects, each with its status.
fn lines_on_groups(
    rt: &impl Abort,
    alloc: Global,
    election: &Election,
) -> Result<Vec<String>, AllocError> {
    assert_eq!(rt; election.projects(), 3);
    let mut lines = Vec::new(alloc);
    let failed = GroupsVerdict::Failed {
        project: 3,
        voters: 1_000_000,
    };
    let unmet = Unmet::Groups {
        project: 3,
        voters: 1_000_000,
    };
    assert_eq!(rt;
        [
            groups_status(GroupsVerdict::Satisfied),
            groups_status(failed)
        ],
        [Status::Yes, Status::No(unmet)]
    );
    for measure in [Measure::ByCost, Measure::ByCount] {
        let satisfied = GroupsVerdict::Satisfied;
        lines.push(groups_line(alloc, election, measure, satisfied)?)?;
        lines.push(groups_line(alloc, election, measure, failed)?)?;
    }
    Ok(lines)
}

#[test]
fn verdicts_on_groups_have_their_lines(rt: HostRuntime) -> Result<(), Fail> {
    let election = Election::read(rt.alloc(), ELECTION.as_bytes())?;
    expect_lines(
        &rt,
        &lines_on_groups(&rt, rt.alloc(), &election)?,
        &[
            "satisfied ejr+ by cost",
            "failed EJR+ by cost voters 1000000 project c",
            "satisfied ejr+ by count",
            "failed EJR+ by count voters 1000000 project c",
        ],
    );
    Ok(())
}

/// The notes on what the funded projects cost, where the limit is this.
fn limit_notes(alloc: Global, limit: &str) -> Result<Vec<String>, Fail> {
    let text = town(alloc, limit, "d;2;1 c;5;1 e;9;0", "d,c,e")?;
    let election = Election::read(alloc, text.as_bytes())?;
    let outcome = Outcome::selected(alloc, &election)?;
    let decided = DecidedElection::new(election, outcome);
    let mut lines = Vec::new(alloc);
    push_limit_note(alloc, &mut lines, &decided)?;
    Ok(lines)
}

#[test]
fn note_tells_of_an_outcome_over_the_limit(rt: HostRuntime) -> Result<(), Fail> {
    expect_lines(&rt, &limit_notes(rt.alloc(), "7")?, &[]);
    expect_lines(
        &rt,
        &limit_notes(rt.alloc(), "6.999999")?,
        &["note: the funded projects cost more than the limit"],
    );
    Ok(())
}
