//! The lines on a violation, once. What they are on files is tried from outside; no group of a file fails all four tests at
//! once.
use crate::tests::lines::expect_lines;
use pb_certificate::Measure;
use pb_cohesion::{MissingApprovals, SatisfiedMembers, ViolationFindings};
use pb_election::Election;
use pb_explain::push_violation_table;
use pb_samples::files::ELECTION;
use std::test::Fail;

#[test]
fn each_test_that_fails_has_its_words_and_figures(rt: HostRuntime) -> Result<(), Fail> {
    let election = Election::read(rt.alloc(), ELECTION.as_bytes())?;
    assert!(rt; election.projects() == 3);
    let findings = ViolationFindings {
        members: 0,
        cost: 500_000,
        unapproved: MissingApprovals {
            first: Some((3, 1)),
            count: 5,
        },
        demanded: 500_000,
        satisfied: SatisfiedMembers {
            first: Some(2),
            count: 4,
        },
        gets: 1_250_000,
    };
    let mut lines = Vec::new(rt.alloc());
    push_violation_table(
        rt.alloc(),
        &mut lines,
        &election,
        Measure::ByCost,
        &findings,
    )?;
    expect_lines(
        &rt,
        &lines,
        &[
            "V1          fails      0 of 3 voters are in the group",
            "V2          fails      voter 3 doesn't approve project a (such pairs of a member and a project: 5)",
            "V3          fails      the group's share of the limit is 0.00; the demanded projects cost 0.50",
            "V4          fails      by cost the demanded projects are worth 0.50, and voter 2 gets 1.25 (members who get enough: 4)",
        ],
    );
    Ok(())
}
