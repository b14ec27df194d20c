//! Elections and their outcomes.
mod colliding;

use pb_election::{Election, Outcome};
use pb_samples::files::ELECTION;
use std::alloc::{AllocError, Global};
use std::process::Abort;
use std::test::Fail;

/// The limit, the counts, the columns and the projects are to be those of the sample.
fn expect_counts(rt: &impl Abort, election: &Election) {
    let counts = (election.projects(), election.voters());
    let declared = (election.declared_projects(), election.declared_votes());
    let selected = (election.other_selected(), election.has_selected());
    let unused = election.unused_columns();
    assert!(rt; unused.weight && !unused.points && unused.sign);
    assert_eq!(rt;
        (counts, declared, selected),
        ((3, 3), (Some(3), Some(3)), (0, true))
    );
    let limit = election.limit().millionths();
    let costs = [election.cost(1).millionths(), election.cost(3).millionths()];
    assert_eq!(rt; (limit, costs), (10_500_000, [6_000_000, 9_000_000]));
    let ids = [election.id(1), election.id(3)];
    let places = [election.find("b"), election.find("B")];
    assert_eq!(rt; (ids, places), (["a", "c"], [Some(2), None]));
}

/// Voter 1 is to approve projects 1 and 2, voter 2 none, and voter 3 projects 2 and 3.
fn expect_ballots(rt: &impl Abort, election: &Election) {
    assert!(rt; election.voters() == 3 && election.projects() == 3);
    assert!(rt; election.ballot(1) == [1, 2].as_slice());
    assert!(rt; election.ballot(2).is_empty());
    assert!(rt; election.ballot(3) == [2, 3].as_slice());
    assert!(rt; election.approves(1, 2) && !election.approves(2, 1));
}

/// An outcome of three projects is to have these marks on the first and the third, and this cost in millionths.
fn expect_outcome(
    rt: &impl Abort,
    election: &Election,
    outcome: &Outcome,
    marks: [bool; 2],
    total: u128,
) {
    assert!(rt; outcome.fits(election) && election.projects() == 3);
    assert_eq!(rt; [outcome.has(1), outcome.has(3)], marks);
    assert_eq!(rt; outcome.total(), total);
}

/// The outcome that funds the third of three projects alone.
fn third_alone(rt: &impl Abort, alloc: Global, election: &Election) -> Result<Outcome, AllocError> {
    let marks = Vec::from_slice(alloc, &[false, false, true])?;
    assert!(rt; election.projects() == 3);
    Ok(Outcome::of(marks, election))
}

/// Both outcomes are to have the marks and the cost that they state.
fn expect_outcomes(rt: &impl Abort, alloc: Global, election: &Election) -> Result<(), Fail> {
    let selected = Outcome::selected(alloc, election)?;
    expect_outcome(rt, election, &selected, [true, false], 10_000_000);
    let third = third_alone(rt, alloc, election)?;
    expect_outcome(rt, election, &third, [false, true], 9_000_000);
    Ok(())
}

/// The sample election with a limit of 10.5, with columns that weigh votes, and with ballots that name projects in any
/// order, some twice.
fn untidy_election(alloc: Global) -> Result<String, AllocError> {
    let limit = ELECTION.replace(alloc, "budget;10", "budget;10,5")?;
    let votes = "SIGN;vote;weight\n1;a, a,,b \n2;;9\n3;c,b,c;0\n";
    limit.replace(alloc, "voter_id;vote\n1;a,b\n2;a\n3;b,c\n", votes)
}

/// Ballots are put in order once each.
#[test]
fn election_is_read_as_its_file_states_it(rt: HostRuntime) -> Result<(), Fail> {
    let text = untidy_election(rt.alloc())?;
    let election = Election::read(rt.alloc(), text.as_bytes())?;
    expect_counts(&rt, &election);
    expect_ballots(&rt, &election);
    expect_outcomes(&rt, rt.alloc(), &election)
}
