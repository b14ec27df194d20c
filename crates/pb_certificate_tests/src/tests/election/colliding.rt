//! An election whose ids were made to collide is read as any other.
use pb_certificate::read_outcome;
use pb_election::{Election, ElectionFault, Refusal};
use pb_samples::colliding::{COLLIDING, election_of};
use std::alloc::{AllocError, Global};
use std::process::Abort;
use std::test::Fail;

/// A text that the hash sends to where it sends the ids, and which is the id of no project.
const NO_ID: &str = "bgcsv";

/// A vote for the last project, the 31st, the first, the 32nd and the last again.
fn vote(alloc: Global) -> Result<String, AllocError> {
    let [first, .., last] = COLLIDING;
    let (before, behind) = (COLLIDING[30], COLLIDING[31]);
    format!(in alloc; "{last},{before}, {first} ,{behind},{last}")
}

/// Each id is to be that of its project, from the first to the last, and another text of none.
fn expect_ids(rt: &impl Abort, election: &Election) {
    assert_eq!(rt; election.projects(), 60);
    for (number, id) in (1..=60u32).zip(COLLIDING.iter()) {
        assert_eq!(rt; election.find(id), Some(number));
    }
    assert_eq!(rt; election.find(NO_ID), None);
}

/// The voter is to approve these four projects.
fn expect_ballot(rt: &impl Abort, election: &Election) {
    assert!(rt; election.voters() == 1);
    assert!(rt; election.ballot(1) == [1, 31, 32, 60].as_slice());
}

/// An outcome file that names the last project and the first is to fund these.
fn expect_outcome(rt: &impl Abort, alloc: Global, election: &Election) -> Result<(), Fail> {
    let [first, .., last] = COLLIDING;
    let text = format!(in alloc; "pb-outcome,1\nproject,{last}\nproject,{first}\n")?;
    let outcome = read_outcome(alloc, text.as_bytes(), election)?;
    assert!(rt; outcome.fits(election) && election.projects() == 60);
    assert!(rt; outcome.has(1) && outcome.has(60) && !outcome.has(2) && !outcome.has(59));
    Ok(())
}

#[test]
fn ids_that_collide_are_found(rt: HostRuntime) -> Result<(), Fail> {
    let text = election_of(rt.alloc(), &COLLIDING, vote(rt.alloc())?.as_str())?;
    let election = Election::read(rt.alloc(), text.as_bytes())?;
    expect_ids(&rt, &election);
    expect_ballot(&rt, &election);
    expect_outcome(&rt, rt.alloc(), &election)
}

/// Why a text states no election, and `None` where it states one. An error means out of memory.
fn why(alloc: Global, text: &str) -> Result<Option<Refusal>, Fail> {
    match Election::read(alloc, text.as_bytes()) {
        Ok(_) => Ok(None),
        Err(refusal) if refusal.fault == ElectionFault::Memory => Err(refusal.into()),
        Err(refusal) => Ok(Some(refusal)),
    }
}

/// The election whose 59th project has this id in place of its own. Its record is the 65th.
fn election_repeating(alloc: Global, id: &str) -> Result<String, AllocError> {
    let text = election_of(alloc, &COLLIDING, "bftrd")?;
    text.replace(alloc, "beeyf", id)
}

/// The id of the first project, or of the 41st, is that of the 59th as well.
#[test]
fn repeated_id_that_collides_is_refused_where_it_stands(rt: HostRuntime) -> Result<(), Fail> {
    for repeated in ["aaipm", "atlzd"] {
        let text = election_repeating(rt.alloc(), repeated)?;
        let want = Refusal {
            fault: ElectionFault::RepeatedProject,
            record_number: 65,
        };
        assert_eq!(rt; why(rt.alloc(), text.as_str())?, Some(want));
    }
    Ok(())
}

/// The vote is the 69th record, behind 60 projects and eight more records.
#[test]
fn vote_for_no_id_is_refused_where_it_stands(rt: HostRuntime) -> Result<(), Fail> {
    let text = election_of(rt.alloc(), &COLLIDING, NO_ID)?;
    let want = Refusal {
        fault: ElectionFault::UnknownProject,
        record_number: 69,
    };
    assert_eq!(rt; why(rt.alloc(), &text)?, Some(want));
    Ok(())
}
