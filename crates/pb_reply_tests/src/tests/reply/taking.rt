//! What is taken of files and of readers.
use pb_election::{DecidedElection, Election, Input};
use pb_input::{InputName, InputRefusal};
use pb_reply::{
    AsFile, File, Given, Loaded, Unanswered, bytes_of, decided_of, election_of, take_decided,
    take_election, violation_of,
};
use pb_samples::fakes::InterruptedReader;
use pb_samples::files::{
    ELECTION, OUTCOME, POOL_OUTCOME, UNFAIR_ELECTION, VIOLATION, without_outcome,
};
use std::alloc::{AllocError, Global};
use std::process::Abort;
use std::test::Fail;

/// An input, and the number, the name and the record of what it is refused for.
type Why = (&'static str, u32, &'static str, u64);

/// What an input is refused for, where it is. An error means out of memory.
fn why<T>(taken: &Result<T, Unanswered>) -> Result<Option<Why>, AllocError> {
    match taken {
        Ok(_) => Ok(None),
        Err(Unanswered::Refused(InputRefusal { input, fault })) => {
            Ok(Some((
                input.name(),
                fault.number(),
                fault.name(),
                fault.record_number(),
            )))
        }
        Err(Unanswered::Memory) => Err(AllocError {}),
    }
}

#[test]
fn each_input_is_refused_by_its_name(rt: HostRuntime) -> Result<(), Fail> {
    for (input, name) in [
        (InputName::Election, "election"),
        (InputName::Outcome, "outcome"),
        (InputName::Certificate, "certificate"),
        (InputName::Prices, "prices"),
        (InputName::Violation, "violation"),
    ] {
        let bytes = bytes_of(input, File::in_memory(b"abc"));
        assert!(rt; matches!(bytes, Ok(b"abc")), "{name}");
        let unread = bytes_of(input, File::Unread);
        assert_eq!(rt; why(&unread)?, Some((name, 18, "Read", 0)));
        let too_long = bytes_of(input, File::TooLong);
        assert_eq!(rt; why(&too_long)?, Some((name, 19, "TooLong", 0)));
    }
    Ok(())
}

#[test]
fn file_in_memory_is_taken_whenever_its_turn_comes(rt: HostRuntime) -> Result<(), Fail> {
    let mut file = File::in_memory(b"abc");
    for _ in 0..2 {
        let taken = file.take(rt.alloc())?;
        assert!(rt; matches!(taken.as_file(), File::Bytes(b"abc")));
    }
    Ok(())
}

#[test]
fn election_is_taken_or_refused(rt: HostRuntime) -> Result<(), Fail> {
    for (file, want) in [
        (File::in_memory(ELECTION.as_bytes()), None),
        (File::in_memory(b""), Some(("election", 2, "NoMeta", 1))),
        (File::Unread, Some(("election", 18, "Read", 0))),
    ] {
        assert_eq!(rt; why(&election_of(rt.alloc(), file))?, want);
    }
    Ok(())
}

/// A violation certificate is taken as the input of this name, or refused for this.
fn expect_violation(
    rt: &impl Abort,
    alloc: Global,
    election: &Election,
    (input, file, want): (InputName, File<'_>, Option<Why>),
) -> Result<(), Fail> {
    let taken = violation_of(alloc, input, file, election);
    assert_eq!(rt; why(&taken)?, want);
    Ok(())
}

#[test]
fn violation_is_taken_or_refused_by_the_name_it_has(rt: HostRuntime) -> Result<(), Fail> {
    let election = Election::read(rt.alloc(), UNFAIR_ELECTION.as_bytes())?;
    for case in [
        (
            InputName::Certificate,
            File::in_memory(VIOLATION.as_bytes()),
            None,
        ),
        (
            InputName::Certificate,
            File::in_memory(b"pb-violation,1\nvoter,5\n"),
            Some(("certificate", 24, "UnknownVoter", 2)),
        ),
        (
            InputName::Violation,
            File::in_memory(b""),
            Some(("violation", 21, "BadHead", 1)),
        ),
    ] {
        expect_violation(&rt, rt.alloc(), &election, case)?;
    }
    Ok(())
}

/// An outcome is to fund these of the three sample projects; or it is refused for this.
fn expect_outcome(
    rt: &impl Abort,
    taken: &Result<DecidedElection, Unanswered>,
    want: Result<[bool; 3], Why>,
) -> Result<(), Fail> {
    let refusal = why(taken)?;
    assert_eq!(rt; refusal, want.err());
    if let (Ok(decided), Ok(marks)) = (taken, want) {
        let (election, outcome) = (decided.election(), decided.outcome());
        assert!(rt; outcome.fits(election) && election.projects() == 3);
        let found = [outcome.has(1), outcome.has(2), outcome.has(3)];
        assert_eq!(rt; found, marks);
    }
    Ok(())
}

/// The outcome that is audited of the election of a text, with an outcome file where one is given, is to be this.
fn expect_outcome_of(
    rt: &impl Abort,
    alloc: Global,
    text: &str,
    file: Option<File<'_>>,
    want: Result<[bool; 3], Why>,
) -> Result<(), Fail> {
    let election = Election::read(alloc, text.as_bytes())?;
    let taken = decided_of(alloc, election, file);
    expect_outcome(rt, &taken, want)
}

#[test]
fn outcome_is_that_of_the_file_and_else_the_elections_own(rt: HostRuntime) -> Result<(), Fail> {
    let alloc = rt.alloc();
    let without = without_outcome(alloc)?;
    let (own, pool) = (Ok([true, true, false]), Ok([false, false, true]));
    for (election, file, want) in [
        (ELECTION, None, own),
        (
            ELECTION,
            Some(File::in_memory(POOL_OUTCOME.as_bytes())),
            pool,
        ),
        (&without, Some(File::in_memory(OUTCOME.as_bytes())), own),
        (&without, None, Err(("election", 17, "NoOutcome", 0))),
        (
            ELECTION,
            Some(File::in_memory(b"pb-outcome,1\nproject,d\n")),
            Err(("outcome", 25, "UnknownProject", 2)),
        ),
        (
            ELECTION,
            Some(File::TooLong),
            Err(("outcome", 19, "TooLong", 0)),
        ),
    ] {
        expect_outcome_of(&rt, alloc, election, file, want)?;
    }
    Ok(())
}

/// A reader that is interrupted at the read of this number is to be read so often, and whole or not at all.
fn expect_load(
    rt: &impl Abort,
    alloc: Global,
    interrupted_at: usize,
    reads: usize,
    whole: bool,
) -> Result<(), Fail> {
    let mut reader = InterruptedReader::new("abcdef", 2, interrupted_at);
    let loaded = Loaded::load(alloc, &mut Input::new(&mut reader))?;
    let is_whole = matches!(loaded.as_file(), File::Bytes(b"abcdef"));
    let is_unread = matches!(loaded.as_file(), File::Unread);
    assert_eq!(rt; (is_whole, is_unread), (whole, !whole));
    assert_eq!(rt; reader.reads, reads);
    Ok(())
}

/// A reader that fails once is not read again, though it would go on.
#[test]
fn file_is_loaded_whole_or_not_at_all(rt: HostRuntime) -> Result<(), Fail> {
    for (interrupted_at, reads, whole) in [
        (0, 4, true),
        (1, 1, false),
        (3, 3, false),
        (4, 4, false),
    ] {
        expect_load(&rt, rt.alloc(), interrupted_at, reads, whole)?;
    }
    Ok(())
}

/// The election of a reader that is interrupted at the read of this number is to be taken, or refused for this.
fn expect_election(
    rt: &impl Abort,
    alloc: Global,
    text: &'static str,
    interrupted_at: usize,
    want: Option<Why>,
) -> Result<(), Fail> {
    let mut reader = InterruptedReader::new(text, 100, interrupted_at);
    let taken = take_election(alloc, &mut Input::new(&mut reader));
    assert_eq!(rt; why(&taken)?, want);
    Ok(())
}

#[test]
fn election_of_a_reader_is_taken_or_refused(rt: HostRuntime) -> Result<(), Fail> {
    let unread = Some(("election", 18, "Read", 0));
    for (text, interrupted_at, want) in [
        (ELECTION, 0, None),
        ("MET\n", 0, Some(("election", 2, "NoMeta", 1))),
        (ELECTION, 1, unread),
        (ELECTION, 2, unread),
    ] {
        expect_election(&rt, rt.alloc(), text, interrupted_at, want)?;
    }
    Ok(())
}

/// What is taken of an outcome file whose reader is interrupted at the read of this number.
fn taken(
    alloc: Global,
    election: Election,
    text: Option<&str>,
    interrupted_at: usize,
) -> Result<DecidedElection, Unanswered> {
    let mut file = text.map(|text| Input::new(InterruptedReader::new(text, 20, interrupted_at)));
    take_decided(alloc, election, &mut file)
}

#[test]
fn outcome_of_a_reader_is_taken_or_refused(rt: HostRuntime) -> Result<(), Fail> {
    let alloc = rt.alloc();
    for (text, interrupted_at, want) in [
        (None, 0, Ok([true, true, false])),
        (Some(POOL_OUTCOME), 0, Ok([false, false, true])),
        (Some(""), 0, Err(("outcome", 21, "BadHead", 1))),
        (Some(POOL_OUTCOME), 1, Err(("outcome", 18, "Read", 0))),
        (Some(POOL_OUTCOME), 2, Err(("outcome", 18, "Read", 0))),
    ] {
        let election = Election::read(alloc, ELECTION.as_bytes())?;
        let taken = taken(alloc, election, text, interrupted_at);
        expect_outcome(&rt, &taken, want)?;
    }
    Ok(())
}
