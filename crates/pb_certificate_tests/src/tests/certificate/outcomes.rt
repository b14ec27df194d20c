//! An outcome file for three voters and the projects a, b and c.
use pb_certificate::read_outcome;
use pb_election::Election;
use pb_samples::files::ELECTION;
use std::alloc::Global;
use std::process::Abort;
use std::test::Fail;

/// An outcome file is to fund the first two of three projects, which cost 10.
fn expect_outcome(
    rt: &impl Abort,
    alloc: Global,
    election: &Election,
    text: &[u8],
) -> Result<(), Fail> {
    let outcome = read_outcome(alloc, text, election)?;
    assert!(rt; outcome.fits(election) && election.projects() == 3);
    assert!(rt; outcome.has(1) && outcome.has(2) && !outcome.has(3));
    assert_eq!(rt; outcome.total(), 10_000_000);
    Ok(())
}

/// With blanks, an empty line and an empty field at the end.
#[test]
fn outcome_is_read_in_any_order_with_its_cost(rt: HostRuntime) -> Result<(), Fail> {
    let election = Election::read(rt.alloc(), ELECTION.as_bytes())?;
    let text = b" pb-outcome,1 \n\n,\nproject,b,\nproject, a\n";
    expect_outcome(&rt, rt.alloc(), &election, text)
}
