//! Refutations for three voters and the projects a, b and c.
use pb_certificate::{Refutation, Role};
use pb_election::Election;
use pb_samples::files::{ELECTION, NO_VOTERS, REFUTATION};
use std::alloc::Global;
use std::process::Abort;
use std::test::Fail;

/// The roles of the three projects, and their weights.
type Weights = [(Option<Role>, u64); 3];

/// A text, and the weights of Cover and of the three projects.
type Sample = (&'static str, u64, Weights);

/// The weights of the sample refutation.
const SAMPLE: Weights = [
    (Some(Role::Least), 2),
    (Some(Role::Most), 1),
    (Some(Role::Left), 1),
];

/// As it should be, in another order, with blanks, quotes, an empty line and empty fields at the end, and the limits.
const SAMPLES: &[Sample] = &[
    (REFUTATION, 0, SAMPLE),
    (
        "\u{FEFF} pb-refutation ,1,\n,\ncover, 000\nrole,project,weight,,\n\"most\", b,1\n\nleast,a,02\nleft,c,1",
        0,
        SAMPLE,
    ),
    (
        "pb-refutation,1\ncover,1000000000000\nrole,project,weight\nmost,c,0\nleft,b,1000000000000\n",
        1_000_000_000_000,
        [
            (None, 0),
            (Some(Role::Left), 1_000_000_000_000),
            (Some(Role::Most), 0),
        ],
    ),
    (
        "pb-refutation,1\ncover,1\nrole,project,weight\n",
        1,
        [(None, 0); 3],
    ),
];

/// A refutation is to have these weights of Cover and of the three projects, by their roles.
fn expect_weights(rt: &impl Abort, refutation: &Refutation, cover: u64, weights: Weights) {
    assert_eq!(rt; refutation.cover(), cover);
    let found = [
        (refutation.role(1), refutation.weight(1)),
        (refutation.role(2), refutation.weight(2)),
        (refutation.role(3), refutation.weight(3)),
    ];
    assert_eq!(rt; found, weights);
}

/// Each text is to be read as a refutation of three projects with its weights.
fn expect_read(
    rt: &impl Abort,
    alloc: Global,
    election: &Election,
    samples: &[Sample],
) -> Result<(), Fail> {
    for (text, cover, weights) in samples {
        let refutation = Refutation::read(alloc, text.as_bytes(), election)?;
        assert!(rt; refutation.fits(election));
        expect_weights(rt, &refutation, *cover, *weights);
    }
    Ok(())
}

/// A project without a row has the weight 0 and no role, and one with a row of weight 0 has a role.
#[test]
fn refutation_is_read_in_any_order_with_its_weights(rt: HostRuntime) -> Result<(), Fail> {
    let election = Election::read(rt.alloc(), ELECTION.as_bytes())?;
    expect_read(&rt, rt.alloc(), &election, SAMPLES)
}

/// Whether a refutation fits the election of a text.
fn fits(alloc: Global, refutation: &Refutation, text: &str) -> Result<bool, Fail> {
    let election = Election::read(alloc, text.as_bytes())?;
    Ok(refutation.fits(&election))
}

/// What is read for an election is not to fit one of another number of projects.
fn expect_misfit(rt: &impl Abort, alloc: Global, election: &Election) -> Result<(), Fail> {
    let refutation = Refutation::read(alloc, REFUTATION.as_bytes(), election)?;
    assert!(rt; !fits(alloc, &refutation, NO_VOTERS)?);
    Ok(())
}

#[test]
fn refutation_fits_as_many_projects(rt: HostRuntime) -> Result<(), Fail> {
    let election = Election::read(rt.alloc(), ELECTION.as_bytes())?;
    expect_misfit(&rt, rt.alloc(), &election)
}
