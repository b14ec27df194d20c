//! Violation certificates for four voters and the projects x1, x2 and y.
use pb_certificate::{Measure, Violation};
use pb_election::Election;
use pb_samples::files::{UNFAIR_ELECTION, VIOLATION};
use std::alloc::Global;
use std::process::Abort;
use std::test::Fail;

/// As it should be, and in another order, with blanks, a leading zero and an empty field at the end.
const SAMPLES: &[(&str, Measure)] = &[
    (VIOLATION, Measure::ByCount),
    (
        "pb-violation,2\n,\nsatisfaction, cost,\nvoter,02\nproject,x2,\n\nproject,x1\nvoter, 1\n",
        Measure::ByCost,
    ),
];

/// A violation is to be that of voters 1 and 2, who demand projects 1 and 2, by this measure.
fn expect_violation(rt: &impl Abort, election: &Election, violation: &Violation, measure: Measure) {
    assert!(rt; violation.fits(election));
    assert_eq!(rt; violation.satisfaction(), measure);
    assert_eq!(rt; violation.group(), [1, 2].as_slice());
    assert_eq!(rt; violation.demand(), [1, 2].as_slice());
}

/// Each text is to be read as that violation, by its measure.
fn expect_read(
    rt: &impl Abort,
    alloc: Global,
    election: &Election,
    samples: &[(&str, Measure)],
) -> Result<(), Fail> {
    for (text, measure) in samples {
        let violation = Violation::read(alloc, text.as_bytes(), election)?;
        expect_violation(rt, election, &violation, *measure);
    }
    Ok(())
}

#[test]
fn violation_is_read_in_any_order_with_its_measure(rt: HostRuntime) -> Result<(), Fail> {
    let election = Election::read(rt.alloc(), UNFAIR_ELECTION.as_bytes())?;
    expect_read(&rt, rt.alloc(), &election, SAMPLES)
}
