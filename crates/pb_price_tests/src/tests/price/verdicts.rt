//! The verdicts of both calls, with answers that were worked out by hand, and the steps that one of them takes.
ghost use Rattle.pb_election.specs.Outcome.{OutcomeFits};

use pb_certificate::Prices;
use pb_election::{Election, Outcome};
use pb_price::{Checked, Failure, Mode, Verdict, check, check_rows};
use pb_samples::files::{ELECTION, NO_MONEY, PRICES, certificate};
use std::alloc::{AllocError, Global};
use std::process::Abort;
use std::test::Fail;

/// What both calls answer for prices of 4 for each voter in the plain form.
fn both(
    alloc: Global,
    election: &Election,
    outcome: &Outcome,
    rows: &str,
) -> Result<[Verdict; 2], Fail>
    requires { OutcomeFits outcome.now election.now }
{
    let text = certificate(alloc, "1", "4", rows)?;
    let prices = Prices::read(alloc, text.as_bytes(), election)?;
    let verdict = check(alloc, election, outcome, &prices, Mode::PLAIN)?;
    let checked = check_rows(alloc, election, outcome, text.as_bytes(), Mode::PLAIN)?;
    Ok([verdict, checked.verdict])
}

/// Rows, and the verdict on them: each condition in its order, with its first culprit.
const SAMPLES: &[(&str, Verdict)] = &[
    ("1,a,2\n1,b,2\n2,a,4\n3,b,2\n", Verdict::Supported),
    // A payment of 0 is no culprit.
    ("1,a,2\n1,b,2\n1,c,0\n2,a,4\n3,b,2\n", Verdict::Supported),
    // Rows of one voter in falling order of projects.
    ("2,c,1\n2,b,1\n", Verdict::Failed(Failure::C1(2, 2))),
    // The first voter over its budget, though all approve what they pay for.
    ("1,a,2\n2,a,5\n3,b,5\n", Verdict::Failed(Failure::C2(2))),
    // A funded project paid for too much, before an unfunded one that is paid for.
    (
        "1,a,2\n1,b,2\n2,a,4\n3,b,3\n3,c,1\n",
        Verdict::Failed(Failure::C3(2)),
    ),
    (
        "1,a,2\n1,b,2\n2,a,4\n3,b,2\n3,c,1\n",
        Verdict::Failed(Failure::C4(3)),
    ),
];

/// Both calls are to answer the verdict of each sample.
fn expect_verdicts(
    rt: &impl Abort,
    alloc: Global,
    election: &Election,
    samples: &[(&str, Verdict)],
) -> Result<(), Fail> {
    let outcome = Outcome::selected(alloc, election)?;
    for (rows, want) in samples {
        assert_eq!(rt; both(alloc, election, &outcome, rows)?, [*want, *want]);
    }
    Ok(())
}

#[test]
fn both_calls_name_the_same_first_culprit(rt: HostRuntime) -> Result<(), Fail> {
    let election = Election::read(rt.alloc(), ELECTION.as_bytes())?;
    expect_verdicts(&rt, rt.alloc(), &election, SAMPLES)
}

/// An election of so many projects, each past its limit of 0, and of so many voters who approve of none.
fn empty_ballots(alloc: Global, projects: u32, voters: u32) -> Result<String, AllocError> {
    let mut text = String::from_str(
        alloc,
        "META\nkey;value\nbudget;0\nvote_type;approval\nPROJECTS\nproject_id;cost;selected\n",
    )?;
    for project in 0..projects {
        writeln!(text, "p{project};1;0")?;
    }
    text.push_str("VOTES\nvoter_id;vote\n")?;
    for _ in 0..voters {
        text.push_str("v;\n")?;
    }
    Ok(text)
}

/// What the second call answers for prices and the outcome that an election states.
fn checked_for(
    alloc: Global,
    election: &Election,
    prices: &str,
    mode: Mode,
) -> Result<Checked, Fail> {
    let outcome = Outcome::selected(alloc, election)?;
    Ok(check_rows(alloc, election, &outcome, prices.as_bytes(), mode)?)
}

/// The same of their texts.
fn checked_texts(
    alloc: Global,
    (election, prices): (&str, &str),
    mode: Mode,
) -> Result<Checked, Fail> {
    let election = Election::read(alloc, election.as_bytes())?;
    checked_for(alloc, &election, prices, mode)
}

/// Prices are to support an outcome, which is found in at least and at most so many steps.
fn expect_steps(
    rt: &impl Abort,
    alloc: Global,
    texts: (&str, &str),
    mode: Mode,
    least: u64,
    most: u64,
) -> Result<(), Fail> {
    let checked = checked_texts(alloc, texts, mode)?;
    assert_eq!(rt; checked.verdict, Verdict::Supported);
    assert!(rt; least <= checked.steps && checked.steps <= most);
    Ok(())
}

/// At least a step for each row and each voter, and at most two for each approval and four for each project more: steps
/// don't grow with voters times projects.
#[test]
fn steps_are_counted(rt: HostRuntime) -> Result<(), Fail> {
    for mode in [Mode::PLAIN, Mode::STABLE] {
        expect_steps(&rt, rt.alloc(), (ELECTION, PRICES), mode, 7, 29)?;
    }
    for (projects, voters, least, most) in [
        (2_000, 10_000, 10_000, 18_000),
        (20_000, 1_000_000, 1_000_000, 1_080_000),
    ] {
        let election = empty_ballots(rt.alloc(), projects, voters)?;
        expect_steps(
            &rt,
            rt.alloc(),
            (&election, NO_MONEY),
            Mode::PLAIN,
            least,
            most,
        )?;
    }
    Ok(())
}

/// A condition that fails is to be told so.
fn expect_told(
    rt: &impl Abort,
    failure: Failure,
    number: u32,
    name: &str,
    voter: Option<u32>,
    project: Option<u32>,
) {
    let failed = failure.failed_at();
    assert_eq!(rt; failed.number, number);
    assert!(rt; failed.name == name);
    assert_eq!(rt; failed.voter, voter);
    assert_eq!(rt; failed.project, project);
}

#[test]
fn failing_conditions_are_told_by_number_and_name(rt: HostRuntime) -> Result<(), Fail> {
    expect_told(&rt, Failure::Feasible, 1, "Feasible", None, None);
    expect_told(&rt, Failure::Exhaustive(5), 2, "Exhaustive", None, Some(5));
    expect_told(&rt, Failure::Cover, 3, "Cover", None, None);
    expect_told(&rt, Failure::C1(3, 5), 4, "C1", Some(3), Some(5));
    expect_told(&rt, Failure::C2(3), 5, "C2", Some(3), None);
    expect_told(&rt, Failure::C3(5), 6, "C3", None, Some(5));
    expect_told(&rt, Failure::C4(5), 7, "C4", None, Some(5));
    expect_told(&rt, Failure::C5(5), 8, "C5", None, Some(5));
    expect_told(&rt, Failure::S5(5), 9, "S5", None, Some(5));
    Ok(())
}
