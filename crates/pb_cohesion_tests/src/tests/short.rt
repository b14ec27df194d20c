//! Groups that fall short: verdicts, the figures behind them, and members.
ghost use Rattle.std.specs.Prelude.{All, IfOk};
ghost use Rattle.pb_cohesion.specs.Shown.{AreSmall};

use pb_certificate::Measure;
use pb_cohesion::{
    GroupFigures, GroupsVerdict, check_groups, first_short, group_figures, members_up_to, shown_of,
};
use pb_election::{Election, Outcome};
use pb_samples::files::{ELECTION, NO_VOTERS, town};
use std::alloc::{AllocError, Global};
use std::process::Abort;
use std::test::Fail;

/// The limit, the projects and the ballots of an election.
type Town = (&'static str, &'static str, &'static str);

/// An election, and the project and the number of voters that are named, if any.
type Sample = (Town, Option<(u32, u32)>);

/// Two voters got one project for 2, and want another one for 3.
const TWO_WANT_Y: &str = "x;2;1 y;3;0";

/// Three of five want both, one got x, and one has an empty ballot.
const THREE_OF_FIVE: &str = "x,y x,y x,y x -";

/// Two voters got nothing, and one got the dear project.
const TWO_GOT_NOTHING: &str = "y y x,y x";

const BY_COST: &[Sample] = &[
    (("10", TWO_WANT_Y, "x,y x,y"), Some((2, 2))),
    // Their share is all of the limit, which is as much as they need.
    (("5", TWO_WANT_Y, "x,y x,y"), Some((2, 2))),
    (("4.999999", TWO_WANT_Y, "x,y x,y"), None),
    (("10", TWO_WANT_Y, THREE_OF_FIVE), Some((2, 3))),
    (("8.333334", TWO_WANT_Y, THREE_OF_FIVE), Some((2, 3))),
    // The voter with an empty ballot counts too.
    (("8.333333", TWO_WANT_Y, THREE_OF_FIVE), None),
    (("12", "x;6;1 y;2;0", TWO_GOT_NOTHING), Some((2, 3))),
    // With the third voter, who got 8, they would need 10, and have 9.
    (("12", "x;8;1 y;2;0", TWO_GOT_NOTHING), Some((2, 2))),
    // One alone has too little, and all three together enough.
    (("12", "x;1;1 y;5;0", "y x,y x,y x"), Some((2, 3))),
    (("7", "x;1;1 y;5;0", "y x,y x,y x"), None),
    // The first unfunded project isn't named, nor a later one with fewer voters.
    (
        ("12", "x;6;1 z;13;0 y;2;0 w;1;0", "w,y,z y,z x,y,z,w x"),
        Some((3, 3)),
    ),
    // In the order of the file the first two would have enough by what the second got.
    (("7", "x;4;1 y;2;0 z;0;1", "x,y y,z y,x z"), None),
    // What the ballot funds is what was got, not the whole ballot.
    (("10", "x;8;1 y;4;0", "x,y y"), Some((2, 1))),
    // The lowest project is named, though the group for the next is larger.
    (("12", "x;6;1 w;1;0 y;2;0", "w,y y x,y,w x"), Some((2, 1))),
    // Each got a project of its own, so what the group got together is more than what each did.
    (("8", "a;3;1 b;3;1 c;2;0", "a,c b,c"), Some((3, 2))),
    (("7", "a;3;1 b;3;1 c;2;0", "a,c b,c"), Some((3, 2))),
    (("5", "a;3;1 b;3;1 c;2;0", "a,c b,c"), Some((3, 2))),
    (("4.99", "a;3;1 b;3;1 c;2;0", "a,c b,c"), None),
    (("3", "x;1;1 y;1;1 c;2;0", "x,c y,c"), Some((3, 2))),
    (("6", "d;2;1 c;5;0", "d,c d,c"), None),
];

const BY_COUNT: &[Sample] = &[
    (("10", TWO_WANT_Y, "x,y x,y"), Some((2, 2))),
    // Each got one project, so they need the cost of y twice.
    (("6", TWO_WANT_Y, "x,y x,y"), Some((2, 2))),
    (("5.999999", TWO_WANT_Y, "x,y x,y"), None),
    // What x costs says nothing.
    (("12", "x;8;1 y;2;0", TWO_GOT_NOTHING), Some((2, 3))),
    (("10", "x;0;0 y;5;1", "x,y y"), Some((1, 1))),
    (("3", "x;1;1 y;1;1 c;2;0", "x,c y,c"), None),
    (("7", "a;3;1 b;3;1 c;2;0", "a,c b,c"), Some((3, 2))),
];

/// Elections with costs, limits or ballots at their ends.
const EXTREMES: &[Sample] = &[
    (("10", "x;0;0", "x -"), Some((1, 1))),
    (("10", "x;0;0 y;5;1", "x,y y"), Some((1, 1))),
    (("9.999999", "x;0;0 y;5;1", "x,y y"), None),
    (("0", "x;0;0", "x"), Some((1, 1))),
    (("0", "x;0.000001;0", "x"), None),
    (("10", "x;0;0", "- -"), None),
    (("10", "x;0;1", "x x"), None),
    (
        (
            "1000000000000",
            "x;1000000000000;0 y;1000000000000;1",
            "x,y",
        ),
        None,
    ),
    (
        ("1000000000000", "x;1000000000000;0 y;0;1", "x,y x"),
        Some((1, 2)),
    ),
    // More than the limit was spent, and nobody falls short.
    (("3", "d;2;1 c;5;1", "d,c d,c"), None),
];

/// The verdict on the outcome that the text of an election states.
fn verdict_on(alloc: Global, text: &str, measure: Measure) -> Result<GroupsVerdict, Fail> {
    let election = Election::read(alloc, text.as_bytes())?;
    let outcome = Outcome::selected(alloc, &election)?;
    Ok(check_groups(alloc, &election, &outcome, measure)?)
}

/// The verdict that names this project and so many voters, or none.
fn verdict_of(named: Option<(u32, u32)>) -> GroupsVerdict {
    match named {
        Some((project, voters)) => GroupsVerdict::Failed { project, voters },
        None => GroupsVerdict::Satisfied,
    }
}

/// Each sample is to have its verdict.
fn expect_verdicts(
    rt: &impl Abort,
    alloc: Global,
    measure: Measure,
    samples: &[Sample],
) -> Result<(), Fail> {
    for ((limit, projects, ballots), named) in samples {
        let text = town(alloc, limit, projects, ballots)?;
        let got = verdict_on(alloc, &text, measure)?;
        assert!(rt; got == verdict_of(*named), "{text}{got:?}");
    }
    Ok(())
}

#[test]
fn groups_fall_short_by_cost(rt: HostRuntime) -> Result<(), Fail> {
    expect_verdicts(&rt, rt.alloc(), Measure::ByCost, BY_COST)
}

#[test]
fn groups_fall_short_by_count(rt: HostRuntime) -> Result<(), Fail> {
    expect_verdicts(&rt, rt.alloc(), Measure::ByCount, BY_COUNT)
}

#[test]
fn ends_of_costs_limits_and_ballots(rt: HostRuntime) -> Result<(), Fail> {
    expect_verdicts(&rt, rt.alloc(), Measure::ByCost, EXTREMES)
}

/// In the sample election voter 3 got the library for 4, and wants the pool for 9. Its share of the limit is 3 1/3.
#[test]
fn sample_election_and_one_without_voters_satisfy(rt: HostRuntime) -> Result<(), Fail> {
    for text in [ELECTION, NO_VOTERS] {
        for measure in [Measure::ByCost, Measure::ByCount] {
            let got = verdict_on(rt.alloc(), text, measure)?;
            assert_eq!(rt; got, GroupsVerdict::Satisfied);
        }
    }
    Ok(())
}

/// The number of votes that a file states doesn't count.
#[test]
fn stated_number_of_votes_says_nothing(rt: HostRuntime) -> Result<(), Fail> {
    let text = town(rt.alloc(), "5", TWO_WANT_Y, "x,y x,y")?;
    let text = text.replace(rt.alloc(), "vote_type", "num_votes;3\nvote_type")?;
    let got = verdict_on(rt.alloc(), &text, Measure::ByCost)?;
    assert_eq!(rt; got, verdict_of(Some((2, 2))));
    Ok(())
}

/// One voter got 19 projects that cost 10^12 each, in millionths more than 64 bits hold, and has a limit of 10^12.
#[test]
fn amounts_need_more_than_64_bits(rt: HostRuntime) -> Result<(), Fail> {
    let mut projects = String::from_str(rt.alloc(), "y;0.5;0")?;
    let mut ballot = String::from_str(rt.alloc(), "y")?;
    for k in 0..19 {
        write!(projects, " p{k};1000000000000;1")?;
        write!(ballot, ",p{k}")?;
    }
    let text = town(rt.alloc(), "1000000000000", &projects, &ballot)?;
    let got = verdict_on(rt.alloc(), &text, Measure::ByCost)?;
    assert_eq!(rt; got, GroupsVerdict::Satisfied);
    Ok(())
}

/// The verdict on the sample of two voters, where these of its two projects are funded.
fn verdict_on_funded(alloc: Global, funded: [bool; 2]) -> Result<GroupsVerdict, Fail> {
    let text = town(alloc, "10", TWO_WANT_Y, "x,y x,y")?;
    let election = Election::read(alloc, text.as_bytes())?;
    let mut marks = Vec::new(alloc);
    for mark in funded {
        marks.push(mark)?;
    }
    if election.projects() as usize != marks.len() {
        return Err(Fail::new(format_args!("{}", election.projects())));
    }
    let outcome = Outcome::of(marks, &election);
    Ok(check_groups(alloc, &election, &outcome, Measure::ByCost)?)
}

#[test]
fn outcome_that_is_given_counts(rt: HostRuntime) -> Result<(), Fail> {
    for (funded, named) in [
        ([true, true], None),
        ([true, false], Some((2, 2))),
        ([false, true], Some((1, 2))),
        ([false, false], Some((1, 2))),
    ] {
        let got = verdict_on_funded(rt.alloc(), funded)?;
        assert_eq!(rt; got, verdict_of(named));
    }
    Ok(())
}

/// An election where none falls short for z, some do for y and w, and nobody wants v.
const FOUR_WANTED: Town = (
    "12",
    "x;6;1 z;13;0 y;2;0 v;1;0 w;1;0",
    "w,y,z y,z x,y,z,w x",
);

/// Figures of a project with this number: how many supporters and voters, the most and the need, and whether it is short.
fn figures(
    project: u32,
    supporters: u32,
    voters: u32,
    most: u128,
    need: u128,
    falls_short: bool,
) -> GroupFigures {
    GroupFigures {
        project,
        supporters,
        voters,
        most,
        need,
        falls_short,
    }
}

/// The figures of the outcome that an election states.
fn figures_of(alloc: Global, sample: Town, measure: Measure) -> Result<Vec<GroupFigures>, Fail>
    ensures { IfOk result (λ figures. All AreSmall figures.items) }
{
    let (limit, projects, ballots) = sample;
    let text = town(alloc, limit, projects, ballots)?;
    let election = Election::read(alloc, text.as_bytes())?;
    let outcome = Outcome::selected(alloc, &election)?;
    Ok(group_figures(alloc, &election, &outcome, measure)?)
}

#[test]
fn each_wanted_project_has_its_group(rt: HostRuntime) -> Result<(), Fail> {
    // Of z's supporters, three need 19 and so cover 3 of 19, where two cover 2 of 13. Two of w's would need 7, and have 6.
    let by_cost = [
        figures(2, 3, 3, 6_000_000, 19_000_000, false),
        figures(3, 3, 3, 6_000_000, 8_000_000, true),
        figures(5, 2, 1, 0, 1_000_000, true),
    ];
    // By counting, three of z's would need 26, and cover less of it than two of 13.
    let by_count = [
        figures(2, 3, 2, 0, 13_000_000, false),
        figures(3, 3, 3, 1, 4_000_000, true),
        figures(5, 2, 2, 1, 2_000_000, true),
    ];
    let got = figures_of(rt.alloc(), FOUR_WANTED, Measure::ByCost)?;
    assert!(rt; got.as_slice() == by_cost.as_slice(), "{got:?}");
    let got = figures_of(rt.alloc(), FOUR_WANTED, Measure::ByCount)?;
    assert!(rt; got.as_slice() == by_count.as_slice(), "{got:?}");
    Ok(())
}

/// Voter 2 alone covers 1 of 2, and all three supporters of y cover 3 of 6, which is as much. Where x costs a millionth
/// more, it is less, and where it costs a millionth less, more.
#[test]
fn closest_group_is_the_largest_of_those_as_close(rt: HostRuntime) -> Result<(), Fail> {
    let ballots = "x,y y,z y,x z";
    for (projects, want) in [
        ("x;4;1 y;2;0 z;0;1", (3, 4_000_000, 6_000_000)),
        ("x;4.000001;1 y;2;0 z;0;1", (1, 0, 2_000_000)),
        ("x;3.999999;1 y;2;0 z;0;1", (3, 3_999_999, 5_999_999)),
    ] {
        let got = figures_of(rt.alloc(), ("7", projects, ballots), Measure::ByCost)?;
        let (voters, most, need) = want;
        let want = [figures(2, 3, voters, most, need, false)];
        assert!(rt; got.as_slice() == want.as_slice(), "{got:?}");
    }
    Ok(())
}

/// Of figures, which are told: by their project.
fn told(figures: &[GroupFigures]) -> (Option<u32>, Option<u32>)
    requires { All AreSmall figures.now }
{
    (
        first_short(figures).map(|it| it.project),
        shown_of(figures).map(|it| it.project),
    )
}

/// The first project that falls short is shown, or else the closest, of several the first.
#[test]
fn one_project_is_shown(rt: HostRuntime) -> Result<(), Fail> {
    for (sample, want) in [
        (FOUR_WANTED, (Some(3), Some(3))),
        // Of 2 voters w's share covers 2 of 9, y's 1 of 4, and v's as much.
        (("3", "w;9;0 y;4;0 v;4;0", "w w y v"), (None, Some(2))),
        (("3", "v;4;0 w;9;0 y;4;0", "w w y v"), (None, Some(1))),
        (("3", "x;3;1 y;4;0", "x x"), (None, None)),
    ] {
        let got = figures_of(rt.alloc(), sample, Measure::ByCost)?;
        assert_eq!(rt; told(&got), want);
    }
    Ok(())
}

#[test]
fn verdict_is_that_of_the_first_that_falls_short(rt: HostRuntime) {
    let first = figures(5, 3, 2, 0, 1, true);
    assert_eq!(rt; GroupsVerdict::by(Some(first)), verdict_of(Some((5, 2))));
    assert_eq!(rt; GroupsVerdict::by(None), GroupsVerdict::Satisfied);
}

/// The supporters of the second project that got at most so much.
fn members_of(
    alloc: Global,
    (limit, projects, ballots): Town,
    measure: Measure,
    most: u128,
) -> Result<Vec<u32>, Fail> {
    let text = town(alloc, limit, projects, ballots)?;
    let election = Election::read(alloc, text.as_bytes())?;
    let outcome = Outcome::selected(alloc, &election)?;
    if election.projects() < 2 {
        return Err(Fail::new(format_args!("{}", election.projects())));
    }
    Ok(members_up_to(alloc, &election, &outcome, measure, 2, most)?)
}

#[test]
fn members_are_the_supporters_who_got_at_most_so_much(rt: HostRuntime) -> Result<(), Fail> {
    let sample = ("7", "x;4;1 y;2;0 z;0;1", "x,y y,z y,x z");
    for (measure, most, want) in [
        (Measure::ByCost, 0, &[2][..]),
        (Measure::ByCost, 3_999_999, &[2]),
        (Measure::ByCost, 4_000_000, &[1, 2, 3]),
        (Measure::ByCost, u128::MAX, &[1, 2, 3]),
        (Measure::ByCount, 0, &[]),
        (Measure::ByCount, 1, &[1, 2, 3]),
    ] {
        let got = members_of(rt.alloc(), sample, measure, most)?;
        assert!(rt; got.as_slice() == want, "{got:?}");
    }
    Ok(())
}

/// An election of so many voters, of whom each third got x for 3, and all want y for 1.
fn crowd(alloc: Global, limit: &str, voters: u32) -> Result<String, AllocError> {
    let mut text = town(alloc, limit, "x;3;1 y;1;0", "x,y y y")?;
    for k in 3..voters {
        text.push_str(if k % 3 == 0 { "v;x,y\n" } else { "v;y\n" })?;
    }
    Ok(text)
}

/// All together need 4, so that a limit of 4 is enough, and two thirds need 1 of a limit of 1.5.
#[test]
fn many_voters_fall_short(rt: HostRuntime) -> Result<(), Fail> {
    for (limit, want) in [
        ("4", Some((2, 30_000))),
        ("3.999999", Some((2, 20_000))),
        ("1.5", Some((2, 20_000))),
        ("1.499999", None),
    ] {
        let text = crowd(rt.alloc(), limit, 30_000)?;
        let got = verdict_on(rt.alloc(), &text, Measure::ByCost)?;
        assert_eq!(rt; got, verdict_of(want));
    }
    Ok(())
}
