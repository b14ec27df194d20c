//! Pages about groups that fall short, worked out by hand.
use super::groups_page;
use pb_certificate::Measure;
use pb_page::Language;
use pb_reply::{Status, Unmet};
use std::test::Fail;

/// Two of the three voters who want y got nothing, and the third got x. Each of the four has 3 of the limit.
const ROAD: &str = "\
META
key;value
budget;12
vote_type;approval
PROJECTS
project_id;cost;selected
x;8;1
y;2;0
VOTES
voter_id;vote
1;y
2;y
3;x,y
4;x
";

/// Each got 1 of the two who want c, and the limit is 3.
const BENCH: &str = "\
META
key;value
budget;3
vote_type;approval
PROJECTS
project_id;cost;selected
x;1;1
y;1;1
c;2;0
VOTES
voter_id;vote
1;x,c
2;y,c
";

/// By cost 2 and 0 are no more than 6, but 2 and 8 are more than 9; by count twice 2 are no more than 9.
#[test]
fn answer_has_its_measure_and_its_language(rt: HostRuntime) -> Result<(), Fail> {
    for (election, measure, language, start, line, status) in [
        (
            ROAD,
            Measure::ByCost,
            Language::English,
            "<html lang=\"en\">",
            "<code>failed EJR+ by cost voters 2 project y</code>",
            Status::No(Unmet::Groups {
                project: 2,
                voters: 2,
            }),
        ),
        (
            ROAD,
            Measure::ByCount,
            Language::German,
            "<html lang=\"de\">",
            "<code>failed EJR+ by count voters 3 project y</code>",
            Status::No(Unmet::Groups {
                project: 2,
                voters: 3,
            }),
        ),
        (
            BENCH,
            Measure::ByCost,
            Language::French,
            "<html lang=\"fr\">",
            "<code>failed EJR+ by cost voters 2 project c</code>",
            Status::No(Unmet::Groups {
                project: 3,
                voters: 2,
            }),
        ),
        (
            BENCH,
            Measure::ByCount,
            Language::Polish,
            "<html lang=\"pl\">",
            "<code>satisfied ejr+ by count</code>",
            Status::Yes,
        ),
    ] {
        let (text, ends) = groups_page(rt.alloc(), election, None, measure, language)?;
        assert!(rt;
            text.contains(start) && text.contains(line) && ends == status,
            "{text}"
        );
    }
    Ok(())
}

/// With nothing funded, both projects have 9 or 6 of the limit, and x is the first of them.
#[test]
fn outcome_file_counts(rt: HostRuntime) -> Result<(), Fail> {
    for (outcome, line) in [
        ("pb-outcome,1\n", "failed EJR+ by cost voters 2 project x"),
        (
            "pb-outcome,1\nproject,x\nproject,y\n",
            "satisfied ejr+ by cost",
        ),
    ] {
        let (text, _) = groups_page(
            rt.alloc(),
            &ROAD.replace(rt.alloc(), "x;8;1", "x;6;1")?,
            Some(outcome),
            Measure::ByCost,
            Language::English,
        )?;
        assert!(rt; text.contains(line), "{text}");
        assert!(rt;
            text.contains(" --outcome <bdi>o.csv</bdi> --groups</code>"),
            "{text}"
        );
    }
    Ok(())
}

/// The election is taken first, and then the outcome file.
#[test]
fn first_file_is_refused(rt: HostRuntime) -> Result<(), Fail> {
    let no_outcome = ROAD.replace(rt.alloc(), "selected", "other")?;
    for (election, outcome, line) in [
        (
            "VOTES\n",
            Some("pb-outcome,2\n"),
            "refused election 2 NoMeta record 1\n",
        ),
        (
            ROAD,
            Some("pb-outcome,2\n"),
            "refused outcome 21 BadHead record 1\n",
        ),
        (
            ROAD,
            Some("pb-outcome,1\nproject,q\n"),
            "refused outcome 25 UnknownProject record 2\n",
        ),
        (
            no_outcome.as_str(),
            None,
            "refused election 17 NoOutcome record 0\n",
        ),
    ] {
        let (text, status) = groups_page(
            rt.alloc(),
            election,
            outcome,
            Measure::ByCount,
            Language::English,
        )?;
        assert!(rt;
            text.as_str() == line && matches!(status, Status::Refused(_)),
            "{text}"
        );
    }
    Ok(())
}

/// The command asks for the measure, unless it is by cost.
#[test]
fn command_asks_for_the_measure(rt: HostRuntime) -> Result<(), Fail> {
    for (measure, command) in [
        (
            Measure::ByCost,
            "pbaudit explain <bdi>t.pb</bdi> --groups</code>",
        ),
        (
            Measure::ByCount,
            "pbaudit explain <bdi>t.pb</bdi> --groups --satisfaction count</code>",
        ),
    ] {
        let (text, _) = groups_page(rt.alloc(), BENCH, None, measure, Language::English)?;
        assert!(rt; text.contains(command), "{text}");
    }
    Ok(())
}

/// The names of projects are text, also where a group is told.
#[test]
fn markup_of_a_name_is_text(rt: HostRuntime) -> Result<(), Fail> {
    let election = BENCH.replace(rt.alloc(), "c;2;0", "<i>c;2;0")?;
    let election = election.replace(rt.alloc(), ",c\n", ",<i>c\n")?;
    let (text, _) = groups_page(
        rt.alloc(),
        &election,
        None,
        Measure::ByCost,
        Language::English,
    )?;
    assert!(rt;
        !text.contains("<i>") && text.contains("voters 2 project &lt;i&gt;c"),
        "{text}"
    );
    Ok(())
}
