//! The answer on a page.
use super::{page, page_in};
use pb_cohesion::{RefutationFailure, ViolationFailure};
use pb_page::Language;
use pb_price::Mode;
use pb_reply::{Status, Unmet};
use pb_samples::files::{ELECTION, FAIR_VIOLATION, PRICES};
use std::test::Fail;

#[test]
fn answer_has_its_line_and_its_language(rt: HostRuntime) -> Result<(), Fail> {
    for (certificate, language, start, line, status) in [
        (
            PRICES,
            Language::English,
            "<!DOCTYPE html>\n<html lang=\"en\">",
            "<code>supported priceable</code>",
            Status::Yes,
        ),
        (
            FAIR_VIOLATION,
            Language::Polish,
            "<!DOCTYPE html>\n<html lang=\"pl\">",
            "<code>failed V4 voter 1</code>",
            Status::No(Unmet::Violation(ViolationFailure::V4(1))),
        ),
    ] {
        let (text, ends) = page(rt.alloc(), ELECTION, b"c.csv", certificate, language)?;
        assert!(rt;
            text.starts_with(start) && text.contains(line) && ends == status,
            "{text}"
        );
    }
    Ok(())
}

// Both voters approve a, which is funded, and c, which isn't.
const OFFERS: &str = "\
META
key;value
budget;10
vote_type;approval
PROJECTS
project_id;cost;selected
a;4;1
c;1;0
VOTES
voter_id;vote
1;a,c
2;a,c
";

// Weights that refute stable prices alone: budgets count 4 times by all prices, and 2 times by stable ones.
const WEIGHTS: &str = "\
pb-refutation,1
cover,0
role,project,weight
least,a,1
left,c,1
";

#[test]
fn weights_refute_what_is_asked_about(rt: HostRuntime) -> Result<(), Fail> {
    for (stable, answer, line, status) in [
        (
            false,
            "<h2>This certificate doesn’t prove that no prices can support this outcome</h2>",
            "<code>failed U2</code>",
            Status::No(Unmet::Refutation(RefutationFailure::U2)),
        ),
        (
            true,
            "<h2>No stable prices can support this outcome</h2>",
            "<code>unpriceable stable</code>",
            Status::Yes,
        ),
    ] {
        let mode = Mode {
            stable,
            ..Mode::PLAIN
        };
        let (text, ends) = page_in(
            rt.alloc(),
            mode,
            OFFERS,
            b"c.csv",
            WEIGHTS,
            Language::English,
        )?;
        assert!(rt;
            text.contains(answer) && text.contains(line) && ends == status,
            "{text}"
        );
    }
    Ok(())
}

#[test]
fn refusal_is_a_line(rt: HostRuntime) -> Result<(), Fail> {
    let certificate = "pb-prices,2\n";
    let (text, status) = page(
        rt.alloc(),
        ELECTION,
        b"c.csv",
        certificate,
        Language::German,
    )?;
    let line = "refused certificate 21 BadHead record 1\n";
    assert!(rt;
        text.as_str() == line && matches!(status, Status::Refused(_)),
        "{text}"
    );
    Ok(())
}
