//! The tests of a violation, one by one.
use crate::group::{share_fillings, with_worths};
use pb_case::{Case, Fillings};
use pb_cohesion::{ViolationFailure, ViolationVerdict};
use pb_figures::ViolationFigures;
use pb_markup::{Page, Tag};
use pb_tables::{State, push_name};
use pb_words::Sentence;

// A test of a violation.
#[derive(Clone, Copy)]
enum Test {
    V1,
    V2,
    V3,
    V4,
}

impl Test {
    const ALL: [Test; 4] = [Test::V1, Test::V2, Test::V3, Test::V4];

    fn of(failure: ViolationFailure) -> Test {
        match failure {
            ViolationFailure::V1 => Test::V1,
            ViolationFailure::V2(_, _) => Test::V2,
            ViolationFailure::V3 => Test::V3,
            ViolationFailure::V4(_) => Test::V4,
        }
    }

    fn letter(self) -> &'static str {
        match self {
            Test::V1 => "V1",
            Test::V2 => "V2",
            Test::V3 => "V3",
            Test::V4 => "V4",
        }
    }

    fn name(self) -> Sentence {
        match self {
            Test::V1 => Sentence::NameV1,
            Test::V2 => Sentence::NameV2,
            Test::V3 => Sentence::NameV3,
            Test::V4 => Sentence::NameV4,
        }
    }

    fn asks(self) -> Sentence {
        match self {
            Test::V1 => Sentence::AsksV1,
            Test::V2 => Sentence::AsksV2,
            Test::V3 => Sentence::AsksV3,
            Test::V4 => Sentence::AsksV4,
        }
    }

    fn holds(self, figures: &ViolationFigures) -> bool {
        match self {
            Test::V1 => figures.findings.members != 0,
            Test::V2 => figures.findings.unapproved.count == 0,
            Test::V3 => figures.is_large_enough(),
            Test::V4 => figures.findings.satisfied.count == 0,
        }
    }
}

/// Adds the tests of a violation.
pub(crate) fn push_tests(page: &mut Page, case: &Case<'_>, figures: &ViolationFigures) {
    page.open(Tag::Section);
    page.element(Tag::H2, case.words.say(Sentence::Tests));
    page.open_class(Tag::Ol, "conditions");
    for test in Test::ALL {
        push_test(page, case, figures, test);
    }
    page.close();
    page.close();
}

/// Adds what the first test of a violation that fails comes to, where one does.
pub fn push_failed_test_of_group(page: &mut Page, case: &Case<'_>, figures: &ViolationFigures) {
    match figures.verdict {
        ViolationVerdict::Violation => {}
        ViolationVerdict::Failed(failure) => push_found(page, case, figures, Test::of(failure)),
    }
}

fn push_test(page: &mut Page, case: &Case<'_>, figures: &ViolationFigures, test: Test) {
    let state = State::of(test.holds(figures));
    page.open(Tag::Li);
    push_name(
        page,
        case,
        test.name(),
        test.letter(),
        (state, words_of(state)),
    );
    page.open(Tag::Div);
    page.open(Tag::P);
    push_found(page, case, figures, test);
    page.close();
    page.element_class(Tag::P, "soft", case.words.say(test.asks()));
    page.close();
    page.close();
}

/// What is said of a test.
pub(crate) fn words_of(state: State) -> Sentence {
    match state {
        State::Fails => Sentence::TestFails,
        State::Holds | State::NotAsked => Sentence::TestHolds,
    }
}

// Adds what a test comes to.
fn push_found(page: &mut Page, case: &Case<'_>, figures: &ViolationFigures, test: Test) {
    match test {
        Test::V1 => push_v1(page, case, figures),
        Test::V2 => push_v2(page, case, figures),
        Test::V3 => push_v3(page, case, figures),
        Test::V4 => push_v4(page, case, figures),
    }
}

fn push_v1(page: &mut Page, case: &Case<'_>, figures: &ViolationFigures) {
    let sentence = if Test::V1.holds(figures) {
        Sentence::FoundV1
    } else {
        Sentence::BrokenV1
    };
    let fillings = Fillings::none(case.words.alloc)
        .and_number("members", u64::from(figures.findings.members))
        .and_number("voters", u64::from(figures.voters));
    case.say(page, sentence, &fillings);
}

fn push_v2(page: &mut Page, case: &Case<'_>, figures: &ViolationFigures) {
    let none = Fillings::none(case.words.alloc);
    let unapproved = &figures.findings.unapproved;
    let Some((voter, project)) = unapproved.first else {
        return case.say(page, Sentence::FoundV2, &none);
    };
    let fillings = none
        .and_text("voter", case.voter(voter))
        .and_label("project", case.project(project));
    case.say(page, Sentence::BrokenV2, &fillings);
    let sentence = Sentence::AtApprovals(case.words.plural(unapproved.count));
    push_count(page, case, sentence, unapproved.count);
}

fn push_v3(page: &mut Page, case: &Case<'_>, figures: &ViolationFigures) {
    if figures.voters == 0 {
        return page.text(case.words.say(Sentence::NoVoters));
    }
    let sentence = if Test::V3.holds(figures) {
        Sentence::FoundV3
    } else {
        Sentence::BrokenV3
    };
    case.say(page, sentence, &share_fillings(case));
}

fn push_v4(page: &mut Page, case: &Case<'_>, figures: &ViolationFigures) {
    let fillings = with_worths(case, figures, "gets", "demanded");
    let satisfied = &figures.findings.satisfied;
    let Some(voter) = satisfied.first else {
        return case.say(page, Sentence::FoundV4, &fillings);
    };
    let fillings = fillings.and_text("voter", case.voter(voter));
    case.say(page, Sentence::BrokenV4, &fillings);
    let count = u64::from(satisfied.count);
    push_count(
        page,
        case,
        Sentence::AtVoters(case.words.plural(count)),
        count,
    );
}

/// Adds at how many places a test fails, where these are several.
pub(crate) fn push_count(page: &mut Page, case: &Case<'_>, sentence: Sentence, count: u64) {
    if count < 2 {
        return;
    }
    page.text(" ");
    let fillings = Fillings::none(case.words.alloc).and_number("count", count);
    case.say(page, sentence, &fillings);
}
