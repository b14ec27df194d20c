//! The tests of a refutation, one by one.
use crate::tests_of_group::{push_count, words_of};
use pb_case::{Case, Fillings};
use pb_cohesion::{RefutationFailure, RefutationVerdict};
use pb_figures::{Figure, RefutationFigures};
use pb_markup::{Page, Tag};
use pb_tables::{State, push_name};
use pb_words::{Sentence, StableWeights};

// A test of a refutation.
#[derive(Clone, Copy)]
enum Test {
    U1,
    U2,
    U3,
}

impl Test {
    const ALL: [Test; 3] = [Test::U1, Test::U2, Test::U3];

    fn of(failure: RefutationFailure) -> Test {
        match failure {
            RefutationFailure::U1(_) => Test::U1,
            RefutationFailure::U2 => Test::U2,
            RefutationFailure::U3 => Test::U3,
        }
    }

    fn letter(self) -> &'static str {
        match self {
            Test::U1 => "U1",
            Test::U2 => "U2",
            Test::U3 => "U3",
        }
    }

    fn name(self) -> Sentence {
        match self {
            Test::U1 => Sentence::NameU1,
            Test::U2 => Sentence::NameU2,
            Test::U3 => Sentence::NameU3,
        }
    }

    // What it asks, of all prices or of stable ones alone.
    fn asks(self, of_stable: bool) -> Sentence {
        match self {
            Test::U1 if of_stable => Sentence::OfStableWeights(StableWeights::AsksU1),
            Test::U1 => Sentence::AsksU1,
            Test::U2 if of_stable => Sentence::OfStableWeights(StableWeights::AsksU2),
            Test::U2 => Sentence::AsksU2,
            Test::U3 => Sentence::AsksU3,
        }
    }

    fn holds(self, figures: &RefutationFigures) -> bool {
        let findings = &figures.findings;
        match self {
            Test::U1 => findings.misplaced.count == 0,
            Test::U2 => figures.budgets_suffice(),
            Test::U3 if findings.cover == 0 => findings.at_most < findings.at_least,
            Test::U3 => findings.at_most <= findings.at_least,
        }
    }
}

/// Adds the tests of a refutation.
pub(crate) fn push_tests(page: &mut Page, case: &Case<'_>, figures: &RefutationFigures) {
    page.open(Tag::Section);
    page.element(Tag::H2, case.words.say(Sentence::Tests));
    page.open_class(Tag::Ol, "conditions");
    for test in Test::ALL {
        push_test(page, case, figures, test);
    }
    page.close();
    page.close();
}

/// Adds what the first test of a refutation that fails comes to, where one does.
pub fn push_failed_test_of_weights(page: &mut Page, case: &Case<'_>, figures: &RefutationFigures) {
    match figures.verdict {
        RefutationVerdict::Unpriceable
        | RefutationVerdict::UnpriceableUnderCover
        | RefutationVerdict::UnpriceableStable
        | RefutationVerdict::UnpriceableStableUnderCover => {}
        RefutationVerdict::Failed(failure) => push_found(page, case, figures, Test::of(failure)),
    }
}

fn push_test(page: &mut Page, case: &Case<'_>, figures: &RefutationFigures, test: Test) {
    let state = State::of(test.holds(figures));
    page.open(Tag::Li);
    push_name(
        page,
        case,
        test.name(),
        test.letter(),
        (state, words_of(state)),
    );
    page.open(Tag::Div);
    page.open(Tag::P);
    push_found(page, case, figures, test);
    page.close();
    let asks = test.asks(figures.tells_of_stable());
    page.element_class(Tag::P, "soft", case.words.say(asks));
    page.close();
    page.close();
}

// Adds what a test comes to.
fn push_found(page: &mut Page, case: &Case<'_>, figures: &RefutationFigures, test: Test) {
    match test {
        Test::U1 => push_u1(page, case, figures),
        Test::U2 => push_u2(page, case, figures),
        Test::U3 => push_u3(page, case, figures),
    }
}

fn push_u1(page: &mut Page, case: &Case<'_>, figures: &RefutationFigures) {
    let none = Fillings::none(case.words.alloc);
    let misplaced = figures.findings.misplaced;
    let Some(project) = misplaced.first else {
        return case.say(page, Sentence::FoundU1, &none);
    };
    let sentence = misplaced_row(case.is_funded(project), figures.tells_of_stable());
    let fillings = none.and_label("project", case.project(project));
    case.say(page, sentence, &fillings);
    let count = u64::from(misplaced.count);
    let sentence = Sentence::AtProjects(case.words.plural(count));
    push_count(page, case, sentence, count);
}

// What a row counts that isn't one for its project.
fn misplaced_row(is_funded: bool, of_stable: bool) -> Sentence {
    match (is_funded, of_stable) {
        (true, true) => Sentence::OfStableWeights(StableWeights::BrokenU1Funded),
        (true, false) => Sentence::BrokenU1Funded,
        (false, _) => Sentence::BrokenU1Unfunded,
    }
}

fn push_u2(page: &mut Page, case: &Case<'_>, figures: &RefutationFigures) {
    let sentence = match (Test::U2.holds(figures), figures.tells_of_stable()) {
        (true, true) => Sentence::OfStableWeights(StableWeights::FoundU2),
        (true, false) => Sentence::FoundU2,
        (false, true) => Sentence::OfStableWeights(StableWeights::BrokenU2),
        (false, false) => Sentence::BrokenU2,
    };
    let fillings = Fillings::none(case.words.alloc)
        .and_whole("counted", figures.counted())
        .and_whole("taken", figures.findings.taken);
    case.say(page, sentence, &fillings);
}

fn push_u3(page: &mut Page, case: &Case<'_>, figures: &RefutationFigures) {
    let sentence = if !Test::U3.holds(figures) {
        Sentence::BrokenU3
    } else if figures.findings.cover == 0 {
        Sentence::FoundU3
    } else {
        Sentence::FoundU3UnderCover
    };
    let fillings = Fillings::none(case.words.alloc)
        .and_money("least", Figure::PaidAtLeast)
        .and_money("most", Figure::PaidAtMost);
    case.say(page, sentence, &fillings);
}
