//! The conditions on prices, one by one.
use crate::condition::{asks_of, name_of, state_of};
use crate::found::push_found;
use crate::places::push_places;
use pb_case::Case;
use pb_figures::PriceFigures;
use pb_markup::{Page, Tag};
use pb_price::{Condition, Verdict};
use pb_tables::{State, push_name};
use pb_words::Sentence;

/// The conditions on prices.
pub(crate) fn conditions(case: &Case<'_>, figures: &PriceFigures) -> Page {
    let mut page = Page::new(case.words.alloc);
    page.open(Tag::Section);
    page.element(Tag::H2, case.words.say(Sentence::Conditions));
    page.open_class(Tag::Ol, "conditions");
    for condition in Condition::all() {
        push_condition(&mut page, case, figures, *condition);
    }
    page.close();
    page.close();
    page
}

/// Adds what the first condition that fails comes to, where one does.
pub fn push_failed_condition(page: &mut Page, case: &Case<'_>, figures: &PriceFigures) {
    let Verdict::Failed(failure) = figures.findings.verdict(case.told.mode) else {
        return;
    };
    let condition = failure.condition();
    push_found(page, case, figures, condition);
    push_places(page, case, figures, condition);
}

fn push_condition(page: &mut Page, case: &Case<'_>, figures: &PriceFigures, condition: Condition) {
    let state = state_of(condition, case.told.mode, &figures.findings);
    page.open(Tag::Li);
    push_name(
        page,
        case,
        name_of(condition),
        condition.name(),
        (state, words_of(state)),
    );
    page.open(Tag::Div);
    page.open(Tag::P);
    push_found(page, case, figures, condition);
    push_places(page, case, figures, condition);
    page.close();
    page.element_class(Tag::P, "soft", case.words.say(asks_of(condition)));
    page.close();
    page.close();
}

fn words_of(state: State) -> Sentence {
    match state {
        State::Holds => Sentence::Holds,
        State::Fails => Sentence::Fails,
        State::NotAsked => Sentence::NotAsked,
    }
}
