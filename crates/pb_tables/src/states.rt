//! The names of conditions and tests, with what became of them.
use pb_case::Case;
use pb_markup::{Page, Tag};
use pb_words::Sentence;

/// What became of a condition or a test.
#[derive(Clone, Copy)]
pub enum State {
    Holds,
    Fails,
    NotAsked,
}

impl State {
    /// Of what was asked, and may hold.
    pub fn of(holds: bool) -> State {
        if holds { State::Holds } else { State::Fails }
    }
}

/// Adds the name of a condition or a test, its name in the lines of the program, and what became of it, with the words
/// for that.
pub fn push_name(
    page: &mut Page,
    case: &Case<'_>,
    name: Sentence,
    letter: &str,
    (state, words): (State, Sentence),
) {
    page.open(Tag::Div);
    page.element(Tag::H3, case.words.say(name));
    page.element_class(Tag::Div, "letter", letter);
    page.open_class(Tag::Span, class_of(state));
    page.text(sign_of(state));
    page.text(case.words.say(words));
    page.close();
    page.close();
}

fn class_of(state: State) -> &'static str {
    match state {
        State::Holds => "state",
        State::Fails => "state fails",
        State::NotAsked => "state unasked",
    }
}

fn sign_of(state: State) -> &'static str {
    match state {
        State::Holds => "\u{2713} ",
        State::Fails => "\u{2717} ",
        State::NotAsked => "\u{2013} ",
    }
}
