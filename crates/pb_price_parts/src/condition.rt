//! How the page names the conditions on prices, and what became of each.
use pb_price::{Condition, Findings, Mode};
use pb_tables::State;
use pb_words::Sentence;

/// The plain name of a condition.
pub(crate) fn name_of(condition: Condition) -> Sentence {
    match condition {
        Condition::Feasible => Sentence::NameFeasible,
        Condition::Exhaustive => Sentence::NameExhaustive,
        Condition::Cover => Sentence::NameCover,
        Condition::C1 => Sentence::NameC1,
        Condition::C2 => Sentence::NameC2,
        Condition::C3 => Sentence::NameC3,
        Condition::C4 => Sentence::NameC4,
        Condition::C5 => Sentence::NameC5,
        Condition::S5 => Sentence::NameS5,
    }
}

/// What a condition asks, and why.
pub(crate) fn asks_of(condition: Condition) -> Sentence {
    match condition {
        Condition::Feasible => Sentence::AsksFeasible,
        Condition::Exhaustive => Sentence::AsksExhaustive,
        Condition::Cover => Sentence::AsksCover,
        Condition::C1 => Sentence::AsksC1,
        Condition::C2 => Sentence::AsksC2,
        Condition::C3 => Sentence::AsksC3,
        Condition::C4 => Sentence::AsksC4,
        Condition::C5 => Sentence::AsksC5,
        Condition::S5 => Sentence::AsksS5,
    }
}

/// What became of a condition.
pub(crate) fn state_of(condition: Condition, mode: Mode, findings: &Findings) -> State {
    if condition.is_asked(mode) {
        State::of(findings.found(condition).holds())
    } else {
        State::NotAsked
    }
}
