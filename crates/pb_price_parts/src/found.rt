//! What each condition on prices comes to, in a sentence with its figures.
use pb_case::{Case, Fillings};
use pb_figures::{Figure, PriceFigures};
use pb_markup::Page;
use pb_price::Condition;
use pb_words::Sentence;

/// Adds what a condition comes to.
pub(crate) fn push_found(
    page: &mut Page,
    case: &Case<'_>,
    figures: &PriceFigures,
    condition: Condition,
) {
    match condition {
        Condition::Feasible => push_feasible(page, case, figures),
        Condition::Exhaustive => push_exhaustive(page, case, figures),
        Condition::Cover => push_cover(page, case, figures),
        Condition::C1 => push_c1(page, case, figures),
        Condition::C2 => push_c2(page, case, figures),
        Condition::C3 => push_c3(page, case, figures),
        Condition::C4 => push_c4(page, case, figures),
        Condition::C5 => push_c5(page, case, figures),
        Condition::S5 => push_s5(page, case, figures),
    }
}

fn push_feasible(page: &mut Page, case: &Case<'_>, figures: &PriceFigures) {
    let sentence = if figures.holds(Condition::Feasible) {
        Sentence::FoundFeasible
    } else {
        Sentence::BrokenFeasible
    };
    let fillings = Fillings::none(case.words.alloc)
        .and_money("total", Figure::Funded)
        .and_money("limit", Figure::Limit);
    case.say(page, sentence, &fillings);
}

fn push_exhaustive(page: &mut Page, case: &Case<'_>, figures: &PriceFigures) {
    if !figures.holds(Condition::Feasible) {
        return page.text(case.words.say(Sentence::NothingFits));
    }
    let sentence = if figures.holds(Condition::Exhaustive) {
        Sentence::FoundExhaustive
    } else {
        Sentence::BrokenExhaustive
    };
    push_compared(page, case, figures, Condition::Exhaustive, sentence);
}

fn push_cover(page: &mut Page, case: &Case<'_>, figures: &PriceFigures) {
    let sentence = if figures.holds(Condition::Cover) {
        Sentence::FoundCover
    } else {
        Sentence::BrokenCover
    };
    let fillings = Fillings::none(case.words.alloc)
        .and_money("budgets", Figure::Budgets)
        .and_money("limit", Figure::Limit);
    case.say(page, sentence, &fillings);
}

fn push_c1(page: &mut Page, case: &Case<'_>, figures: &PriceFigures) {
    let none = Fillings::none(case.words.alloc);
    let Some((voter, project)) = figures.findings.c1.first else {
        return case.say(page, Sentence::FoundC1, &none);
    };
    let fillings = none
        .and_text("voter", case.voter(voter))
        .and_label("project", case.project(project));
    case.say(page, Sentence::BrokenC1, &fillings);
}

fn push_c2(page: &mut Page, case: &Case<'_>, figures: &PriceFigures) {
    let none = Fillings::none(case.words.alloc);
    let Some(shown) = figures.shown(Condition::C2) else {
        return case.say(page, Sentence::NoVoters, &none);
    };
    let sentence = if figures.holds(Condition::C2) {
        Sentence::FoundC2
    } else {
        Sentence::BrokenC2
    };
    let fillings = none
        .and_text("voter", case.voter(shown.at))
        .and_money("spent", Figure::Amount(Condition::C2))
        .and_money("over", Figure::AmountOff(Condition::C2))
        .and_money("budget", Figure::Bound(Condition::C2));
    case.say(page, sentence, &fillings);
}

fn push_c3(page: &mut Page, case: &Case<'_>, figures: &PriceFigures) {
    if figures.holds(Condition::C3) {
        return case.say(page, Sentence::FoundC3, &Fillings::none(case.words.alloc));
    }
    push_compared(page, case, figures, Condition::C3, Sentence::BrokenC3);
}

fn push_c4(page: &mut Page, case: &Case<'_>, figures: &PriceFigures) {
    if figures.holds(Condition::C4) {
        return case.say(page, Sentence::FoundC4, &Fillings::none(case.words.alloc));
    }
    push_compared(page, case, figures, Condition::C4, Sentence::BrokenC4);
}

fn push_c5(page: &mut Page, case: &Case<'_>, figures: &PriceFigures) {
    let sentence = if figures.holds(Condition::C5) {
        Sentence::FoundC5
    } else {
        Sentence::BrokenC5
    };
    push_compared(page, case, figures, Condition::C5, sentence);
}

fn push_s5(page: &mut Page, case: &Case<'_>, figures: &PriceFigures) {
    let sentence = if figures.holds(Condition::S5) {
        Sentence::FoundS5
    } else {
        Sentence::BrokenS5
    };
    push_compared(page, case, figures, Condition::S5, sentence);
}

// Adds a sentence on the project that a finding shows, with the two sums that are compared there. Where there is none,
// every project is funded, or there are no projects.
fn push_compared(
    page: &mut Page,
    case: &Case<'_>,
    figures: &PriceFigures,
    of: Condition,
    sentence: Sentence,
) {
    let none = Fillings::none(case.words.alloc);
    let Some(shown) = figures.shown(of) else {
        return case.say(page, case.or_no_projects(Sentence::AllFunded), &none);
    };
    let fillings = none
        .and_label("project", case.project(shown.at))
        .and_money("cost", Figure::Bound(of))
        .and_money(amount_slot(of), Figure::Amount(of));
    case.say(page, sentence, &fillings);
}

// The placeholder of what a condition compares with the bound at a place, where it does.
fn amount_slot(of: Condition) -> &'static str {
    match of {
        Condition::Exhaustive | Condition::C5 => "left",
        Condition::C2 => "spent",
        Condition::C3 | Condition::C4 => "paid",
        Condition::S5 => "offer",
        Condition::Feasible | Condition::Cover | Condition::C1 => "",
    }
}
