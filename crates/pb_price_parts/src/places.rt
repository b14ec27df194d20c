//! At how many places a condition on prices fails, and where by most.
use pb_case::{Case, Fillings};
use pb_figures::{Figure, Payment, PriceFigures, Spender};
use pb_markup::Page;
use pb_price::{Condition, ProjectMargins};
use pb_words::Sentence;

/// Adds at how many places a condition fails, where these are several, and at which by most.
pub(crate) fn push_places(
    page: &mut Page,
    case: &Case<'_>,
    figures: &PriceFigures,
    condition: Condition,
) {
    let count = figures.findings.found(condition).culprits();
    if count < 2 {
        return;
    }
    let plural = case.words.plural(count);
    let sentence = match condition {
        Condition::C1 => Sentence::AtPayments(plural),
        Condition::C2 => Sentence::AtVoters(plural),
        _ => Sentence::AtProjects(plural),
    };
    page.text(" ");
    let fillings = Fillings::none(case.words.alloc).and_number("count", count);
    case.say(page, sentence, &fillings);
    push_most(page, case, figures, condition);
}

fn push_most(page: &mut Page, case: &Case<'_>, figures: &PriceFigures, condition: Condition) {
    match condition {
        Condition::C1 => match figures.extremes.unapproved {
            Some(payment) => push_payment(page, case, figures, payment),
            None => {}
        },
        Condition::C2 => match figures.extremes.spender {
            Some(spender) => push_spender(page, case, figures, spender),
            None => {}
        },
        _ => push_largest(page, case, figures, condition),
    }
}

// Adds the largest payment for a project that its voter doesn't approve.
fn push_payment(page: &mut Page, case: &Case<'_>, figures: &PriceFigures, payment: Payment) {
    page.text(" ");
    let fillings = Fillings::none(case.words.alloc).and_grains("amount", payment.grains);
    if figures.findings.c1.first == Some((payment.voter, payment.project)) {
        return case.say(page, Sentence::PaymentHere, &fillings);
    }
    let fillings = fillings
        .and_text("voter", case.voter(payment.voter))
        .and_label("project", case.project(payment.project));
    case.say(page, Sentence::PaymentAt, &fillings);
}

// Adds the voter that spends most.
fn push_spender(page: &mut Page, case: &Case<'_>, figures: &PriceFigures, spender: Spender) {
    page.text(" ");
    let none = Fillings::none(case.words.alloc);
    if figures.findings.c2.first == Some(spender.voter) {
        return case.say(page, Sentence::SpenderHere, &none);
    }
    let fillings = none
        .and_text("voter", case.voter(spender.voter))
        .and_grains("spent", spender.grains)
        .and_money("budget", Figure::VoterBudget);
    case.say(page, Sentence::FoundC2, &fillings);
}

// Adds the project at which a condition on projects fails by most.
fn push_largest(page: &mut Page, case: &Case<'_>, figures: &PriceFigures, condition: Condition) {
    let Some(found) = figures.finding(condition) else {
        return;
    };
    let (here, elsewhere) = largest_sentences(condition);
    let j = largest(figures, condition);
    page.text(" ");
    let figure = figure_at(condition, j);
    let fillings = Fillings::none(case.words.alloc).and_money("amount", figure);
    if found.first == Some(j) {
        return case.say(page, here, &fillings);
    }
    let fillings = fillings.and_label("project", case.project(j));
    case.say(page, elsewhere, &fillings);
}

// How the page says where a condition on projects fails by most: at the one that it names, or elsewhere.
fn largest_sentences(condition: Condition) -> (Sentence, Sentence) {
    match condition {
        Condition::Exhaustive => (Sentence::DearestHere, Sentence::DearestAt),
        Condition::C4 => (Sentence::AmountHere, Sentence::AmountAt),
        Condition::C3 | Condition::C5 | Condition::S5 => {
            (Sentence::LargestHere, Sentence::LargestAt)
        }
        Condition::Feasible | Condition::Cover | Condition::C1 | Condition::C2 => {
            (Sentence::LargestHere, Sentence::LargestAt)
        }
    }
}

// The amount by which a project is found where a condition fails by most.
fn figure_at(condition: Condition, j: u32) -> Figure {
    match condition {
        Condition::C3 => Figure::PaidOff(j),
        Condition::C4 => Figure::Paid(j),
        Condition::C5 => Figure::LeftOff(j),
        Condition::S5 => Figure::OfferOff(j),
        Condition::Exhaustive => Figure::Cost(j),
        Condition::Feasible | Condition::Cover | Condition::C1 | Condition::C2 => Figure::Cost(j),
    }
}

// The first project at which a condition fails by most.
fn largest(figures: &PriceFigures, condition: Condition) -> u32 {
    let mut most = None;
    let mut at = 0;
    for (j, project) in (1u32..).zip(&figures.margins.projects) {
        let amount = amount_at(figures, condition, project);
        if amount > most {
            most = amount;
            at = j;
        }
    }
    at
}

// By how much a condition fails at a project, where it may fail there, and 0 where it holds. For Exhaustive it is the
// cost, where it fails.
fn amount_at(
    figures: &PriceFigures,
    condition: Condition,
    project: &ProjectMargins,
) -> Option<u128> {
    if project.funded != (condition == Condition::C3) {
        return None;
    }
    match condition {
        Condition::Exhaustive if would_fit(figures, project) => Some(project.cost),
        Condition::Exhaustive => None,
        Condition::C3 => Some(project.paid.abs_diff(project.cost)),
        Condition::C4 => Some(project.paid),
        Condition::C5 => Some(above(project.left, project.cost)),
        Condition::S5 => Some(above(project.offer, project.cost)),
        Condition::Feasible | Condition::Cover | Condition::C1 | Condition::C2 => None,
    }
}

fn would_fit(figures: &PriceFigures, project: &ProjectMargins) -> bool {
    let findings = &figures.findings;
    findings.total.saturating_add(project.cost) <= findings.limit
}

fn above(amount: i128, cost: u128) -> u128 {
    u128::try_from(amount).unwrap_or(0).saturating_sub(cost)
}
