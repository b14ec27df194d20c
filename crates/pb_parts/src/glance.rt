//! The summary: how much of the limit is used, and by prices of the budgets.
use pb_case::{Case, Fillings};
use pb_figures::{CertificateFigures, Figure};
use pb_markup::{Page, Tag};
use pb_tables::{
    Look, WIDTH, begin_tile, end_tile, length_of, push_bar, push_money_tile, push_number_tile,
};
use pb_words::Sentence;
use std::alloc::AllocError;

/// Adds the summary.
pub fn push_glance(page: &mut Page, case: &Case<'_>) {
    let is_of_prices = matches!(case.told.found, CertificateFigures::Prices(_));
    page.open(Tag::Section);
    page.element(Tag::H2, case.words.say(Sentence::Glance));
    page.open_class(Tag::Dl, "tiles");
    push_tiles(page, case);
    if is_of_prices {
        push_money_tile(page, case, Sentence::VoterBudget, Figure::VoterBudget);
    }
    page.close();
    push_limit(page, case);
    if is_of_prices {
        push_budgets(page, case);
    }
    page.close();
}

fn push_tiles(page: &mut Page, case: &Case<'_>) {
    let election = case.decided.election();
    let all = election.projects();
    let funded = (1..=all).filter(|j| case.is_funded(*j)).count();
    begin_tile(page, case, Sentence::ProjectsFunded);
    let fillings = Fillings::none(case.words.alloc)
        .and_number("count", funded as u64)
        .and_number("all", u64::from(all));
    case.say(page, Sentence::SomeOfAll, &fillings);
    end_tile(page);
    push_number_tile(page, case, Sentence::Voters, u64::from(election.voters()));
    push_money_tile(page, case, Sentence::Limit, Figure::Limit);
}

// How a whole is used: its name with the amount, what is used, what is left of it, and what is used beyond it.
#[derive(Clone, Copy)]
struct Use {
    whole: Figure,
    used: Figure,
    rest: Figure,
    caption: Sentence,
    slot: &'static str,
    used_words: Sentence,
    left_words: Sentence,
    over_words: Sentence,
}

fn push_limit(page: &mut Page, case: &Case<'_>) {
    let limit = Use {
        whole: Figure::Limit,
        used: Figure::Funded,
        rest: Figure::Remains,
        caption: Sentence::OfTheLimit,
        slot: "limit",
        used_words: Sentence::LimitFunded,
        left_words: Sentence::LimitLeft,
        over_words: Sentence::LimitOver,
    };
    push_use(page, case, limit);
}

fn push_budgets(page: &mut Page, case: &Case<'_>) {
    let budgets = Use {
        whole: Figure::Budgets,
        used: Figure::Spent,
        rest: Figure::Unspent,
        caption: Sentence::OfTheBudgets,
        slot: "budgets",
        used_words: Sentence::BudgetsSpent,
        left_words: Sentence::BudgetsLeft,
        over_words: Sentence::BudgetsOver,
    };
    push_use(page, case, budgets);
}

fn push_use(page: &mut Page, case: &Case<'_>, shown: Use) {
    let alloc = case.words.alloc;
    let caption = Fillings::none(alloc).and_money(shown.slot, shown.whole);
    page.open_class(Tag::Div, "chart");
    page.open(Tag::P);
    case.say(page, shown.caption, &caption);
    page.close();
    let whole = case.told.amount_of(shown.whole).grains;
    let used = case.told.amount_of(shown.used).grains;
    let look = Look::of_part(used, whole);
    push_bar(
        alloc,
        page,
        look,
        use_label(case, shown),
        length_of(used, whole, WIDTH),
    );
    push_keys(page, case, shown, look);
    page.close();
}

// Adds what the bar shows, with patches that look like it.
fn push_keys(page: &mut Page, case: &Case<'_>, shown: Use, look: Look) {
    let (patch, rest_patch, rest_words) = match look {
        Look::Beyond => ("patch beyond", "", shown.over_words),
        _ => ("patch", "patch rest", shown.left_words),
    };
    page.open_class(Tag::Ul, "key");
    push_key(page, case, patch, shown.used_words, shown.used);
    push_key(page, case, rest_patch, rest_words, shown.rest);
    page.close();
}

// The words for who can't see the bar.
fn use_label(case: &Case<'_>, shown: Use) -> Result<String, AllocError> {
    let alloc = case.words.alloc;
    let caption = Fillings::none(alloc).and_money(shown.slot, shown.whole);
    let used_amount = Fillings::none(alloc).and_money("amount", shown.used);
    let mut label = case.said(shown.caption, &caption)?;
    label.push_str(": ")?;
    label.push_str(&case.said(shown.used_words, &used_amount)?)?;
    Ok(label)
}

fn push_key(page: &mut Page, case: &Case<'_>, patch: &str, sentence: Sentence, amount: Figure) {
    page.open(Tag::Li);
    if !patch.is_empty() {
        page.element_class(Tag::Span, patch, "");
    }
    let fillings = Fillings::none(case.words.alloc).and_money("amount", amount);
    case.say(page, sentence, &fillings);
    page.close();
}
