//! The head of the page: what the vote was, where and when.
use pb_case::{Case, Fillings, grouped, push_label, shortened};
use pb_markup::{Page, Tag};
use pb_words::Sentence;

/// Adds the title that a browser shows of the page.
pub fn push_browser_title(page: &mut Page, case: &Case<'_>) {
    page.open(Tag::Title);
    page.text_made(shortened(case.words.alloc, title(case)));
    page.text(" \u{2013} ");
    page.headline();
    page.close();
}

/// Adds the title of the page, and the facts of the vote.
pub fn push_top(page: &mut Page, case: &Case<'_>) {
    page.open(Tag::Header);
    page.element_class(Tag::P, "kicker", case.words.say(Sentence::Kicker));
    page.open(Tag::H1);
    push_label(page, case, "", title(case));
    page.close();
    page.open_class(Tag::Dl, "facts");
    push_facts(page, case);
    page.close();
    page.close();
}

// The election's title, or otherwise the name of its file.
fn title<'a>(case: &'a Case<'_>) -> &'a str {
    let description = case.labels.fact("description");
    if description.is_empty() {
        &case.files.election.name
    } else {
        description
    }
}

fn push_facts(page: &mut Page, case: &Case<'_>) {
    push_place(page, case);
    push_dates(page, case);
    push_fact(page, case, Sentence::Rule, "rule");
    let voters = u128::from(case.decided.election().voters());
    begin_fact(page, case, Sentence::Voters);
    page.text_made(grouped(case.words.alloc, voters));
    end_fact(page);
    push_fact(page, case, Sentence::Turnout, "turnout");
    push_fact(page, case, Sentence::Currency, "currency");
}

fn begin_fact(page: &mut Page, case: &Case<'_>, name: Sentence) {
    page.open(Tag::Div);
    page.element(Tag::Dt, case.words.say(name));
    page.open(Tag::Dd);
}

fn end_fact(page: &mut Page) {
    page.close();
    page.close();
}

// Adds a fact of META, where the election's file has it.
fn push_fact(page: &mut Page, case: &Case<'_>, name: Sentence, key: &str) {
    let fact = case.labels.fact(key);
    if fact.is_empty() {
        return;
    }
    begin_fact(page, case, name);
    push_label(page, case, "", fact);
    end_fact(page);
}

fn push_place(page: &mut Page, case: &Case<'_>) {
    let is_known = ["district", "unit", "country"]
        .iter()
        .any(|key| !case.labels.fact(key).is_empty());
    if !is_known {
        return;
    }
    begin_fact(page, case, Sentence::Place);
    let mut is_first = true;
    for key in ["district", "unit", "country"] {
        push_listed(page, case, key, &mut is_first);
    }
    end_fact(page);
}

fn push_listed(page: &mut Page, case: &Case<'_>, key: &str, is_first: &mut bool) {
    let fact = case.labels.fact(key);
    if fact.is_empty() {
        return;
    }
    if !*is_first {
        page.text(", ");
    }
    *is_first = false;
    push_label(page, case, "", fact);
}

fn push_dates(page: &mut Page, case: &Case<'_>) {
    let begin = case.labels.fact("date_begin");
    let end = case.labels.fact("date_end");
    if begin.is_empty() || begin == end {
        return push_fact(page, case, Sentence::VotingDates, "date_end");
    }
    if end.is_empty() {
        return push_fact(page, case, Sentence::VotingDates, "date_begin");
    }
    begin_fact(page, case, Sentence::VotingDates);
    let fillings = Fillings::none(case.words.alloc)
        .and_plain_label("begin", begin)
        .and_plain_label("end", end);
    case.say(page, Sentence::FromTo, &fillings);
    end_fact(page);
}
