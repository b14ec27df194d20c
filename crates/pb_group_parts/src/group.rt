//! The group of a violation certificate, what it may claim, and what it demands.
use pb_case::{Case, Fillings};
use pb_certificate::Measure;
use pb_figures::{Figure, ViolationFigures};
use pb_markup::{Page, Tag};
use pb_tables::{
    COST, Column, ColumnKind, Look, MARK, MOST_ROWS, STATE, WIDTH, begin_cell, begin_row,
    begin_table, begin_tile, end_table, end_tile, length_of, part_in_words, push_bar,
    push_left_out, push_money_tile, push_state,
};
use pb_words::Sentence;
use std::alloc::AllocError;

const COLUMNS: [Column; 4] = [
    Column {
        head: Sentence::Project,
        kind: ColumnKind::Words,
    },
    COST,
    STATE,
    PART,
];

const PART: Column = Column {
    head: Sentence::PartOfShare,
    kind: ColumnKind::Bar,
};

/// Adds the group, its share beside what it demands, and what its members get beside what that is worth.
pub(crate) fn push_group(page: &mut Page, case: &Case<'_>, figures: &ViolationFigures) {
    page.open(Tag::Section);
    page.element(Tag::H2, case.words.say(Sentence::Group));
    page.open_class(Tag::Dl, "tiles");
    begin_tile(page, case, Sentence::Members);
    let fillings = Fillings::none(case.words.alloc)
        .and_number("count", u64::from(figures.findings.members))
        .and_number("all", u64::from(figures.voters));
    case.say(page, Sentence::SomeOfAll, &fillings);
    end_tile(page);
    push_money_tile(page, case, Sentence::GroupShare, Figure::Share);
    push_money_tile(page, case, Sentence::DemandCost, Figure::Demand);
    page.close();
    push_share(page, case);
    push_gets(page, case, figures);
    page.close();
}

// Adds the bar of the group's share against what it demands.
fn push_share(page: &mut Page, case: &Case<'_>) {
    let alloc = case.words.alloc;
    let share = case.told.amount_of(Figure::Share).grains;
    let demand = case.told.amount_of(Figure::Demand).grains;
    let fillings = Fillings::none(alloc)
        .and_money("amount", Figure::Share)
        .and_money("bound", Figure::Demand);
    page.open_class(Tag::Div, "chart");
    page.element(Tag::P, case.words.say(Sentence::BarShare));
    let label = case.said(Sentence::FoundV3, &share_fillings(case));
    push_bar(
        alloc,
        page,
        Look::Against,
        label,
        length_of(share, demand, MARK),
    );
    case.say_in(
        page,
        Tag::Span,
        "verdict",
        Sentence::AmountOfAmount,
        &fillings,
    );
    page.close();
}

// Adds the bar of what a member gets against what the demanded projects are worth.
fn push_gets(page: &mut Page, case: &Case<'_>, figures: &ViolationFigures) {
    let alloc = case.words.alloc;
    let found = &figures.findings;
    let fillings = with_worths(case, figures, "amount", "bound");
    page.open_class(Tag::Div, "chart");
    push_gets_caption(page, case, figures);
    let look = if found.satisfied.count == 0 {
        Look::Against
    } else {
        Look::Over
    };
    let label = gets_label(case, figures);
    let length = length_of(found.gets, found.demanded, MARK);
    push_bar(alloc, page, look, label, length);
    case.say_in(
        page,
        Tag::Span,
        "verdict",
        Sentence::AmountOfAmount,
        &fillings,
    );
    page.close();
}

/// The group's share and the cost of what it demands, as fillings.
pub(crate) fn share_fillings(case: &Case<'_>) -> Fillings {
    Fillings::none(case.words.alloc)
        .and_money("share", Figure::Share)
        .and_money("cost", Figure::Demand)
}

// The words for who can't see the bar of what a member gets.
fn gets_label(case: &Case<'_>, figures: &ViolationFigures) -> Result<String, AllocError> {
    let fillings = with_worths(case, figures, "gets", "demanded");
    match figures.findings.satisfied.first {
        None => case.said(Sentence::FoundV4, &fillings),
        Some(voter) => {
            let fillings = fillings.and_text("voter", case.voter(voter));
            case.said(Sentence::BrokenV4, &fillings)
        }
    }
}

fn push_gets_caption(page: &mut Page, case: &Case<'_>, figures: &ViolationFigures) {
    let Some(voter) = figures.findings.satisfied.first else {
        return page.element(Tag::P, case.words.say(Sentence::BarGets));
    };
    let fillings = Fillings::none(case.words.alloc).and_text("voter", case.voter(voter));
    page.open(Tag::P);
    case.say(page, Sentence::BarEnough, &fillings);
    page.close();
}

/// What a member gets and what the demanded projects are worth, as fillings: amounts, or numbers of projects where each
/// is worth 1.
pub(crate) fn with_worths(
    case: &Case<'_>,
    figures: &ViolationFigures,
    gets: &str,
    demanded: &str,
) -> Fillings {
    let none = Fillings::none(case.words.alloc);
    match figures.violation.satisfaction() {
        Measure::ByCost => none
            .and_money(gets, Figure::Gets)
            .and_money(demanded, Figure::Worth),
        Measure::ByCount => none
            .and_number(gets, number_of(figures.findings.gets))
            .and_number(demanded, number_of(figures.findings.demanded)),
    }
}

fn number_of(projects: u128) -> u64 {
    u64::try_from(projects).unwrap_or(u64::MAX)
}

/// Adds the demanded projects.
pub(crate) fn push_demand(page: &mut Page, case: &Case<'_>, figures: &ViolationFigures) {
    page.open(Tag::Section);
    page.element(Tag::H2, case.words.say(Sentence::Demand));
    let demand = figures.violation.demand();
    if demand.is_empty() {
        page.element(Tag::P, case.words.say(Sentence::NoDemand));
        return page.close();
    }
    begin_table(page, case, Sentence::Demand, "projects demand", &COLUMNS);
    for j in demand.iter().take(MOST_ROWS) {
        push_row(page, case, *j);
    }
    end_table(page);
    push_left_out(page, case, demand.len());
    page.close();
}

fn push_row(page: &mut Page, case: &Case<'_>, j: u32) {
    let alloc = case.words.alloc;
    begin_row(page, case, j, None);
    begin_cell(page, case, COST);
    page.figure(Figure::Cost(j));
    page.close();
    push_state(page, case, j);
    begin_cell(page, case, PART);
    let cost = case.told.amount_of(Figure::Cost(j)).grains;
    let share = case.told.amount_of(Figure::Share).grains;
    let length = length_of(cost, share, WIDTH);
    let look = Look::of_part(cost, share);
    push_bar(alloc, page, look, part_label(case, j), length);
    page.open_class(Tag::Span, "verdict");
    page.text_made(part_in_words(case.words, length));
    page.close();
    page.close();
    page.close();
}

fn part_label(case: &Case<'_>, j: u32) -> Result<String, AllocError> {
    let fillings = Fillings::none(case.words.alloc)
        .and_label("project", case.project_name(j))
        .and_money("part", Figure::Cost(j))
        .and_money("whole", Figure::Share);
    case.said(Sentence::LabelPart, &fillings)
}
