//! The unfunded projects, each with the group that is shown for it.
ghost use Rattle.std.specs.Prelude.{IfOk, IfSome, map};
ghost use Rattle.pb_markup.specs.InOrder.{HasParts};
ghost use Rattle.pb_price_parts.specs.Rows.{ListsGroups, amount_piece, group_amount};

use pb_case::{Case, Fillings};
use pb_cohesion::GroupFigures;
use pb_figures::{Figure, ShortFigures, short_first};
use pb_markup::{Page, Tag};
use pb_price_parts::narrow;
use pb_tables::{
    COST, Column, ColumnKind, Look, MARK, MOST_ROWS, WIDTH, begin_cell, begin_row, begin_table,
    behind_rows, length_of, part_in_words, push_bar,
};
use pb_words::{Sentence, ShortGroups};
use std::alloc::AllocError;

const COLUMNS: [Column; 6] = [PROJECT, COST, GROUP, PART, NEED, AGAINST_NEED];

const PROJECT: Column = Column {
    head: Sentence::Project,
    kind: ColumnKind::Words,
};

const GROUP: Column = Column {
    head: Sentence::OfShortGroups(ShortGroups::Group),
    kind: ColumnKind::Words,
};

const PART: Column = Column {
    head: Sentence::OfShortGroups(ShortGroups::Part),
    kind: ColumnKind::Money,
};

const NEED: Column = Column {
    head: Sentence::OfShortGroups(ShortGroups::Need),
    kind: ColumnKind::Money,
};

const AGAINST_NEED: Column = Column {
    head: Sentence::OfShortGroups(ShortGroups::PartAgainstNeed),
    kind: ColumnKind::Bar,
};

/// The projects that weren't funded: those first whose group falls short, the largest first, and then the others in the
/// order of the file.
pub(crate) fn short_table(case: &Case<'_>, figures: &ShortFigures) -> Page
    ensures { IfSome result (ListsGroups (figures.now).groups.items) }
{
    match ranked_page(case, figures) {
        Ok(page) => page,
        Err(_) => Page::failed(case.words.alloc),
    }
}

// The same, or why there is none.
fn ranked_page(case: &Case<'_>, figures: &ShortFigures) -> Result<Page, AllocError>
    ensures { IfOk result (λ page. IfSome page (ListsGroups (figures.now).groups.items)) }
{
    let mut ranked = short_first(case.words.alloc, &figures.groups)?;
    let count = ranked.len();
    ranked.truncate(MOST_ROWS);
    let mut page = up_to_rows(case, count);
    page.append(rows(case, figures, &ranked));
    page.append(behind_rows(case, count));
    Ok(page)
}

// The part up to its rows, of which there are so many.
fn up_to_rows(case: &Case<'_>, count: usize) -> Page {
    let mut page = Page::new(case.words.alloc);
    page.open(Tag::Section);
    page.element(Tag::H2, case.words.say(Sentence::Unfunded));
    push_unwanted(&mut page, case, count);
    if count == 0 {
        return page;
    }
    let how = Sentence::OfShortGroups(ShortGroups::HowTable);
    page.element(Tag::P, case.words.say(how));
    begin_table(
        &mut page,
        case,
        Sentence::Unfunded,
        "projects short",
        &COLUMNS,
    );
    page
}

// Adds for how many unfunded projects nobody voted, where so many have a voter.
fn push_unwanted(page: &mut Page, case: &Case<'_>, wanted: usize) {
    let all = case.decided.election().projects();
    let unfunded = (1..=all).filter(|j| !case.is_funded(*j)).count();
    let count = unfunded.saturating_sub(wanted) as u64;
    if unfunded == 0 {
        let sentence = case.or_no_projects(Sentence::AllFunded);
        page.element(Tag::P, case.words.say(sentence));
    }
    if count == 0 {
        return;
    }
    let fillings = Fillings::none(case.words.alloc).and_number("count", count);
    let sentence = Sentence::OfShortGroups(ShortGroups::NobodyWants(case.words.plural(count)));
    case.say_in(page, Tag::P, "soft", sentence, &fillings);
}

// The rows of groups in this order.
fn rows(case: &Case<'_>, figures: &ShortFigures, ranked: &[(u32, usize)]) -> Page
    ensures { IfSome result (HasParts amount_piece (map group_amount ranked.now)) }
{
    let mut page = Page::new(case.words.alloc);
    for one in ranked {
        let k = narrow(one.1);
        page.append(up_to_part(case, figures, k));
        page.figure(Figure::Part(k));
        page.append(behind_part(case, figures, k));
    }
    page
}

// A row up to the group's part of the limit. There is nothing for one that isn't there.
fn up_to_part(case: &Case<'_>, figures: &ShortFigures, k: u32) -> Page {
    let mut page = Page::new(case.words.alloc);
    let Some(group) = figures.group(k) else {
        return page;
    };
    begin_row(&mut page, case, group.project, None);
    begin_cell(&mut page, case, COST);
    page.figure(Figure::Cost(group.project));
    page.close();
    begin_cell(&mut page, case, GROUP);
    let fillings = Fillings::none(case.words.alloc)
        .and_number("count", u64::from(group.voters))
        .and_number("all", u64::from(group.supporters));
    case.say(&mut page, Sentence::SomeOfAll, &fillings);
    page.close();
    begin_cell(&mut page, case, PART);
    page
}

// A row behind the group's part of the limit.
fn behind_part(case: &Case<'_>, figures: &ShortFigures, k: u32) -> Page {
    let mut page = Page::new(case.words.alloc);
    let Some(group) = figures.group(k) else {
        return page;
    };
    page.close();
    begin_cell(&mut page, case, NEED);
    page.figure(Figure::Need(k));
    page.close();
    begin_cell(&mut page, case, AGAINST_NEED);
    push_against_need(&mut page, case, group, k);
    page.close();
    page.close();
    page
}

// Adds the bar of the part against what it would take, and whether the group falls short, or how much the part covers.
fn push_against_need(page: &mut Page, case: &Case<'_>, group: &GroupFigures, k: u32) {
    let alloc = case.words.alloc;
    let part = case.told.amount_of(Figure::Part(k)).grains;
    let need = case.told.amount_of(Figure::Need(k)).grains;
    let look = if group.falls_short {
        Look::Over
    } else {
        Look::Against
    };
    let label = label_of(case, group, k);
    push_bar(alloc, page, look, label, length_of(part, need, MARK));
    if group.falls_short {
        page.open_class(Tag::Span, "note fails");
        page.text("\u{2717} ");
        page.text(
            case.words
                .say(Sentence::OfShortGroups(ShortGroups::FallsShort)),
        );
    } else {
        page.open_class(Tag::Span, "note");
        page.text_made(part_in_words(case.words, length_of(part, need, WIDTH)));
    }
    page.close();
}

// The words for who can't see the bar.
fn label_of(case: &Case<'_>, group: &GroupFigures, k: u32) -> Result<String, AllocError> {
    let fillings = Fillings::none(case.words.alloc)
        .and_label("project", case.project_name(group.project))
        .and_money("share", Figure::Part(k))
        .and_money("need", Figure::Need(k));
    let sentence = Sentence::OfShortGroups(ShortGroups::LabelPartAgainstNeed);
    case.said(sentence, &fillings)
}
