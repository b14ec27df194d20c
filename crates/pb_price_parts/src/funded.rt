//! The projects that were funded, by the part of the limit that they take.
ghost use Rattle.std.specs.Prelude.{IfOk, IfSome, map};
ghost use Rattle.pb_markup.specs.InOrder.{HasParts};
ghost use Rattle.pb_price_parts.specs.Rows.{ListsFunded, amount_piece, funded_amount};

use crate::unfunded::narrow;
use pb_case::{Case, Fillings, grouped};
use pb_figures::{Balance, Figure, PriceFigures, push_amount, wrongly_paid_first};
use pb_markup::{Page, Tag};
use pb_price::ProjectMargins;
use pb_tables::{
    COST, Column, ColumnKind, Look, MOST_ROWS, WIDTH, begin_cell, begin_row, begin_table,
    behind_rows, length_of, part_in_words, push_bar,
};
use pb_words::Sentence;
use std::alloc::AllocError;

const COLUMNS: [Column; 5] = [
    Column {
        head: Sentence::Project,
        kind: ColumnKind::Words,
    },
    COST,
    SUPPORTERS,
    PER_SUPPORTER,
    PART,
];

const SUPPORTERS: Column = Column {
    head: Sentence::Supporters,
    kind: ColumnKind::Number,
};

const PER_SUPPORTER: Column = Column {
    head: Sentence::CostPerSupporter,
    kind: ColumnKind::Money,
};

const PART: Column = Column {
    head: Sentence::PartOfLimit,
    kind: ColumnKind::Bar,
};

// What a millionth comes to for each of a million supporters has so many decimals more than six.
const MOST_MORE_DECIMALS: u32 = 12;

/// The projects that were funded: first those that aren't paid for exactly, the largest difference first, and then the
/// dearest first.
pub(crate) fn funded(case: &Case<'_>, figures: &PriceFigures) -> Page
    ensures { IfSome result (ListsFunded (figures.now).margins.projects.items) }
{
    match ranked_page(case, figures) {
        Ok(page) => page,
        Err(_) => Page::failed(case.words.alloc),
    }
}

// The same, or why there is none.
fn ranked_page(case: &Case<'_>, figures: &PriceFigures) -> Result<Page, AllocError>
    ensures { IfOk result (λ page. IfSome page (ListsFunded (figures.now).margins.projects.items)) }
{
    let mut ranked = wrongly_paid_first(case.words.alloc, &figures.margins.projects)?;
    let count = ranked.len();
    ranked.truncate(MOST_ROWS);
    let mut page = up_to_rows(case, count);
    page.append(rows(case, figures, &ranked));
    page.append(behind_rows(case, count));
    Ok(page)
}

// The part up to its rows, of which there are so many.
fn up_to_rows(case: &Case<'_>, count: usize) -> Page {
    let mut page = Page::new(case.words.alloc);
    page.open(Tag::Section);
    page.element(Tag::H2, case.words.say(Sentence::Funded));
    if count == 0 {
        page.element(
            Tag::P,
            case.words.say(case.or_no_projects(Sentence::NoneFunded)),
        );
        return page;
    }
    page.element(Tag::P, case.words.say(Sentence::HowFunded));
    begin_table(&mut page, case, Sentence::Funded, "projects", &COLUMNS);
    page
}

// The rows of projects in this order.
fn rows(case: &Case<'_>, figures: &PriceFigures, ranked: &[(u128, u128, usize)]) -> Page
    ensures { IfSome result (HasParts amount_piece (map funded_amount ranked.now)) }
{
    let mut page = Page::new(case.words.alloc);
    for one in ranked {
        let j = narrow(one.2);
        page.append(up_to_cost(case, figures, j));
        page.figure(Figure::Cost(j));
        page.append(behind_cost(case, figures, j));
    }
    page
}

// The row of a project up to its cost. There is nothing for one that isn't there.
fn up_to_cost(case: &Case<'_>, figures: &PriceFigures, j: u32) -> Page {
    let mut page = Page::new(case.words.alloc);
    if figures.project(j).is_none() {
        return page;
    }
    begin_row(&mut page, case, j, None);
    begin_cell(&mut page, case, COST);
    page
}

// The row of a project behind its cost.
fn behind_cost(case: &Case<'_>, figures: &PriceFigures, j: u32) -> Page {
    let mut page = Page::new(case.words.alloc);
    let Some(project) = figures.project(j) else {
        return page;
    };
    page.close();
    begin_cell(&mut page, case, SUPPORTERS);
    page.text_made(grouped(case.words.alloc, u128::from(project.supporters)));
    page.close();
    begin_cell(&mut page, case, PER_SUPPORTER);
    page.text_made(cost_per_supporter(case, project));
    page.close();
    begin_cell(&mut page, case, PART);
    push_part(&mut page, case, j, project);
    page.close();
    page.close();
    page
}

// What a project costs for each supporter, rounded to as many decimals as amounts have here, or to more where that would
// be nothing; a dash where it has none.
fn cost_per_supporter(case: &Case<'_>, project: &ProjectMargins) -> Result<String, AllocError> {
    let alloc = case.words.alloc;
    if project.supporters == 0 {
        return String::from_str(alloc, "\u{2013}");
    }
    let supporters = u128::from(project.supporters);
    let whole = supporters.saturating_mul(u128::from(case.told.grains_per_unit().max(1)));
    let mut steps: u64 = 1;
    for _ in 0..case.told.style.decimals {
        steps = steps.saturating_mul(10);
    }
    let mut each = rounded(project.cost, whole, steps);
    for _ in 0..MOST_MORE_DECIMALS {
        if each != 0 || project.cost == 0 {
            break;
        }
        steps = steps.saturating_mul(10);
        each = rounded(project.cost, whole, steps);
    }
    let mut text = String::new(alloc);
    push_amount(&mut text, case.told.style, steps, Balance::of(each))?;
    Ok(text)
}

// A part of a whole in so many steps of it, half a step up.
fn rounded(part: u128, whole: u128, steps: u64) -> u128 {
    let twice = part.saturating_mul(2).saturating_mul(u128::from(steps));
    twice.saturating_add(whole) / whole.saturating_mul(2).max(1)
}

// Adds the bar of the part of the limit, the part in percent, and whether the project is paid for exactly.
fn push_part(page: &mut Page, case: &Case<'_>, j: u32, project: &ProjectMargins) {
    let alloc = case.words.alloc;
    let limit = case.told.amount_of(Figure::Limit).grains;
    let length = length_of(project.cost, limit, WIDTH);
    let look = Look::of_part(project.cost, limit);
    push_bar(alloc, page, look, part_label(case, j), length);
    page.open_class(Tag::Span, "note");
    page.text_made(part_in_words(case.words, length));
    page.text(" \u{b7} ");
    page.close();
    push_payment(page, case, j, project);
}

fn part_label(case: &Case<'_>, j: u32) -> Result<String, AllocError> {
    let fillings = Fillings::none(case.words.alloc)
        .and_label("project", case.project_name(j))
        .and_money("part", Figure::Cost(j))
        .and_money("whole", Figure::Limit);
    case.said(Sentence::LabelPart, &fillings)
}

fn push_payment(page: &mut Page, case: &Case<'_>, j: u32, project: &ProjectMargins) {
    let none = Fillings::none(case.words.alloc);
    if project.paid == project.cost {
        return case.say_in(page, Tag::Span, "note", Sentence::PaidExactly, &none);
    }
    let sentence = if project.paid > project.cost {
        Sentence::PaidOver
    } else {
        Sentence::PaidUnder
    };
    let fillings = none
        .and_money("paid", Figure::Paid(j))
        .and_money("amount", Figure::PaidOff(j));
    page.open_class(Tag::Span, "note fails");
    page.text("\u{2717} ");
    case.say(page, sentence, &fillings);
    page.close();
}
