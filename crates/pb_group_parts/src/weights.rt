//! The weights of a refutation.
use pb_case::{Case, grouped};
use pb_certificate::Role;
use pb_figures::{Figure, RefutationFigures};
use pb_markup::{Page, Tag};
use pb_tables::{
    COST, Column, ColumnKind, MOST_ROWS, STATE, begin_cell, begin_row, begin_table, end_table,
    push_left_out, push_money_tile, push_number_tile, push_state,
};
use pb_words::{Headline, Sentence, StableWeights};
use std::alloc::AllocError;

const COLUMNS: [Column; 5] = [
    Column {
        head: Sentence::Project,
        kind: ColumnKind::Words,
    },
    COST,
    STATE,
    COUNTS,
    WEIGHT,
];

const COUNTS: Column = Column {
    head: Sentence::Counts,
    kind: ColumnKind::Words,
};

const WEIGHT: Column = Column {
    head: Sentence::Weight,
    kind: ColumnKind::Number,
};

/// Adds the weights: what they add up to, and those of the projects.
pub(crate) fn push_weights(page: &mut Page, case: &Case<'_>, figures: &RefutationFigures) {
    page.open(Tag::Section);
    page.element(Tag::H2, case.words.say(Sentence::Weights));
    let Ok(weighted) = weighted_projects(case, figures) else {
        return page.fail();
    };
    if weighted.is_empty() {
        page.element(Tag::P, case.words.say(Sentence::NoWeights));
    } else {
        page.element(Tag::P, case.words.say(how_weights(case)));
    }
    push_tiles(page, case, figures);
    push_table(page, case, figures, &weighted);
    page.close();
}

fn how_weights(case: &Case<'_>) -> Sentence {
    match case.told.headline() {
        Headline::NotRefuted | Headline::NotRefutedStable => Sentence::HowWeightsFail,
        _ => Sentence::HowWeights,
    }
}

// The projects that have a row.
fn weighted_projects(case: &Case<'_>, figures: &RefutationFigures) -> Result<Vec<u32>, AllocError> {
    let mut weighted = Vec::new(case.words.alloc);
    for k in 0..case.decided.election().projects() {
        if figures.refutation.role(k + 1).is_some() {
            weighted.push(k + 1)?;
        }
    }
    Ok(weighted)
}

fn push_tiles(page: &mut Page, case: &Case<'_>, figures: &RefutationFigures) {
    page.open_class(Tag::Dl, "tiles");
    push_money_tile(page, case, Sentence::PaidAtLeast, Figure::PaidAtLeast);
    push_money_tile(page, case, Sentence::PaidAtMost, Figure::PaidAtMost);
    if figures.refutation.cover() != 0 {
        push_number_tile(
            page,
            case,
            Sentence::CoverWeight,
            figures.refutation.cover(),
        );
    }
    page.close();
}

fn push_table(page: &mut Page, case: &Case<'_>, figures: &RefutationFigures, weighted: &[u32]) {
    if weighted.is_empty() {
        return;
    }
    begin_table(page, case, Sentence::Weights, "projects weights", &COLUMNS);
    for j in weighted.iter().take(MOST_ROWS) {
        push_row(page, case, figures, *j);
    }
    end_table(page);
    push_left_out(page, case, weighted.len());
}

fn push_row(page: &mut Page, case: &Case<'_>, figures: &RefutationFigures, j: u32) {
    begin_row(page, case, j, None);
    begin_cell(page, case, COST);
    page.figure(Figure::Cost(j));
    page.close();
    push_state(page, case, j);
    begin_cell(page, case, COUNTS);
    page.text(case.words.say(what_counts(figures, j)));
    page.close();
    begin_cell(page, case, WEIGHT);
    page.text_made(grouped(case.words.alloc, u128::from(weight_of(figures, j))));
    page.close();
    page.close();
}

fn what_counts(figures: &RefutationFigures, j: u32) -> Sentence {
    match role_of(figures, j) {
        Some(Role::Least) => Sentence::CountsLeast,
        Some(Role::Most) => Sentence::CountsMost,
        Some(Role::Left) | None if figures.tells_of_stable() => {
            Sentence::OfStableWeights(StableWeights::CountsOffer)
        }
        Some(Role::Left) | None => Sentence::CountsLeft,
    }
}

fn role_of(figures: &RefutationFigures, j: u32) -> Option<Role> {
    if j == 0 {
        return None;
    }
    figures.refutation.role(j)
}

fn weight_of(figures: &RefutationFigures, j: u32) -> u64 {
    if j == 0 {
        return 0;
    }
    figures.refutation.weight(j)
}
