//! What the answer says of groups that fall short: of which one, or why there is none.
use pb_case::{Case, Fillings};
use pb_certificate::Measure;
use pb_cohesion::{GroupFigures, GroupsVerdict};
use pb_figures::{Figure, ShortFigures};
use pb_markup::{Page, Tag};
use pb_words::{Sentence, ShortGroups};

/// Adds why a group falls short, or why none does.
pub fn push_why_of_groups(page: &mut Page, case: &Case<'_>, figures: &ShortFigures) {
    if is_some_short(figures) {
        push_shown(page, case, figures, some_by(figures.measure));
    } else {
        let sentence = Sentence::OfShortGroups(why_none(figures));
        page.text(case.words.say(sentence));
    }
}

/// Adds the group that comes closest, where none falls short, and how much more than the limit the outcome costs, where
/// it does.
pub fn push_more_of_groups(page: &mut Page, case: &Case<'_>, figures: &ShortFigures) {
    if !is_some_short(figures) && figures.shown.is_some() {
        page.open_class(Tag::P, "groups");
        push_shown(page, case, figures, ShortGroups::Closest);
        page.close();
    }
    if figures.funded > u128::from(figures.limit) {
        let fillings = Fillings::none(case.words.alloc).and_money("amount", Figure::Remains);
        let sentence = Sentence::OfShortGroups(ShortGroups::BeyondLimit);
        case.say_in(page, Tag::P, "caution", sentence, &fillings);
    }
}

fn is_some_short(figures: &ShortFigures) -> bool {
    figures.verdict() != GroupsVerdict::Satisfied
}

fn why_none(figures: &ShortFigures) -> ShortGroups {
    match figures.measure {
        _ if figures.groups.is_empty() => ShortGroups::NobodyWantsMore,
        Measure::ByCost => ShortGroups::NoneByCost,
        Measure::ByCount => ShortGroups::NoneByCount,
    }
}

fn some_by(measure: Measure) -> ShortGroups {
    match measure {
        Measure::ByCost => ShortGroups::SomeByCost,
        Measure::ByCount => ShortGroups::SomeByCount,
    }
}

// Adds a sentence about the group that is shown.
fn push_shown(page: &mut Page, case: &Case<'_>, figures: &ShortFigures, sentence: ShortGroups) {
    let Some(group) = &figures.shown else {
        return;
    };
    let row = row_of(figures, group.project);
    let fillings = Fillings::none(case.words.alloc)
        .and_number("count", u64::from(group.voters))
        .and_number("all", u64::from(group.supporters))
        .and_label("project", case.project(group.project))
        .and_money("share", Figure::Part(row))
        .and_money("cost", Figure::Cost(group.project))
        .and_money("need", Figure::Need(row));
    let fillings = with_most(fillings, figures, group, row);
    case.say(page, Sentence::OfShortGroups(sentence), &fillings);
}

// With the most that a member got: an amount, or a number of projects.
fn with_most(
    fillings: Fillings,
    figures: &ShortFigures,
    group: &GroupFigures,
    row: u32,
) -> Fillings {
    match figures.measure {
        Measure::ByCost => fillings.and_money("most", Figure::Most(row)),
        Measure::ByCount => fillings.and_whole("most", group.most),
    }
}

// In which row the group of a project stands.
fn row_of(figures: &ShortFigures, project: u32) -> u32 {
    let before = figures
        .groups
        .iter()
        .take_while(|group| group.project != project)
        .count();
    u32::try_from(before + 1).unwrap_or(0)
}
