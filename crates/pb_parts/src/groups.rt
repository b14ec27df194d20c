//! What a yes to prices says of every group of voters.
use pb_case::{Case, Fillings};
use pb_figures::{CertificateFigures, Told};
use pb_markup::{Page, Tag};
use pb_price::{NearestGroup, OnGroups, Verdict};
use pb_words::Sentence;

// A unit of the currency in millionths.
const MILLION: u64 = 1_000_000;

/// What the answer says of groups, where it is a yes to prices.
pub(crate) fn on_groups(told: &Told) -> Option<OnGroups> {
    let CertificateFigures::Prices(figures) = &told.found else {
        return None;
    };
    match figures.findings.verdict(told.mode) {
        Verdict::Supported => Some(figures.findings.on_groups(told.mode)),
        Verdict::Failed(_) => None,
    }
}

/// The sentence that says it, unless it is little.
pub(crate) fn said_of_groups(told: &Told) -> Option<Sentence> {
    match on_groups(told) {
        Some(OnGroups::Strict) => Some(Sentence::GroupsBelowReach),
        Some(OnGroups::Weak) => Some(Sentence::GroupsWithinReach),
        Some(OnGroups::Little) | None => None,
    }
}

/// Whether the answer is a yes to prices, and says little of groups.
pub fn says_little(case: &Case<'_>) -> bool {
    on_groups(&case.told) == Some(OnGroups::Little)
}

/// Adds what the answer says of groups, where it says something, and the group that comes nearest.
pub fn push_groups(page: &mut Page, case: &Case<'_>) {
    let Some(sentence) = said_of_groups(&case.told) else {
        return;
    };
    page.open_class(Tag::P, "groups");
    page.text(case.words.say(sentence));
    if let Some(group) = &case.nearest {
        page.text(" ");
        push_nearest(page, case, group);
    }
    page.close();
}

fn push_nearest(page: &mut Page, case: &Case<'_>, group: &NearestGroup) {
    let count = u64::from(group.supporters);
    let fillings = Fillings::none(case.words.alloc)
        .and_label("project", case.project(group.project))
        .and_number("count", count)
        .and_scaled(
            "share",
            share_of(case, group),
            MILLION * u64::from(case.decided.election().voters()),
        )
        .and_scaled("cost", cost_of(case, group.project), MILLION)
        .and_scaled("funded", group.funded_for, MILLION);
    case.say(
        page,
        Sentence::NearestGroup(case.words.plural(count)),
        &fillings,
    );
}

// The share of a group in the limit: of a millionth cut into as many parts as there are voters it is a whole number.
fn share_of(case: &Case<'_>, group: &NearestGroup) -> u128 {
    let limit = case.decided.election().limit();
    u128::from(group.supporters) * u128::from(limit.millionths())
}

fn cost_of(case: &Case<'_>, j: u32) -> u128 {
    let election = case.decided.election();
    if j == 0 || j > election.projects() {
        return 0;
    }
    u128::from(election.cost(j).millionths())
}
