//! The answer box.
use pb_case::{Case, Fillings};
use pb_figures::{CertificateFigures, Figure};
use pb_group_parts::{
    push_failed_test_of_group, push_failed_test_of_weights, push_more_of_groups, push_why_of_groups,
};
use pb_markup::{Page, Tag};
use pb_parts::{push_asked, push_groups, says_little};
use pb_price_parts::push_failed_condition;
use pb_words::{Headline, Sentence, StableWeights};

/// Begins the box, up to the answer in a sentence.
pub(crate) fn open_answer(page: &mut Page, case: &Case<'_>) {
    page.open_class(Tag::Section, class_of(case.told.headline()));
}

/// Adds the reason and what was asked, and ends the box.
pub(crate) fn close_answer(page: &mut Page, case: &Case<'_>) {
    push_reason(page, case);
    push_groups(page, case);
    push_caution(page, case);
    push_of_groups(page, case);
    push_asked(page, case);
    page.close();
}

// A supported outcome is good news, and a violation isn't, nor that no prices support it. That a certificate proves
// neither of these is no news.
fn class_of(headline: Headline) -> &'static str {
    match headline {
        Headline::Supported | Headline::SupportedStable | Headline::NoGroupFallsShort => "answer",
        Headline::NotSupported | Headline::Violation | Headline::GroupFallsShort => "answer bad",
        Headline::Unpriceable
        | Headline::UnpriceableUnderCover
        | Headline::UnpriceableStable
        | Headline::UnpriceableStableUnderCover => "answer bad",
        Headline::NoViolation | Headline::NotRefuted | Headline::NotRefutedStable => {
            "answer neither"
        }
    }
}

fn push_reason(page: &mut Page, case: &Case<'_>) {
    page.open_class(Tag::P, "why");
    match case.told.headline() {
        Headline::Supported => push_plain(page, case, Sentence::WhySupported),
        Headline::SupportedStable => push_plain(page, case, Sentence::WhyStable),
        Headline::Violation => push_plain(page, case, Sentence::WhyViolation),
        Headline::Unpriceable => push_plain(page, case, Sentence::WhyUnpriceable),
        Headline::UnpriceableUnderCover => push_plain(
            page,
            case,
            Sentence::WhyUnpriceableUnderCover,
        ),
        Headline::UnpriceableStable => push_plain(
            page,
            case,
            Sentence::OfStableWeights(StableWeights::WhyUnpriceable),
        ),
        Headline::UnpriceableStableUnderCover => push_plain(
            page,
            case,
            Sentence::OfStableWeights(StableWeights::WhyUnpriceableUnderCover),
        ),
        Headline::NotSupported
        | Headline::NoViolation
        | Headline::NotRefuted
        | Headline::NotRefutedStable
        | Headline::NoGroupFallsShort
        | Headline::GroupFallsShort => push_found(page, case),
    }
    page.close();
}

// Adds how little a yes says, where that is so.
fn push_caution(page: &mut Page, case: &Case<'_>) {
    if !says_little(case) {
        return;
    }
    let sentence = if case.told.mode.exhaustive {
        Sentence::SaysLess
    } else {
        Sentence::SaysLittle
    };
    let fillings = Fillings::none(case.words.alloc)
        .and_money("budgets", Figure::Budgets)
        .and_money("limit", Figure::Limit);
    case.say_in(page, Tag::P, "caution", sentence, &fillings);
}

fn push_plain(page: &mut Page, case: &Case<'_>, sentence: Sentence) {
    case.say(page, sentence, &Fillings::none(case.words.alloc));
}

// Adds more of groups that fall short, where the page is about them.
fn push_of_groups(page: &mut Page, case: &Case<'_>) {
    if let CertificateFigures::Groups(figures) = &case.told.found {
        push_more_of_groups(page, case, figures);
    }
}

// Adds what fails first, or why groups fall short or don't.
fn push_found(page: &mut Page, case: &Case<'_>) {
    match &case.told.found {
        CertificateFigures::Prices(figures) => push_failed_condition(page, case, figures),
        CertificateFigures::Violation(figures) => push_failed_test_of_group(page, case, figures),
        CertificateFigures::Refutation(figures) => push_failed_test_of_weights(page, case, figures),
        CertificateFigures::Groups(figures) => push_why_of_groups(page, case, figures),
    }
}
