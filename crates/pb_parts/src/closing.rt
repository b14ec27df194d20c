//! What the answer doesn't say, what it lets one say in public, and the words of the page.
use crate::asked::fails_as_stable_alone;
use crate::groups::{on_groups, said_of_groups, says_little};
use crate::short_groups;
use pb_case::Case;
use pb_certificate::Measure;
use pb_figures::{CertificateFigures, PriceFigures, RefutationFigures};
use pb_markup::{Page, Tag};
use pb_price::{Failure, Verdict};
use pb_words::{Headline, Sentence, ShortGroups, StableWeights};

/// Adds the parts behind the figures.
pub fn push_closing(page: &mut Page, case: &Case<'_>) {
    push_not_said(page, case);
    push_claim(page, case);
    push_words(page, case);
}

fn push_not_said(page: &mut Page, case: &Case<'_>) {
    page.open(Tag::Section);
    page.element(Tag::H2, case.words.say(Sentence::NotSaid));
    page.open(Tag::Ul);
    match &case.told.found {
        CertificateFigures::Groups(figures) => {
            for sentence in short_groups::not_said(figures) {
                page.element(Tag::Li, case.words.say(*sentence));
            }
        }
        _ => push_not_said_of_certificate(page, case),
    }
    page.element(Tag::Li, case.words.say(Sentence::NotSaidFiles));
    page.close();
    page.close();
}

fn push_not_said_of_certificate(page: &mut Page, case: &Case<'_>) {
    push_not_said_of_plain(page, case);
    page.element(Tag::Li, case.words.say(not_said(case)));
    push_not_said_of_groups(page, case);
}

// Adds that there may be prices all the same, where weights refute stable ones alone.
fn push_not_said_of_plain(page: &mut Page, case: &Case<'_>) {
    match case.told.headline() {
        Headline::UnpriceableStable | Headline::UnpriceableStableUnderCover => {
            let sentence = Sentence::OfStableWeights(StableWeights::NotSaidPlain);
            page.element(Tag::Li, case.words.say(sentence));
        }
        _ => {}
    }
}

// Adds what a yes to prices doesn't say of groups.
fn push_not_said_of_groups(page: &mut Page, case: &Case<'_>) {
    if on_groups(&case.told).is_none() {
        return;
    }
    page.element(Tag::Li, case.words.say(Sentence::NotSaidDeserved));
    if says_little(case) {
        page.element(Tag::Li, case.words.say(Sentence::NotSaidGroups));
    }
}

fn not_said(case: &Case<'_>) -> Sentence {
    match case.told.headline() {
        Headline::Supported | Headline::SupportedStable => Sentence::NotSaidOthers,
        Headline::NotSupported if is_of_outcome(case) => Sentence::NotSaidOutcome,
        Headline::NotSupported => Sentence::NotSaidPayments,
        Headline::Violation => Sentence::NotSaidWhich,
        Headline::NoViolation => Sentence::NotSaidGroup,
        Headline::Unpriceable
        | Headline::UnpriceableUnderCover
        | Headline::UnpriceableStable
        | Headline::UnpriceableStableUnderCover => Sentence::NotSaidUnfair,
        Headline::NotRefuted => Sentence::NotSaidWeights,
        Headline::NoGroupFallsShort | Headline::GroupFallsShort => Sentence::NotSaidFiles,
        Headline::NotRefutedStable => Sentence::OfStableWeights(StableWeights::NotSaidWeights),
    }
}

fn push_claim(page: &mut Page, case: &Case<'_>) {
    page.open(Tag::Section);
    page.element(Tag::H2, case.words.say(Sentence::Claim));
    page.open_class(Tag::P, "claim");
    if let Some(sentence) = said_of_groups(&case.told) {
        page.text(case.words.say(sentence));
        page.text(" ");
    }
    page.text(case.words.say(claim_of(case)));
    push_measure(page, case);
    push_caution(page, case);
    page.close();
    page.element(Tag::P, case.words.say(Sentence::ClaimHow));
    page.close();
}

// Adds by which measure there is a violation, where there is one.
fn push_measure(page: &mut Page, case: &Case<'_>) {
    let CertificateFigures::Violation(figures) = &case.told.found else {
        return;
    };
    if case.told.headline() != Headline::Violation {
        return;
    }
    page.text(" ");
    let sentence = match figures.violation.satisfaction() {
        Measure::ByCount => Sentence::ClaimByCount,
        Measure::ByCost => Sentence::ClaimByCost,
    };
    page.text(case.words.say(sentence));
}

// Adds how little a yes says, where that is so.
fn push_caution(page: &mut Page, case: &Case<'_>) {
    if !says_little(case) {
        return;
    }
    page.text(" ");
    let sentence = if case.told.mode.exhaustive {
        Sentence::ClaimLess
    } else {
        Sentence::ClaimLittle
    };
    page.text(case.words.say(sentence));
}

fn claim_of(case: &Case<'_>) -> Sentence {
    match &case.told.found {
        CertificateFigures::Groups(figures) => short_groups::claim(figures),
        _ => claim_of_certificate(case),
    }
}

fn claim_of_certificate(case: &Case<'_>) -> Sentence {
    match case.told.headline() {
        Headline::Supported => Sentence::ClaimSupported,
        Headline::SupportedStable => Sentence::ClaimStable,
        Headline::NotSupported if is_of_outcome(case) => Sentence::ClaimOutcome,
        Headline::NotSupported if is_plain_alone(case) => Sentence::ClaimPlain,
        Headline::NotSupported => Sentence::ClaimNotSupported,
        Headline::Violation => Sentence::ClaimViolation,
        Headline::NoViolation => Sentence::ClaimNoViolation,
        Headline::Unpriceable => Sentence::ClaimUnpriceable,
        Headline::UnpriceableUnderCover => Sentence::ClaimUnpriceableUnderCover,
        Headline::UnpriceableStable => {
            Sentence::OfStableWeights(StableWeights::ClaimUnpriceable)
        }
        Headline::UnpriceableStableUnderCover => {
            Sentence::OfStableWeights(StableWeights::ClaimUnpriceableUnderCover)
        }
        Headline::NotRefuted => Sentence::ClaimNotRefuted,
        Headline::NoGroupFallsShort | Headline::GroupFallsShort => Sentence::ClaimHow,
        Headline::NotRefutedStable => Sentence::OfStableWeights(StableWeights::ClaimNotRefuted),
    }
}

// Whether what fails is of the outcome alone, which no payments change.
fn is_of_outcome(case: &Case<'_>) -> bool {
    match &case.told.found {
        CertificateFigures::Prices(figures) => fails_by_outcome(case, figures),
        _ => false,
    }
}

// Whether the payments support the outcome in the plain form, and not in the stable one that was asked.
fn is_plain_alone(case: &Case<'_>) -> bool {
    match &case.told.found {
        CertificateFigures::Prices(figures) => fails_as_stable_alone(case, figures),
        _ => false,
    }
}

fn fails_by_outcome(case: &Case<'_>, figures: &PriceFigures) -> bool {
    match figures.findings.verdict(case.told.mode) {
        Verdict::Failed(Failure::Feasible | Failure::Exhaustive(_)) => true,
        Verdict::Supported | Verdict::Failed(_) => false,
    }
}

fn push_words(page: &mut Page, case: &Case<'_>) {
    page.open(Tag::Section);
    page.element(Tag::H2, case.words.say(Sentence::Words));
    page.open_class(Tag::Dl, "words");
    match &case.told.found {
        CertificateFigures::Prices(_) => push_words_of_prices(page, case),
        CertificateFigures::Violation(_) => push_words_of_violations(page, case),
        CertificateFigures::Refutation(figures) => push_words_of_refutations(page, case, figures),
        CertificateFigures::Groups(figures) => push_words_of_groups(page, case, figures.measure),
    }
    page.close();
    page.close();
}

fn push_word_of_certificates(page: &mut Page, case: &Case<'_>) {
    push_word(
        page,
        case,
        Sentence::WordCertificate,
        Sentence::MeansCertificate,
    );
}

fn push_words_of_groups(page: &mut Page, case: &Case<'_>, measure: Measure) {
    for (word, meaning) in short_groups::words_of(measure) {
        push_word(
            page,
            case,
            Sentence::OfShortGroups(word),
            Sentence::OfShortGroups(meaning),
        );
    }
}

fn push_words_of_prices(page: &mut Page, case: &Case<'_>) {
    push_word_of_certificates(page, case);
    push_word(page, case, Sentence::WordPrices, Sentence::MeansPrices);
    push_word(
        page,
        case,
        Sentence::WordSupporter,
        Sentence::MeansSupporter,
    );
    push_word(page, case, Sentence::WordLeftover, Sentence::MeansLeftover);
    push_word(page, case, Sentence::WordOffer, Sentence::MeansOffer);
}

fn push_words_of_violations(page: &mut Page, case: &Case<'_>) {
    push_word_of_certificates(page, case);
    push_word(page, case, Sentence::WordShare, Sentence::MeansShare);
    push_word(page, case, Sentence::WordDemand, Sentence::MeansDemand);
}

fn push_words_of_refutations(page: &mut Page, case: &Case<'_>, figures: &RefutationFigures) {
    push_word_of_certificates(page, case);
    push_word(page, case, Sentence::WordPrices, Sentence::MeansPrices);
    push_word(
        page,
        case,
        Sentence::WordSupporter,
        Sentence::MeansSupporter,
    );
    push_word(page, case, Sentence::WordLeftover, Sentence::MeansLeftover);
    if figures.tells_of_stable() {
        push_word(page, case, Sentence::WordOffer, Sentence::MeansOffer);
    }
    push_word(page, case, Sentence::WordWeight, Sentence::MeansWeight);
}

fn push_word(page: &mut Page, case: &Case<'_>, word: Sentence, meaning: Sentence) {
    page.element(Tag::Dt, case.words.say(word));
    page.element(Tag::Dd, case.words.say(meaning));
}
