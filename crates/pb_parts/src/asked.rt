//! What was asked, in plain words, and what the stable form would answer.
use pb_case::{Case, Fillings};
use pb_certificate::Measure;
use pb_figures::{CertificateFigures, PriceFigures, RefutationFigures};
use pb_markup::{Page, Tag};
use pb_price::{Mode, Verdict};
use pb_words::{Sentence, ShortGroups, StableWeights};

/// Adds what was asked.
pub fn push_asked(page: &mut Page, case: &Case<'_>) {
    page.open_class(Tag::Ul, "asked");
    match &case.told.found {
        CertificateFigures::Prices(figures) => push_asked_of_prices(page, case, figures),
        CertificateFigures::Violation(figures) => {
            let measure = figures.violation.satisfaction();
            page.element(Tag::Li, case.words.say(measure_asked(measure)));
        }
        CertificateFigures::Refutation(figures) => push_asked_of_weights(page, case, figures),
        CertificateFigures::Groups(figures) => {
            page.element(Tag::Li, case.words.say(groups_asked(figures.measure)));
        }
    }
    page.close();
}

fn measure_asked(measure: Measure) -> Sentence {
    match measure {
        Measure::ByCount => Sentence::AskedByCount,
        Measure::ByCost => Sentence::AskedByCost,
    }
}

fn groups_asked(measure: Measure) -> Sentence {
    Sentence::OfShortGroups(match measure {
        Measure::ByCount => ShortGroups::AskedByCount,
        Measure::ByCost => ShortGroups::AskedByCost,
    })
}

fn refutation_asked(figures: &RefutationFigures) -> Sentence {
    match (figures.asks_stable(), figures.refutation.cover() == 0) {
        (false, true) => Sentence::AskedRefutation,
        (false, false) => Sentence::AskedRefutationUnderCover,
        (true, true) => Sentence::OfStableWeights(StableWeights::Asked),
        (true, false) => Sentence::OfStableWeights(StableWeights::AskedUnderCover),
    }
}

// Adds what was asked of weights, and that they prove it of all prices, where stable ones alone were asked about.
fn push_asked_of_weights(page: &mut Page, case: &Case<'_>, figures: &RefutationFigures) {
    page.element(Tag::Li, case.words.say(refutation_asked(figures)));
    if figures.asks_stable() && !figures.tells_of_stable() {
        let sentence = Sentence::OfStableWeights(StableWeights::OfAllPrices);
        page.element_class(Tag::Li, "stable", case.words.say(sentence));
    }
}

fn push_asked_of_prices(page: &mut Page, case: &Case<'_>, figures: &PriceFigures) {
    push_other_answer(page, case, figures);
    let mode = case.told.mode;
    for sentence in [form_asked(mode), exhaustive_asked(mode), cover_asked(mode)] {
        page.element(Tag::Li, case.words.say(sentence));
    }
}

/// Whether the stable form was asked, and fails, and the plain one holds.
pub(crate) fn fails_as_stable_alone(case: &Case<'_>, figures: &PriceFigures) -> bool {
    let mode = case.told.mode;
    let plain = Mode {
        stable: false,
        ..mode
    };
    let findings = &figures.findings;
    findings.verdict(mode) != Verdict::Supported && findings.verdict(plain) == Verdict::Supported
}

fn form_asked(mode: Mode) -> Sentence {
    if mode.stable {
        Sentence::AskedStable
    } else {
        Sentence::AskedPlain
    }
}

fn exhaustive_asked(mode: Mode) -> Sentence {
    if mode.exhaustive {
        Sentence::AskedExhaustive
    } else {
        Sentence::UnaskedExhaustive
    }
}

fn cover_asked(mode: Mode) -> Sentence {
    if mode.cover {
        Sentence::AskedCover
    } else {
        Sentence::UnaskedCover
    }
}

// Where the plain form holds, the answer in the other form: whether the stable one would hold as well, and for how many
// projects it would not, or that the plain one holds where only the stable one fails.
fn push_other_answer(page: &mut Page, case: &Case<'_>, figures: &PriceFigures) {
    if fails_as_stable_alone(case, figures) {
        return page.element_class(Tag::Li, "stable", case.words.say(Sentence::PlainHolds));
    }
    let mode = case.told.mode;
    if mode.stable || figures.findings.verdict(mode) != Verdict::Supported {
        return;
    }
    let count = u64::from(figures.findings.s5.count);
    let sentence = match count {
        0 => Sentence::StableToo,
        _ => Sentence::NotStable(case.words.plural(count)),
    };
    page.open_class(Tag::Li, "stable");
    let fillings = Fillings::none(case.words.alloc).and_number("count", count);
    case.say(page, sentence, &fillings);
    page.close();
}
