//! What an answer on groups that fall short doesn't say, what it lets one say, and its words.
use pb_case::Case;
use pb_certificate::Measure;
use pb_cohesion::GroupsVerdict;
use pb_figures::{CertificateFigures, ShortFigures};
use pb_words::{Sentence, ShortGroups};

/// What the answer doesn't say. Where all that anybody wants was funded, no group got less than it deserves.
pub(crate) fn not_said(figures: &ShortFigures) -> &'static [Sentence] {
    match (figures.verdict(), &figures.shown) {
        (GroupsVerdict::Satisfied, None) => &[
            Sentence::OfShortGroups(ShortGroups::NotSaidLimit),
            Sentence::OfShortGroups(ShortGroups::NotSaidPrices),
        ],
        (GroupsVerdict::Satisfied, Some(_)) => &[
            Sentence::OfShortGroups(ShortGroups::NotSaidRoom),
            Sentence::OfShortGroups(ShortGroups::NotSaidLimit),
            Sentence::OfShortGroups(ShortGroups::NotSaidLittle),
            Sentence::OfShortGroups(ShortGroups::NotSaidPrices),
        ],
        (GroupsVerdict::Failed { .. }, _) => &[
            Sentence::OfShortGroups(ShortGroups::NotSaidAdded),
            Sentence::NotSaidWhich,
            Sentence::OfShortGroups(ShortGroups::NotSaidPrices),
        ],
    }
}

/// What can be said in public.
pub(crate) fn claim(figures: &ShortFigures) -> Sentence {
    Sentence::OfShortGroups(match (figures.verdict(), figures.measure) {
        (GroupsVerdict::Satisfied, Measure::ByCost) => ShortGroups::ClaimNoneByCost,
        (GroupsVerdict::Satisfied, Measure::ByCount) => ShortGroups::ClaimNoneByCount,
        (GroupsVerdict::Failed { .. }, Measure::ByCost) => ShortGroups::ClaimSomeByCost,
        (GroupsVerdict::Failed { .. }, Measure::ByCount) => ShortGroups::ClaimSomeByCount,
    })
}

/// The words of the page, each with what it means by this measure.
pub(crate) fn words_of(measure: Measure) -> [(ShortGroups, ShortGroups); 3] {
    let short = match measure {
        Measure::ByCost => ShortGroups::MeansShort,
        Measure::ByCount => ShortGroups::MeansShortByCount,
    };
    [
        (ShortGroups::WordShort, short),
        (ShortGroups::WordPart, ShortGroups::MeansPart),
        (ShortGroups::WordEjrPlus, ShortGroups::MeansEjrPlus),
    ]
}
