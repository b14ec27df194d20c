//! The sentences of a page about groups that fall short, by name.
use crate::sentence::Plural;

/// A sentence of a page about groups that fall short.
#[derive(Clone, Copy)]
pub enum ShortGroups {
    // The answer.
    NoneByCost,
    NoneByCount,
    NobodyWantsMore,
    SomeByCost,
    SomeByCount,
    Closest,
    BeyondLimit,
    AskedByCost,
    AskedByCount,
    // The table.
    HowTable,
    Group,
    Part,
    Need,
    PartAgainstNeed,
    LabelPartAgainstNeed,
    FallsShort,
    NobodyWants(Plural),
    // What the answer doesn't say, and what it lets one say.
    NotSaidRoom,
    NotSaidLimit,
    NotSaidLittle,
    NotSaidAdded,
    NotSaidPrices,
    ClaimNoneByCost,
    ClaimNoneByCount,
    ClaimSomeByCost,
    ClaimSomeByCount,
    // The words of the page.
    WordShort,
    MeansShort,
    MeansShortByCount,
    WordPart,
    MeansPart,
    WordEjrPlus,
    MeansEjrPlus,
}
