//! What is asked of an election and of what belongs to it.
use pb_certificate::Measure;
use pb_price::Mode;

/// A question. Each has one answer, by `answer`.
#[derive(Clone, Copy, Debug, PartialEq, Eq)]
pub enum Question {
    /// What an election has. It alone is taken.
    Read,
    /// Whether a group of voters falls short, by a measure of what they got. No certificate is taken.
    Groups(Measure),
    /// The same with an empty line behind it, and the figures of one group: after a no the largest that falls short for
    /// the project that is named, and after a yes the one whose share of the limit covers most of what it has to come
    /// to. No certificate is taken.
    ExplainGroups(Measure),
    /// The table of the figures of one group for each unfunded project with a supporter, as comma-separated values.
    /// Needs, shares and what is missing are numerators of millionths over the number of voters. No certificate is taken.
    /// A table is answered by a yes, whether or not a group falls short.
    GroupMargins(Measure),
    /// Whether the prices of a certificate support the outcome.
    Prices(Mode),
    /// Whether the group and the demand of a certificate are a violation, by the measure that it states.
    Violation,
    /// Whether the weights of a certificate prove that no prices support the outcome; where `true` is asked, or else that
    /// no stable prices do.
    Refutation(bool),
    /// Both of a price certificate and of a violation certificate. It alone takes the latter.
    Both(Mode),
    /// The verdict on a certificate of any kind, an empty line, and a line for each condition or test with the figures
    /// that it compares. Where the first record of the certificate that is not blank is the head of a violation
    /// certificate or of a refutation, it is taken as one; any other is taken as prices. For a violation the mode counts
    /// for nothing, and for a refutation it says only whether stable prices are asked about.
    Explain(Mode),
    /// The table of the figures of each project by a price certificate, as comma-separated values. Amounts are in
    /// grains, of which one unit of the currency has 10^6 D, where D is the denominator of the certificate. A table is
    /// answered by a yes, whatever the prices support.
    Margins,
    /// The canonical text of a price certificate. No outcome file is taken.
    Tidy,
}
