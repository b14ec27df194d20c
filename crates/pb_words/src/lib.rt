//! The words of the page about a certificate: its sentences in each language, the answer in a sentence, and the version.
#![tactic(auto)]

mod headlines;
mod language;
mod sentence;
mod short_groups;
mod version;
mod wording;

pub use headlines::{Headline, headline_words};
pub use language::Language;
pub use sentence::{Plural, Sentence, StableWeights};
pub use short_groups::ShortGroups;
pub use version::VERSION;
pub use wording::wording_of;
