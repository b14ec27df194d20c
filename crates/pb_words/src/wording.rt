//! What the sentences of a page say.
mod de;
mod en;
mod fr;
mod pl;
mod short_groups;

use crate::language::Language;
use crate::sentence::Sentence;

/// What a sentence says in a language.
pub fn wording_of(language: Language, sentence: Sentence) -> &'static str {
    match language {
        Language::English => en::wording(sentence),
        Language::Polish => pl::wording(sentence),
        Language::German => de::wording(sentence),
        Language::French => fr::wording(sentence),
    }
}
