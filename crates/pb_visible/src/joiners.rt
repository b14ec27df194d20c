//! Where a joiner is part of how a word or an emoji is written.
ghost use Rattle.std.specs.Prelude.{◌≡◌};
ghost use Rattle.ucd_category.specs.GeneralCategory.{general_category};
ghost use Rattle.ucd_category.specs.GeneralCategoryGroup.{in_group};
ghost use Rattle.ucd_category.specs.declared.GeneralCategoryGroup.TheVariants.{Letter};
ghost use Rattle.pb_visible.specs.Joiners.{are_conjoined, are_cursive, are_emoji, is_spelling};

use ucd_bidi::JoiningType;
use ucd_category::GeneralCategory;
use ucd_derived::is_grapheme_link;
use ucd_emoji::is_emoji_presentation;

/// Whether a character is a joiner that belongs to what stands before and after it.
#[tactic(auto, unfolding(crate::specs::Joiners::is_spelling))]
pub(crate) fn is_spelling(before: char, c: char, after: char) -> bool
    ensures { result ≡ is_spelling before c after }
{
    match c {
        '\u{200C}' => are_conjoined(before, after) || are_cursive(before, after),
        '\u{200D}' => are_conjoined(before, after) || are_emoji(before, after),
        _ => false,
    }
}

// Whether one sounds no vowel and is joined with the letter that follows, as in the scripts of India.
fn are_conjoined(before: char, after: char) -> bool
    ensures { result ≡ are_conjoined before after }
{
    is_grapheme_link(before) && is_letter(after)
}

// The categories of letters have the first numbers.
fn is_letter(c: char) -> bool
    ensures { result ≡ in_group Letter (general_category c) }
{
    ucd_table::search(GeneralCategory::runs(), c as u32) <= GeneralCategory::OtherLetter.number()
}

// Whether two letters are written as one, as in Arabic.
fn are_cursive(before: char, after: char) -> bool
    ensures { result ≡ are_cursive before after }
{
    let (before, after) = (JoiningType::for_char(before), JoiningType::for_char(after));
    (before == JoiningType::DualJoining || before == JoiningType::LeftJoining)
        && (after == JoiningType::DualJoining || after == JoiningType::RightJoining)
}

fn are_emoji(before: char, after: char) -> bool
    ensures { result ≡ are_emoji before after }
{
    is_emoji_presentation(before) && is_emoji_presentation(after)
}
