//! Which characters can't be seen as themselves.
ghost use Rattle.std.specs.Prelude.{◌≡◌};
ghost use Rattle.pb_visible.specs.Hidden.{is_blank, is_hidden, is_other_or_separator};

use ucd_category::GeneralCategory;
use ucd_derived::is_default_ignorable_code_point;

/// Whether a character can't be seen as itself: a control, a mark of format, a space other than U+0020, the end of a
/// line, a code point that is private or has no character, one that is ignored where it isn't known, or a blank.
#[tactic(auto, unfolding(crate::specs::Hidden::is_hidden))]
pub fn is_hidden(c: char) -> bool
    ensures { result ≡ is_hidden c }
{
    c != ' ' && (is_other_or_separator(c) || is_default_ignorable_code_point(c) || is_blank(c))
}

// The categories of the two groups have the last numbers.
fn is_other_or_separator(c: char) -> bool
    ensures { result ≡ is_other_or_separator c }
{
    ucd_table::search(GeneralCategory::runs(), c as u32) >= GeneralCategory::SpaceSeparator.number()
}

fn is_blank(c: char) -> bool
    ensures { result ≡ is_blank c }
{
    matches!(c, '\u{2800}' | '\u{FFFC}' | '\u{16FE4}' | '\u{1D159}')
}
