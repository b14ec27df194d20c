//! What follows from the definitions, whatever the texts are.
ghost use Rattle.std.specs.Prelude.{◌≡◌, ℕ, List, All, filter, length, map};
ghost use Rattle.pb_markup.specs.Escapes.{IsPlain, escaped, is_ampersand, is_special};
ghost use Rattle.pb_markup.specs.Pieces.{Piece, Shows, blank, is_markup, rendering};

/// No byte of an escaped text begins or ends a tag, or ends the value of an attribute.
pub fn escaped_is_plain()
    ensures { (bytes : List ℕ) → All IsPlain (escaped bytes) }
{}

/// An escaped text has an ampersand for each of its bytes that is escaped, and no other.
pub fn ampersands_are_escapes()
    ensures { (bytes : List ℕ) → length (filter is_ampersand (escaped bytes)) ≡ length (filter is_special bytes) }
{}

/// Nothing of a text becomes markup: with each text, each value of an attribute and all that is shown left empty, a
/// page has the same brackets and quotes in the same order.
pub fn text_is_no_markup()
    ensures { (s t : Shows) (pieces : List Piece) → filter is_markup (rendering s pieces) ≡ filter is_markup (rendering t (map blank pieces)) }
{}
