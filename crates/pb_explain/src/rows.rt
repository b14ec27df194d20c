//! What the rows of a table have in common.
ghost use Rattle.std.specs.Prelude.{◌≡◌, ◌∷◌, ◌++◌, [], OnOk, map, string_bytes};
ghost use Rattle.pb_explain.specs.Rows as spec;

use std::alloc::AllocError;
use std::fmt;

/// The begin of the row of a condition that is always asked for: its name, as a column, and whether it holds.
#[derive(Clone, Copy)]
pub(crate) struct Opening<'a>(pub(crate) &'a str, pub(crate) bool);

impl<'a> fmt::Display for Opening<'a> {
    ghost use Rattle.std.specs.Prelude.{Some};
    ghost use Rattle.pb_explain.specs.Rows.{opening};

    ghost output = { λ o. Some (opening o.0.now o.1) };

    #[tactic(auto, unfolding(crate::specs::Rows::opening))]
    fn fmt<W: fmt::Write>(&self, f: &mut fmt::Formatter<W>) -> fmt::Result {
        write!(f, "{}{}      ", self.0, answer(self.1))
    }
}

/// The begin of the row of a condition that may be asked for or not: whether it is, its name, how to ask for it, and
/// whether it holds.
#[derive(Clone, Copy)]
pub(crate) struct OpeningIf<'a>(
    pub(crate) bool,
    pub(crate) &'a str,
    pub(crate) &'a str,
    pub(crate) bool,
);

impl<'a> fmt::Display for OpeningIf<'a> {
    ghost use Rattle.std.specs.Prelude.{Some};
    ghost use Rattle.pb_explain.specs.Rows.{opening_if};

    ghost output = { λ o. Some (opening_if o.0 o.1.now o.2.now o.3) };

    #[tactic(auto, unfolding(crate::specs::Rows::opening_if))]
    fn fmt<W: fmt::Write>(&self, f: &mut fmt::Formatter<W>) -> fmt::Result {
        let (asked, name, how, holds) = (self.0, self.1, self.2, self.3);
        if asked {
            write!(f, "{}", Opening(name, holds))
        } else {
            write!(f, "{name}not asked  {how} it {}: ", answer(holds))
        }
    }
}

fn answer<'a>(holds: bool) -> &'a str
    ensures { result.now ≡ spec.answer holds }
{
    if holds { "holds" } else { "fails" }
}

/// How many culprits there are, by what they are.
#[derive(Clone, Copy)]
pub(crate) struct HowMany<'a>(pub(crate) &'a str, pub(crate) u64);

impl<'a> fmt::Display for HowMany<'a> {
    ghost use Rattle.std.specs.Prelude.{Some};
    ghost use Rattle.pb_explain.specs.Rows.{how_many};

    ghost output = { λ it. Some (how_many it.0.now it.1) };

    #[tactic(auto, unfolding(crate::specs::Rows::how_many))]
    fn fmt<W: fmt::Write>(&self, f: &mut fmt::Formatter<W>) -> fmt::Result {
        write!(f, " ({}: {})", self.0, self.1)
    }
}

/// Adds a line to a list of lines.
pub(crate) fn push_line(lines: &mut Vec<String>, line: String) -> Result<(), AllocError>
    ensures { OnOk result (map string_bytes lines.new.items ≡ map string_bytes lines.old.items ++ (string_bytes line ∷ [])) }
{
    lines.push(line)?;
    Ok(())
}
