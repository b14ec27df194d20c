//! Which section a record marks.
ghost use Rattle.std.specs.Prelude.{◌≡◌};
ghost use Rattle.std.specs.Str.{bytes_eq};
ghost use Rattle.csv.specs.Records.{fields_of};
ghost use Rattle.pb_election.specs.Markers as spec;
ghost use Rattle.pb_election.specs.Names.{lower};

use crate::sections::Section;
use csv::StringRecord;
use pb_records::{clean, is_blank_from};

/// Whether a text is a name, small and capital letters of ASCII being alike.
pub fn is_named(text: &str, name: &str) -> bool
    ensures { result ≡ bytes_eq (lower text.now) (lower name.now) }
{
    text.eq_ignore_ascii_case(name)
}

fn section_named(name: &str) -> Option<Section>
    ensures { result ≡ spec.section_named (lower name.now) }
{
    if is_named(name, "meta") {
        return Some(Section::Meta);
    }
    if is_named(name, "projects") {
        return Some(Section::Projects);
    }
    if is_named(name, "votes") {
        return Some(Section::Votes);
    }
    None
}

/// The section that a record marks, if it marks one.
pub fn marker_of(row: &StringRecord) -> Option<Section>
    ensures { result ≡ spec.marker_of (fields_of row.now) }
{
    let Some(field) = row.get(0) else {
        return None;
    };
    if !is_blank_from(row, 1) {
        return None;
    }
    section_named(clean(field))
}
