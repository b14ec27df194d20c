//! Records that are read as something else than was meant.
use csv::StringRecord;
use pb_election::{Section, column_named, is_named};
use pb_records::{cell, is_blank_from};
use std::alloc::{AllocError, Global};
use strsim::levenshtein;

/// What a record seems to be meant as.
#[derive(Clone, Copy)]
pub(crate) enum Oddity {
    /// One in quotes as a whole, so that it has one field.
    Quoted,
    /// One whose fields are divided by something else.
    Divided(&'static str),
    /// The marker of a section.
    Marker(Section),
    /// The header of a section whose marker is missing.
    Header(Section),
}

impl Oddity {
    /// Whether a record is one field that holds what divides fields.
    pub fn of_one_field(row: &StringRecord, delimiter: u8) -> Option<Oddity> {
        if row.len() != 1 {
            return None;
        }
        let field = row.get(0).unwrap_or("").as_bytes();
        if field.contains(&delimiter) {
            return Some(Oddity::Quoted);
        }
        let (_, name) = [(b';', "';'"), (b',', "','"), (b'\t', "tabs")]
            .into_iter()
            .find(|(divider, _)| field.contains(divider))?;
        Some(Oddity::Divided(name))
    }

    /// What a row of a section of an election seems to be meant as, if not as such a row. One field of VOTES may be a
    /// whole vote.
    pub fn of_row(
        alloc: Global,
        section: Section,
        row: &StringRecord,
    ) -> Result<Option<Oddity>, AllocError> {
        let next = match section {
            Section::Meta => Section::Projects,
            Section::Projects => Section::Votes,
            Section::Votes => return Ok(None),
        };
        if is_meant_as_marker(alloc, next, row)? {
            return Ok(Some(Oddity::Marker(next)));
        }
        if has_columns_of(next, row) {
            return Ok(Some(Oddity::Header(next)));
        }
        Ok(Oddity::of_one_field(row, b';'))
    }

    /// The sentence on such a record, where fields are to be divided by the delimiter.
    pub fn sentence(self, alloc: Global, delimiter: u8) -> Result<String, AllocError> {
        match self {
            Oddity::Quoted => String::from_str(
                alloc,
                "the whole line is in quotes, so it counts as one field",
            ),
            Oddity::Divided(name) => {
                let wanted = char::from(delimiter);
                format!(in alloc; "the fields are separated by {name} here instead of '{wanted}'")
            }
            Oddity::Marker(section) => {
                let name = section_name(section);
                format!(in alloc;
                    "should this be the line {name}? It has to be spelled like that, with nothing else on it"
                )
            }
            Oddity::Header(section) => {
                let name = section_name(section);
                format!(in alloc;
                    "this looks like the header of {name}, but there is no line {name} before it"
                )
            }
        }
    }
}

/// The name of a section, as its marker has it.
pub(crate) fn section_name(section: Section) -> &'static str {
    match section {
        Section::Meta => "META",
        Section::Projects => "PROJECTS",
        Section::Votes => "VOTES",
    }
}

/// Whether a record that is no marker seems to be meant as that of a section: it has the name with more behind it, or
/// alone one that is much like it.
fn is_meant_as_marker(
    alloc: Global,
    section: Section,
    row: &StringRecord,
) -> Result<bool, AllocError> {
    let name = section_name(section);
    let field = cell(row, 0).trim_matches(|letter: char| !letter.is_ascii_alphabetic());
    if is_named(field, name) {
        return Ok(true);
    }
    if !is_blank_from(row, 1) || field.len() > name.len() + 2 {
        return Ok(false);
    }
    let mut capitals = String::from_str(alloc, field)?;
    capitals.make_ascii_uppercase();
    Ok(levenshtein(alloc, &capitals, name)? <= name.len() / 4)
}

/// Whether a record has the columns that the header of a section is known by.
fn has_columns_of(section: Section, row: &StringRecord) -> bool {
    match section {
        Section::Meta => false,
        Section::Projects => {
            column_named("project_id", row).is_some() && column_named("cost", row).is_some()
        }
        Section::Votes => column_named("vote", row).is_some(),
    }
}
