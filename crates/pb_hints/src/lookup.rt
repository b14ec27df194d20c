//! Looking up in an election which project or voter a name is that of.
use crate::FileKind;
use crate::story::Story;
use crate::walk::Walk;
use pb_election::{RecordKind, Section, field_in, is_named};
use std::alloc::{AllocError, Global};

/// What was found of a name in a section.
#[derive(Drop)]
pub(crate) struct Lookup {
    /// How many rows the section has, as far as it was gone over.
    pub rows: u64,
    /// The first row, from 1, that has the name.
    pub row: Option<u64>,
    /// The project's id there.
    pub id: String,
}

/// Looks up in PROJECTS which project has this `name`, or an id that differs from this one by small and capital letters
/// alone.
pub(crate) fn find_project(
    alloc: Global,
    election: &[u8],
    name: &str,
) -> Result<Lookup, AllocError> {
    find(alloc, election, Section::Projects, name)
}

/// Looks up in VOTES which voter has this `voter_id`.
pub(crate) fn find_voter(alloc: Global, election: &[u8], id: &str) -> Result<Lookup, AllocError> {
    find(alloc, election, Section::Votes, id)
}

fn find(
    alloc: Global,
    election: &[u8],
    section: Section,
    name: &str,
) -> Result<Lookup, AllocError> {
    let mut walk = Walk::open(alloc, election, FileKind::Election.delimiter())?;
    let mut story = Story::new(alloc, FileKind::Election);
    let mut found = Lookup {
        rows: 0,
        row: None,
        id: String::new(alloc),
    };
    for _ in 0..u64::MAX {
        if !walk.advance_before(u64::MAX)? {
            break;
        }
        let row = walk.row();
        story.take(row, walk.start())?;
        if story.part == RecordKind::Marker(Section::Votes) && section == Section::Projects {
            break;
        }
        if story.part != RecordKind::Row(section) {
            continue;
        }
        found.rows = story.rows;
        let columns = story.columns;
        let is_this = match section {
            Section::Votes => field_in(columns.voter_id, row) == name,
            _ => [columns.name, columns.id]
                .into_iter()
                .any(|column| is_named(field_in(column, row), name)),
        };
        if is_this && found.row.is_none() {
            found.row = Some(story.rows);
            found.id = String::from_str(alloc, field_in(columns.id, row))?;
        }
    }
    Ok(found)
}
