//! The columns of PROJECTS and VOTES, which their headers name.
ghost use Rattle.std.specs.Prelude.{◌≡◌, ◌<◌, ◌+◌, ◌^◌, ◌==◌, nat_lt, drop, IfSome, []};
ghost use Rattle.std.specs.List.{list_any, position_from};
ghost use Rattle.csv.specs.Records.{fields_of};
ghost use Rattle.pb_election.specs.Names.{lower};
ghost use Rattle.pb_election.specs.Rows as rows;

use crate::markers::is_named;
use crate::sections::Section;
use csv::StringRecord;
use pb_records::{cell, clean};

/// Which columns the header of VOTES has that weigh votes in elections of other kinds. None of them is read: each vote
/// counts as much as any other.
#[derive(Clone, Copy)]
pub struct UnusedColumns {
    pub weight: bool,
    pub points: bool,
    pub sign: bool,
}

impl UnusedColumns {
    /// None of them.
    pub(crate) fn none() -> UnusedColumns
        ensures { result ≡ rows.unused_columns [] }
    {
        UnusedColumns {
            weight: false,
            points: false,
            sign: false,
        }
    }
}

/// The places of the columns of PROJECTS that are read, from 0.
#[derive(Clone, Copy)]
pub struct Columns {
    pub id: Option<usize>,
    pub cost: Option<usize>,
    pub selected: Option<usize>,
}

// The first column of a name from a place on. The name has no capital letters.
fn column_from(name: &str, header: &StringRecord, start: usize) -> Option<usize>
    requires { lower name.now ≡ name.now }
    ensures first { result ≡ position_from (rows.is_named name.now) start (drop start (fields_of header.now)) }
    ensures within { IfSome result (λ i. i + 1 < 2 ^ 64) }
{
    let mut i = start;
    while let Some(field) = header.get(i) {
        if is_named(clean(field), name) {
            return Some(i);
        }
        i += 1;
    }
    None
}

/// The first column of a name, which has no capital letters, from 0.
pub fn column_named(name: &str, header: &StringRecord) -> Option<usize>
    requires { lower name.now ≡ name.now }
    ensures first { result ≡ rows.column_named name.now (fields_of header.now) }
    ensures within { IfSome result (λ i. i + 1 < 2 ^ 64) }
{
    column_from(name, header, 0)
}

// Whether no column has a name, which has no capital letters.
fn is_missing(name: &str, header: &StringRecord) -> bool
    requires { lower name.now ≡ name.now }
    ensures { result ≡ (rows.occurrences name.now (fields_of header.now) == 0) }
{
    column_named(name, header).is_none()
}

// Whether two columns have a name, which has no capital letters.
fn is_repeated(name: &str, header: &StringRecord) -> bool
    requires { lower name.now ≡ name.now }
    ensures { result ≡ nat_lt 1 (rows.occurrences name.now (fields_of header.now)) }
{
    match column_named(name, header) {
        Some(first) => column_from(name, header, first + 1).is_some(),
        None => false,
    }
}

/// Whether a section's header misses a column that it must have.
pub(crate) fn misses(section: Section, header: &StringRecord) -> bool
    ensures { result ≡ list_any (λ name. rows.occurrences name (fields_of header.now) == 0) (rows.needed_columns section) }
{
    match section {
        Section::Meta => false,
        Section::Projects => is_missing("project_id", header) || is_missing("cost", header),
        Section::Votes => is_missing("vote", header),
    }
}

/// Whether a column that is read stands twice in a section's header.
pub(crate) fn repeats(section: Section, header: &StringRecord) -> bool
    ensures { result ≡ list_any (λ name. nat_lt 1 (rows.occurrences name (fields_of header.now))) (rows.read_columns section) }
{
    match section {
        Section::Meta => false,
        Section::Projects => {
            is_repeated("project_id", header)
                || is_repeated("cost", header)
                || is_repeated("selected", header)
        }
        Section::Votes => is_repeated("vote", header),
    }
}

/// The places of the columns that the header of PROJECTS names, from 0.
pub(crate) fn columns_of(header: &StringRecord) -> Columns
    ensures { result ≡ rows.columns_of (fields_of header.now) }
{
    Columns {
        id: column_named("project_id", header),
        cost: column_named("cost", header),
        selected: column_named("selected", header),
    }
}

/// The place of the column `vote` of the header of VOTES, from 0.
pub(crate) fn vote_column(header: &StringRecord) -> Option<usize>
    ensures { result ≡ rows.vote_column (fields_of header.now) }
{
    column_named("vote", header)
}

/// Which columns that weigh votes the header of VOTES has.
pub(crate) fn unused_columns_of(header: &StringRecord) -> UnusedColumns
    ensures { result ≡ rows.unused_columns (fields_of header.now) }
{
    UnusedColumns {
        weight: !is_missing("weight", header),
        points: !is_missing("points", header),
        sign: !is_missing("sign", header),
    }
}

/// The field of a row in a column, cleaned, and empty where there is no such column or field.
pub fn field_in(column: Option<usize>, row: &StringRecord) -> &str
    ensures { result.now ≡ rows.field_in column (fields_of row.now) }
{
    match column {
        Some(i) => cell(row, i),
        None => "",
    }
}
