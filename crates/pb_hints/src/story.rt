//! What the records of a file say up to a place.
use crate::FileKind;
use crate::oddity::Oddity;
use crate::quotes::swallows;
use csv::StringRecord;
use pb_election::{Outline, RecordKind, Section, column_named, field_in};
use pb_records::cell;
use std::alloc::{AllocError, Global};
use std::collections::BTreeMap;

/// What stands before a place.
#[derive(Drop)]
pub(crate) struct Story {
    alloc: Global,
    kind: FileKind,
    /// How many records that aren't blank.
    pub records: u64,
    /// Where the last record begins.
    pub last: usize,
    /// Where the last record begins whose quotes seem to hold other records.
    pub swallower: Option<usize>,
    /// Whether the first record states version 2.
    pub is_version_2: bool,
    outline: Outline,
    /// What the last record of an election is.
    pub part: RecordKind,
    /// How many rows the section at hand has.
    pub rows: u64,
    /// The columns by the last header.
    pub columns: Columns,
    /// The keys of META in small letters, with where their rows begin.
    pub keys: BTreeMap<String, usize>,
    /// The projects by their ids, with where their rows begin.
    pub projects: BTreeMap<String, usize>,
    /// The first row of the section at hand that seems to be meant as something else, by where it begins.
    pub odd: Option<(usize, Oddity)>,
}

/// The places of columns, from 0.
#[derive(Clone, Copy)]
pub(crate) struct Columns {
    pub id: Option<usize>,
    pub cost: Option<usize>,
    pub name: Option<usize>,
    pub vote: Option<usize>,
    pub voter_id: Option<usize>,
}

impl Columns {
    /// The columns that a header names.
    pub fn of(header: &StringRecord) -> Columns {
        Columns {
            id: column_named("project_id", header),
            cost: column_named("cost", header),
            name: column_named("name", header),
            vote: column_named("vote", header),
            voter_id: column_named("voter_id", header),
        }
    }
}

impl Story {
    /// Nothing stood yet.
    pub fn new(alloc: Global, kind: FileKind) -> Story {
        Story {
            alloc,
            kind,
            records: 0,
            last: 0,
            swallower: None,
            is_version_2: false,
            outline: Outline::new(),
            part: RecordKind::Stray,
            rows: 0,
            columns: Columns::of(&StringRecord::new(alloc)),
            keys: BTreeMap::new(alloc),
            projects: BTreeMap::new(alloc),
            odd: None,
        }
    }

    /// The section at hand; none before META.
    pub fn section(&self) -> Option<Section> {
        match self.part {
            RecordKind::Marker(section) | RecordKind::Header(section) | RecordKind::Row(section) =>
                Some(section),
            RecordKind::Stray => None,
        }
    }

    /// One more record, and where it begins.
    pub fn take(&mut self, row: &StringRecord, start: usize) -> Result<(), AllocError> {
        if self.records == 0 {
            self.is_version_2 = cell(row, 1) == "2";
        }
        self.records = self.records.saturating_add(1);
        self.last = start;
        if swallows(row, self.kind.delimiter()) {
            self.swallower = Some(start);
        }
        match self.kind {
            FileKind::Election => self.take_part(row, start),
            _ => Ok(()),
        }
    }

    fn take_part(&mut self, row: &StringRecord, start: usize) -> Result<(), AllocError> {
        self.part = self.outline.take(row);
        match self.part {
            RecordKind::Marker(_) => {
                self.rows = 0;
                self.odd = None;
            }
            RecordKind::Header(_) => self.columns = Columns::of(row),
            RecordKind::Row(section) => {
                self.rows = self.rows.saturating_add(1);
                self.take_row(section, row, start)?;
            }
            RecordKind::Stray => {}
        }
        Ok(())
    }

    fn take_row(
        &mut self,
        section: Section,
        row: &StringRecord,
        start: usize,
    ) -> Result<(), AllocError> {
        if self.odd.is_none() {
            self.odd = Oddity::of_row(self.alloc, section, row)?.map(|oddity| (start, oddity));
        }
        match section {
            Section::Meta => {
                self.keys.insert(small(self.alloc, cell(row, 0))?, start)?;
            }
            Section::Projects => {
                let id = String::from_str(self.alloc, field_in(self.columns.id, row))?;
                self.projects.insert(id, start)?;
            }
            Section::Votes => {}
        }
        Ok(())
    }
}

/// A name in small letters.
pub(crate) fn small(alloc: Global, name: &str) -> Result<String, AllocError> {
    let mut small = String::from_str(alloc, name)?;
    small.make_ascii_lowercase();
    Ok(small)
}
