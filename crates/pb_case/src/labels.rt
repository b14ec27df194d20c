//! What an election's file says of itself for people: the facts of META, and the names of projects.
use csv::StringRecord;
use pb_election::{Outline, RecordKind, Section, column_named, field_in, is_named};
use pb_records::{Cursor, Next, cell};
use pb_visible::visible;
use std::alloc::{AllocError, Global};

/// What an election's file says of itself, as it is shown: with what can't be seen made visible.
#[derive(Drop)]
pub struct Labels {
    facts: Vec<Fact>,
    names: Vec<String>,
}

// A row of META.
#[derive(Drop)]
struct Fact {
    key: String,
    value: String,
}

impl Labels {
    /// The value of the first row of META with this key, small and capital letters being alike. Empty where there is
    /// none.
    pub fn fact(&self, key: &str) -> &str {
        for fact in &self.facts {
            if is_named(&fact.key, key) {
                return &fact.value;
            }
        }
        ""
    }

    /// The name of a project, which is numbered from 1. Empty where it has none.
    pub fn name(&self, project: u32) -> &str {
        match self.names.get((project as usize).saturating_sub(1)) {
            Some(name) => name,
            None => "",
        }
    }
}

/// What the bytes of an election's file say, up to its votes.
pub fn labels_of(alloc: Global, bytes: &[u8]) -> Result<Labels, AllocError> {
    let mut reader = LabelReader::new(alloc);
    let mut cursor = Cursor::open(alloc, bytes, b';');
    for _ in 0..u64::MAX {
        if !matches!(cursor.advance()?, Next::Record) {
            break;
        }
        let row = cursor.row();
        match reader.outline.take(row) {
            RecordKind::Marker(Section::Votes) => break,
            kind => reader.take(kind, row)?,
        }
    }
    Ok(reader.labels)
}

// What was read so far.
#[derive(Drop)]
struct LabelReader {
    alloc: Global,
    outline: Outline,
    // Where PROJECTS has the names, from 0.
    name: Option<usize>,
    labels: Labels,
}

impl LabelReader {
    fn new(alloc: Global) -> LabelReader {
        LabelReader {
            alloc,
            outline: Outline::new(),
            name: None,
            labels: Labels {
                facts: Vec::new(alloc),
                names: Vec::new(alloc),
            },
        }
    }

    fn take(&mut self, kind: RecordKind, row: &StringRecord) -> Result<(), AllocError> {
        match kind {
            RecordKind::Row(Section::Meta) => self.take_fact(row),
            RecordKind::Header(Section::Projects) => {
                self.name = column_named("name", row);
                Ok(())
            }
            RecordKind::Row(Section::Projects) => self.take_name(row),
            _ => Ok(()),
        }
    }

    fn take_fact(&mut self, row: &StringRecord) -> Result<(), AllocError> {
        let key = visible(self.alloc, cell(row, 0).as_bytes())?;
        let value = visible(self.alloc, cell(row, 1).as_bytes())?;
        self.labels.facts.push(Fact { key, value })?;
        Ok(())
    }

    fn take_name(&mut self, row: &StringRecord) -> Result<(), AllocError> {
        let name = visible(self.alloc, field_in(self.name, row).as_bytes())?;
        self.labels.names.push(name)?;
        Ok(())
    }
}
