//! A refutation, as far as it has been read.
ghost use Rattle.std.specs.Prelude.{◌≡◌, ◌≤◌, [], IfOk, IsTrue};
ghost use Rattle.csv.specs.Records.{fields_of};
ghost use Rattle.pb_records.specs.Inside.Headed.{EndsAs, HasTaken, Steps};
ghost use Rattle.pb_certificate.specs.Inside.Refutations.{after_weight_row, is_free, refutation_had, with_row};
ghost use Rattle.pb_certificate.specs.Refutations.Kind.{refutation_head, refutation_kind};
ghost use Rattle.pb_certificate.specs.Refutations.Text.{stated_by};

use crate::CertFault;
use crate::fields::{head_number, is_pair, is_triple};
use crate::refutations::row::{MOST_WEIGHT, weighting_in};
use crate::refutations::weighting::Weighting;
use csv::StringRecord;
use pb_election::Election;
use pb_records::{Draft, Stop, cell};
use std::alloc::{AllocError, Global};

/// What the next record of a refutation is to be.
#[derive(Clone, Copy)]
pub enum Awaited {
    /// The record that names the format and its version.
    Format,
    /// The record that states the weight of Cover.
    Cover,
    /// The record that names the columns.
    Columns,
    /// A row, or the end.
    Row,
}

/// A refutation, as far as it has been read.
#[derive(Drop)]
pub struct RefutationDraft {
    awaited: Awaited,
    // The weight of Cover, 0 until a record states it.
    cover: u64,
    // Of each project what its row states, where it has one.
    rows: Vec<Option<Weighting>>,
}

impl RefutationDraft {
    /// Nothing has been read.
    pub fn new(alloc: Global, election: &Election) -> Result<RefutationDraft, AllocError>
        ensures { IfOk result (λ d. HasTaken (refutation_kind election.now) (stated_by election.now) (refutation_had d) []) }
    {
        let rows = vec![in alloc; None; election.projects() as usize]?;
        Ok(RefutationDraft {
            awaited: Awaited::Format,
            cover: 0,
            rows,
        })
    }

    // Takes one more record, or tells its fault.
    fn take_record(&mut self, election: &Election, row: &StringRecord) -> Result<(), CertFault>
        ensures { Steps (refutation_kind election.now) (stated_by election.now) (refutation_had self.old) (refutation_had self.new) (fields_of row.now) result }
    {
        match self.awaited {
            Awaited::Format => self.take_format(row),
            Awaited::Cover => self.take_cover(row),
            Awaited::Columns => self.take_columns(row),
            Awaited::Row => self.add_row(election, row),
        }
    }

    // Takes the record that names the format.
    fn take_format(&mut self, row: &StringRecord) -> Result<(), CertFault>
        ensures head { EndsAs (refutation_head Awaited.Format (self.old).cover (fields_of row.now)) result (refutation_had self.new).0 }
        ensures rows { (self.new).rows ≡ (self.old).rows }
    {
        if !is_pair(row, "pb-refutation", "1") {
            return Err(CertFault::BadHead);
        }
        self.awaited = Awaited::Cover;
        Ok(())
    }

    // Takes the record that states the weight of Cover.
    fn take_cover(&mut self, row: &StringRecord) -> Result<(), CertFault>
        ensures head { EndsAs (refutation_head Awaited.Cover (self.old).cover (fields_of row.now)) result (refutation_had self.new).0 }
        ensures rows { (self.new).rows ≡ (self.old).rows }
    {
        let weight = head_number(row, "cover", 0, MOST_WEIGHT)?;
        self.cover = weight as u64;
        self.awaited = Awaited::Columns;
        Ok(())
    }

    // Takes the record that names the columns.
    fn take_columns(&mut self, row: &StringRecord) -> Result<(), CertFault>
        ensures head { EndsAs (refutation_head Awaited.Columns (self.old).cover (fields_of row.now)) result (refutation_had self.new).0 }
        ensures rows { (self.new).rows ≡ (self.old).rows }
    {
        if !is_triple(row, "role", "project", "weight") {
            return Err(CertFault::BadHead);
        }
        self.awaited = Awaited::Row;
        Ok(())
    }

    // Adds what a row states.
    fn add_row(&mut self, election: &Election, row: &StringRecord) -> Result<(), CertFault>
        ensures rows { EndsAs (after_weight_row election.now self.old.rows.items (fields_of row.now)) result self.new.rows.items }
        ensures head { (refutation_had self.new).0 ≡ (refutation_had self.old).0 }
    {
        let weighting = weighting_in(row)?;
        let project = election
            .find(cell(row, 1))
            .ok_or(CertFault::UnknownProject)?;
        if !give(&mut self.rows, project, weighting) {
            return Err(CertFault::Repeated);
        }
        Ok(())
    }

    /// The weight of Cover, and of each project what its row states, where it has one.
    pub fn into_weights(self) -> (u64, Vec<Option<Weighting>>)
        ensures cover { result.0 ≡ self.cover }
        ensures rows { result.1.items ≡ self.rows.items }
    {
        let RefutationDraft {
            awaited: _,
            cover,
            rows,
        } = self;
        (cover, rows)
    }
}

// Gives a project its row, and tells whether it had none. Projects are numbered from 1, and none behind the last gets
// one.
fn give(rows: &mut [Option<Weighting>], project: u32, row: Weighting) -> bool
    requires { 1 ≤ project }
    ensures free { result ≡ is_free rows.old project }
    ensures rows { IsTrue result → rows.new ≡ with_row rows.old project row }
{
    let at = project as usize - 1;
    if at >= rows.len() || rows[at].is_some() {
        return false;
    }
    rows[at] = Some(row);
    true
}

impl Draft<Election> for RefutationDraft {
    ghost use Rattle.pb_records.specs.Inside.Headed.{HasTaken};
    ghost use Rattle.pb_records.specs.Headed.{headed_form};
    ghost use Rattle.pb_certificate.specs.Inside.Refutations.{refutation_had};
    ghost use Rattle.pb_certificate.specs.Refutations.Kind.{refutation_kind};
    ghost use Rattle.pb_certificate.specs.Refutations.Text.{stated_by};

    type Fault = CertFault;

    ghost form = { λ e. headed_form (refutation_kind e) };

    ghost HasTaken = { λ e d. HasTaken (refutation_kind e) (stated_by e) (refutation_had d) };

    fn take(&mut self, election: &Election, row: &StringRecord) -> Result<(), Stop<CertFault>> {
        match self.take_record(election, row) {
            Ok(()) => Ok(()),
            Err(fault) => Err(Stop::Fault(fault)),
        }
    }

    fn end(&self, _election: &Election) -> Option<CertFault> {
        match self.awaited {
            Awaited::Row => None,
            _ => Some(CertFault::BadHead),
        }
    }

    fn not_text(&self, _election: &Election) -> CertFault {
        CertFault::NotUtf8
    }
}
