//! A violation certificate, as far as it has been read.
ghost use Rattle.std.specs.Prelude.{◌≡◌, [], IfOk};
ghost use Rattle.csv.specs.Records.{fields_of};
ghost use Rattle.pb_records.specs.Inside.Headed.{EndsAs, HasTaken, Steps};
ghost use Rattle.pb_certificate.specs.Inside.Violations.{after_violation_row, both_marks, violation_had};
ghost use Rattle.pb_certificate.specs.Violations.Kind.{violation_head, violation_kind};

use crate::fields::{is_pair, width};
use crate::marks::{mark_project, mark_voter};
use crate::{CertFault, Measure};
use csv::StringRecord;
use pb_election::Election;
use pb_records::{Draft, Stop, cell};
use std::alloc::{AllocError, Global};

/// What the next record of a violation certificate is to be.
#[derive(Clone, Copy)]
pub enum Awaited {
    /// The record that names the format and its version.
    Format,
    /// The record that names the measure, which version 2 has.
    Satisfaction,
    /// A row, or the end.
    Row,
}

/// A violation certificate, as far as it has been read.
#[derive(Drop)]
pub struct ViolationDraft {
    awaited: Awaited,
    /// By what it measures: by counting, until a record says otherwise.
    pub measure: Measure,
    /// Of each voter whether a row names it.
    pub group: Vec<bool>,
    /// Of each project whether a row names it.
    pub demand: Vec<bool>,
}

impl ViolationDraft {
    /// Nothing has been read.
    pub fn new(alloc: Global, election: &Election) -> Result<ViolationDraft, AllocError>
        ensures { IfOk result (λ d. HasTaken (violation_kind election.now) (both_marks election.now) (violation_had d) []) }
    {
        let group = vec![in alloc; false; election.voters() as usize]?;
        let demand = vec![in alloc; false; election.projects() as usize]?;
        Ok(ViolationDraft {
            awaited: Awaited::Format,
            measure: Measure::ByCount,
            group,
            demand,
        })
    }

    // Takes one more record, or tells its fault.
    fn take_record(&mut self, election: &Election, row: &StringRecord) -> Result<(), CertFault>
        ensures { Steps (violation_kind election.now) (both_marks election.now) (violation_had self.old) (violation_had self.new) (fields_of row.now) result }
    {
        match self.awaited {
            Awaited::Format => self.take_format(row),
            Awaited::Satisfaction => self.take_satisfaction(row),
            Awaited::Row => self.mark_row(election, row),
        }
    }

    // Takes the record that names the format. Version 1 counts.
    fn take_format(&mut self, row: &StringRecord) -> Result<(), CertFault>
        ensures head { EndsAs (violation_head Awaited.Format (self.old).measure (fields_of row.now)) result (violation_had self.new).0 }
        ensures marks { (violation_had self.new).1 ≡ (violation_had self.old).1 }
    {
        if is_pair(row, "pb-violation", "1") {
            self.awaited = Awaited::Row;
            return Ok(());
        }
        if is_pair(row, "pb-violation", "2") {
            self.awaited = Awaited::Satisfaction;
            return Ok(());
        }
        Err(CertFault::BadHead)
    }

    // Takes the record that names the measure.
    fn take_satisfaction(&mut self, row: &StringRecord) -> Result<(), CertFault>
        ensures head { EndsAs (violation_head Awaited.Satisfaction (self.old).measure (fields_of row.now)) result (violation_had self.new).0 }
        ensures marks { (violation_had self.new).1 ≡ (violation_had self.old).1 }
    {
        if is_pair(row, "satisfaction", "count") {
            self.measure = Measure::ByCount;
            self.awaited = Awaited::Row;
            return Ok(());
        }
        if is_pair(row, "satisfaction", "cost") {
            self.measure = Measure::ByCost;
            self.awaited = Awaited::Row;
            return Ok(());
        }
        Err(CertFault::BadHead)
    }

    // Marks what a row names.
    fn mark_row(&mut self, election: &Election, row: &StringRecord) -> Result<(), CertFault>
        ensures marks { EndsAs (after_violation_row election.now (violation_had self.old).1 (fields_of row.now)) result (violation_had self.new).1 }
        ensures head { (violation_had self.new).0 ≡ (violation_had self.old).0 }
    {
        if width(row) != 2 {
            return Err(CertFault::BadRow);
        }
        let kind = cell(row, 0);
        if kind == "voter" {
            return mark_voter(&mut self.group, cell(row, 1), election);
        }
        if kind == "project" {
            return mark_project(&mut self.demand, cell(row, 1), election);
        }
        Err(CertFault::BadRow)
    }
}

impl Draft<Election> for ViolationDraft {
    ghost use Rattle.pb_records.specs.Inside.Headed.{HasTaken};
    ghost use Rattle.pb_records.specs.Headed.{headed_form};
    ghost use Rattle.pb_certificate.specs.Inside.Violations.{both_marks, violation_had};
    ghost use Rattle.pb_certificate.specs.Violations.Kind.{violation_kind};

    type Fault = CertFault;

    ghost form = { λ e. headed_form (violation_kind e) };

    ghost HasTaken = { λ e d. HasTaken (violation_kind e) (both_marks e) (violation_had d) };

    fn take(&mut self, election: &Election, row: &StringRecord) -> Result<(), Stop<CertFault>> {
        match self.take_record(election, row) {
            Ok(()) => Ok(()),
            Err(fault) => Err(Stop::Fault(fault)),
        }
    }

    fn end(&self, _election: &Election) -> Option<CertFault> {
        match self.awaited {
            Awaited::Row => None,
            _ => Some(CertFault::BadHead),
        }
    }

    fn not_text(&self, _election: &Election) -> CertFault {
        CertFault::NotUtf8
    }
}
