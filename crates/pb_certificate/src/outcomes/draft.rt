//! An outcome file, as far as it has been read.
ghost use Rattle.std.specs.Prelude.{◌≡◌, [], IfOk};
ghost use Rattle.csv.specs.Records.{fields_of};
ghost use Rattle.pb_records.specs.Inside.Headed.{EndsAs, HasTaken, Steps};
ghost use Rattle.pb_certificate.specs.Inside.Marks.{project_marks};
ghost use Rattle.pb_certificate.specs.Inside.Outcomes.{after_outcome_row, outcome_had};
ghost use Rattle.pb_certificate.specs.Outcomes.Kind.{outcome_kind};

use crate::CertFault;
use crate::fields::{is_pair, width};
use crate::marks::mark_project;
use csv::StringRecord;
use pb_election::Election;
use pb_records::{Draft, Stop, cell};
use std::alloc::{AllocError, Global};

/// An outcome file, as far as it has been read.
#[derive(Drop)]
pub struct OutcomeDraft {
    // Whether the head record has been read.
    begun: bool,
    // Of each project whether a row names it.
    marks: Vec<bool>,
}

impl OutcomeDraft {
    /// Nothing has been read.
    pub fn new(alloc: Global, election: &Election) -> Result<OutcomeDraft, AllocError>
        ensures { IfOk result (λ d. HasTaken (outcome_kind election.now) (project_marks election.now) (outcome_had d) []) }
    {
        let marks = vec![in alloc; false; election.projects() as usize]?;
        Ok(OutcomeDraft {
            begun: false,
            marks,
        })
    }

    // Takes one more record, or tells its fault.
    fn take_record(&mut self, election: &Election, row: &StringRecord) -> Result<(), CertFault>
        ensures { Steps (outcome_kind election.now) (project_marks election.now) (outcome_had self.old) (outcome_had self.new) (fields_of row.now) result }
    {
        if self.begun {
            return self.take_row(election, row);
        }
        if !is_pair(row, "pb-outcome", "1") {
            return Err(CertFault::BadHead);
        }
        self.begun = true;
        Ok(())
    }

    fn take_row(&mut self, election: &Election, row: &StringRecord) -> Result<(), CertFault>
        ensures marks { EndsAs (after_outcome_row election.now self.old.marks.items (fields_of row.now)) result self.new.marks.items }
        ensures begun { self.new.begun ≡ self.old.begun }
    {
        if width(row) != 2 || cell(row, 0) != "project" {
            return Err(CertFault::BadRow);
        }
        mark_project(&mut self.marks, cell(row, 1), election)
    }

    /// Of each project whether a row names it.
    pub fn into_marks(self) -> Vec<bool>
        ensures { result.items ≡ self.marks.items }
    {
        let OutcomeDraft { begun: _, marks } = self;
        marks
    }
}

impl Draft<Election> for OutcomeDraft {
    ghost use Rattle.pb_records.specs.Inside.Headed.{HasTaken};
    ghost use Rattle.pb_records.specs.Headed.{headed_form};
    ghost use Rattle.pb_certificate.specs.Inside.Marks.{project_marks};
    ghost use Rattle.pb_certificate.specs.Inside.Outcomes.{outcome_had};
    ghost use Rattle.pb_certificate.specs.Outcomes.Kind.{outcome_kind};

    type Fault = CertFault;

    ghost form = { λ e. headed_form (outcome_kind e) };

    ghost HasTaken = { λ e d. HasTaken (outcome_kind e) (project_marks e) (outcome_had d) };

    fn take(&mut self, election: &Election, row: &StringRecord) -> Result<(), Stop<CertFault>> {
        match self.take_record(election, row) {
            Ok(()) => Ok(()),
            Err(fault) => Err(Stop::Fault(fault)),
        }
    }

    fn end(&self, _election: &Election) -> Option<CertFault> {
        if self.begun {
            return None;
        }
        Some(CertFault::BadHead)
    }

    fn not_text(&self, _election: &Election) -> CertFault {
        CertFault::NotUtf8
    }
}
