//! Following the sections of an election's file, record by record, also of one that is refused.
ghost use Rattle.std.specs.Prelude.{◌≡◌, ◌∷◌, ◌++◌, [], List};
ghost use Rattle.csv.specs.Records.{fields_of};
ghost use Rattle.pb_records.specs.Records.{Rec};
ghost use Rattle.pb_election.specs.Outline.{kind_of, role_behind};

use crate::markers::marker_of;
use crate::sections::{RecordRole, Section};
use csv::StringRecord;
use std::marker::Model;

/// What a record of an election's file is.
#[derive(Clone, Copy, PartialEq, Eq)]
pub enum RecordKind {
    /// It marks that this section begins.
    Marker(Section),
    /// It stands right behind the marker of this section, whose columns it names.
    Header(Section),
    /// It stands behind the header of this section.
    Row(Section),
    /// It stands before any marker.
    Stray,
}

/// How far the sections of an election's file have gone. It is told of the records that aren't blank, one after the
/// other, and tells what each is:
///
/// ```text
/// META              Marker(Meta)
/// key;value         Header(Meta)
/// budget;10         Row(Meta)
/// PROJECTS          Marker(Projects)
/// ```
///
/// It goes by the markers alone, in whatever order they come, so it serves for a file that is refused as well.
#[derive(Drop)]
pub struct Outline {
    role: RecordRole,
}

impl Model for Outline {
    ghost use Rattle.pb_election.specs.declared.sections.RecordRole.{RecordRole};

    ghost Value = { RecordRole };

    ghost view = { λ outline. outline.role };
}

impl Outline {
    /// Before the first record.
    #[tactic(auto, unfolding(crate::specs::Outline::last_marked))]
    pub fn new() -> Outline
        ensures { result ≡ role_behind [] }
    {
        Outline {
            role: RecordRole::First,
        }
    }

    /// Goes behind one more record, which isn't blank, and tells what it is.
    #[tactic(auto, using(crate::proofs::OutlineLemmas::role_append))]
    pub fn take(&mut self, row: &StringRecord) -> RecordKind
        ensures kind { (before : List Rec) → self.old ≡ role_behind before → result ≡ kind_of before (fields_of row.now) }
        ensures next { (before : List Rec) → self.old ≡ role_behind before → self.new ≡ role_behind (before ++ fields_of row.now ∷ []) }
    {
        match (marker_of(row), self.role) {
            (Some(section), _) => {
                self.role = RecordRole::Header(section);
                RecordKind::Marker(section)
            }
            (None, RecordRole::Header(section)) => {
                self.role = RecordRole::Inside(section);
                RecordKind::Header(section)
            }
            (None, RecordRole::Inside(section)) => RecordKind::Row(section),
            (None, RecordRole::First) => RecordKind::Stray,
        }
    }
}
