//! Reading the records of a file into a draft, for every kind of file.
ghost use Rattle.std.specs.Prelude.{◌≡◌, List, [], false, true, IfErr, OnOk};
ghost use Rattle.csv.specs.Records.{fields_of};
ghost use Rattle.pb_records.specs.Cells.{is_blank, is_text, nonblank};
ghost use Rattle.pb_records.specs.Inside.Drafts.{StopsAt, StopsFirst, Takes, TellsEnd, TellsNotText};
ghost use Rattle.pb_records.specs.FirstFault.{Form, NoFault};
ghost use Rattle.pb_records.specs.Records.{Rec, records_of};

use crate::cursor::Cursor;
use crate::records::Next;
use csv::StringRecord;
use std::alloc::Global;

/// Why a reading stopped.
#[derive(Clone, Copy, Debug, PartialEq, Eq)]
pub enum Stop<F> {
    /// A fault of the file.
    Fault(F),
    /// Out of memory.
    Memory,
}

/// A fault and where it stands. The records have the numbers from 1 on, blank ones too, and the end of the
/// file has the next.
#[derive(Clone, Copy, Debug, PartialEq, Eq)]
pub struct FaultAt<F> {
    /// The fault; of several at this record, the one with the lowest number.
    pub fault: F,
    /// The number of the record, from 1.
    pub record_number: u64,
}

/// What is built from the records of one kind of file, one record at a time. Blank records do not reach it. `A` is what
/// the file is read against: the election for a certificate's, nothing for an election's.
pub trait Draft<A> {
    /// Why a file of this kind is refused.
    type Fault;

    // The fault at each place, after the records before it that are not blank.
    ghost form: { A → Form Self.Fault };

    // These records, none of them blank, were taken, and no other.
    ghost HasTaken: { A → Self → List Rec → Type 0 };

    /// Takes one more record, or tells its fault. After an error it is left open what has been taken.
    fn take(&mut self, against: &A, row: &StringRecord) -> Result<(), Stop<Self::Fault>>
        requires text { is_text (fields_of row.now) ≡ true }
        requires full { is_blank (fields_of row.now) ≡ false }
        ensures taken { OnOk result (Takes (form against.now) (HasTaken against.now self.old) (HasTaken against.now self.new) (fields_of row.now)) }
        ensures stopped { IfErr result (λ stop. StopsAt (form against.now) (HasTaken against.now self.old) (fields_of row.now) stop) };

    /// The fault of the end of the file, if it has one after the records that were taken.
    fn end(&self, against: &A) -> Option<Self::Fault>
        ensures { TellsEnd (form against.now) (HasTaken against.now self.now) result };

    /// The fault of each record that is not UTF-8.
    fn not_text(&self, against: &A) -> Self::Fault
        ensures { TellsNotText (form against.now) result };
}

/// Reads a file, whose fields the delimiter divides, into a draft that has taken no record yet. A fault is that at the
/// first record that has one and, of several there, the one with the lowest number. `Memory` comes only after a failed allocation,
/// which is tested and not proved. After an error it is left open what the draft has taken.
pub fn take_all<A, D: Draft<A>>(
    alloc: Global,
    bytes: &[u8],
    delimiter: u8,
    against: &A,
    draft: &mut D,
) -> Result<(), Stop<FaultAt<D::Fault>>>
    requires { D.HasTaken against.now draft.old [] }
    ensures taken { OnOk result (D.HasTaken against.now draft.new (nonblank (records_of delimiter bytes.now))) }
    ensures none { OnOk result (NoFault (D.form against.now) (records_of delimiter bytes.now)) }
    ensures stopped { IfErr result (λ stop. StopsFirst (D.form against.now) (records_of delimiter bytes.now) stop) }
{
    let mut cursor = Cursor::open(alloc, bytes, delimiter);
    take_records(&mut cursor, against, draft)
}

// The same for a cursor before the first record.
fn take_records<A, D: Draft<A>>(
    cursor: &mut Cursor<'_>,
    against: &A,
    draft: &mut D,
) -> Result<(), Stop<FaultAt<D::Fault>>>
    requires none { D.HasTaken against.now draft.old [] }
    requires first { cursor.old.record_number ≡ 0 }
    ensures taken { OnOk result (D.HasTaken against.now draft.new (nonblank cursor.old.left)) }
    ensures none { OnOk result (NoFault (D.form against.now) cursor.old.left) }
    ensures stopped { IfErr result (λ stop. StopsFirst (D.form against.now) cursor.old.left stop) }
{
    'rows: loop {
        match cursor.advance() {
            Err(_) => return Err(Stop::Memory),
            Ok(Next::End) => break,
            Ok(Next::NotText) => return Err(Stop::Fault(FaultAt {
                fault: draft.not_text(against),
                record_number: cursor.record_number(),
            })),
            Ok(Next::Record) => {}
        }
        match draft.take(against, cursor.row()) {
            Ok(()) => {}
            Err(Stop::Memory) => return Err(Stop::Memory),
            Err(Stop::Fault(fault)) => return Err(Stop::Fault(FaultAt {
                fault,
                record_number: cursor.record_number(),
            })),
        }
    }
    match draft.end(against) {
        None => Ok(()),
        Some(fault) => Err(Stop::Fault(FaultAt {
            fault,
            record_number: cursor.record_number() + 1,
        })),
    }
}
