//! What is remembered of the rows of a price certificate that were read.
ghost use Rattle.std.specs.Prelude.{◌≡◌, ◌≤◌, List, [], length, IfOk};
ghost use Rattle.csv.specs.Records.{fields_of};
ghost use Rattle.pb_election.specs.Instance.{projects};
ghost use Rattle.pb_records.specs.Inside.Lines.{IsTriple};
ghost use Rattle.pb_records.specs.Records.{Rec};
ghost use Rattle.pb_certificate.specs.Prices.RowFaults.{as_payment};
ghost use Rattle.pb_certificate.specs.Prices.Text.{Payment};
ghost use Rattle.pb_certificate.specs.Inside.Prices.PriorRows.{Admits, Remembers, TakesRecord};

use crate::CertFault;
use crate::prices::row::{PriceRow, price_row, triple_row};
use csv::StringRecord;
use pb_election::Election;
use pb_records::Triple;
use std::alloc::{AllocError, Global};

/// The most rows that a price certificate can have.
const MOST_ROWS: u32 = 10_000_000;

/// What is remembered of the rows so far to tell whether one more may follow them. Voters and projects count from 1,
/// and a voter is 0 where no row has named one.
#[derive(Drop)]
pub struct PriorRows {
    rows: u32,
    last_voter: u32,
    // Of each project the last voter whose row names it.
    last_payers: Vec<u32>,
}

impl PriorRows {
    /// No row, for so many projects.
    pub fn new(alloc: Global, projects: u32) -> Result<PriorRows, AllocError>
        ensures remembers { IfOk result (λ t. Remembers t []) }
        ensures projects { IfOk result (λ t. length t.last_payers.items ≡ projects) }
    {
        let last_payers = vec![in alloc; 0u32; projects as usize]?;
        Ok(PriorRows {
            rows: 0,
            last_voter: 0,
            last_payers,
        })
    }

    // Remembers one more row, or tells why it may not follow those so far. Since voters do not fall, the pair of a
    // voter and a project stood before exactly where this voter was the last to name the project.
    fn admit(&mut self, row: &PriceRow) -> Result<(), CertFault>
        requires voter { 1 ≤ (row.now).voter }
        requires low_project { 1 ≤ (row.now).project }
        requires high_project { (row.now).project ≤ length (self.old).last_payers.items }
        ensures admits { (qs : List Payment) → Remembers self.old qs → Admits self.new qs (as_payment row.now) result }
        ensures projects { length (self.new).last_payers.items ≡ length (self.old).last_payers.items }
    {
        let project = row.project as usize - 1;
        if row.voter < self.last_voter {
            return Err(CertFault::OutOfOrder);
        }
        if self.last_payers[project] == row.voter {
            return Err(CertFault::Repeated);
        }
        if self.rows >= MOST_ROWS {
            return Err(CertFault::TooMany);
        }
        self.rows += 1;
        self.last_voter = row.voter;
        self.last_payers[project] = row.voter;
        Ok(())
    }

    /// Takes the row that a record states, or tells its fault.
    pub fn take(&mut self, row: &StringRecord, election: &Election) -> Result<PriceRow, CertFault>
        requires { length (self.old).last_payers.items ≡ projects election.now }
        ensures takes { TakesRecord election.now (fields_of row.now) self.old self.new result }
        ensures projects { length (self.new).last_payers.items ≡ length (self.old).last_payers.items }
    {
        let payment = price_row(row, election)?;
        self.admit(&payment)?;
        Ok(payment)
    }

    /// The same of a record of three fields whose numbers were read.
    pub fn take_triple(
        &mut self,
        triple: Triple,
        election: &Election,
    ) -> Result<PriceRow, CertFault>
        requires { length (self.old).last_payers.items ≡ projects election.now }
        ensures takes { (r : Rec) → IsTriple triple.entry r → TakesRecord election.now r self.old self.new result }
        ensures projects { length (self.new).last_payers.items ≡ length (self.old).last_payers.items }
    {
        let payment = triple_row(triple, election)?;
        self.admit(&payment)?;
        Ok(payment)
    }
}
