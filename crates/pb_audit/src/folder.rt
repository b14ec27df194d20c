//! A folder of elections and their certificates.
ghost use Rattle.std.specs.Prelude.{◌≡◌, IfOk, false, map, option_map};
ghost use Rattle.pb_audit.specs.Inside.Folders.{files_of, lent_files};
ghost use Rattle.pb_audit.specs.Reports.{ReportOf};
ghost use Rattle.pb_reply.specs.Inside.Loaded.{delivery_of, lent};

use crate::folder_report::FolderReport;
use crate::total::FolderStatus;
use pb_price::Mode;
use pb_reply::{Answer, AsFile, File, Loaded};
use std::alloc::{AllocError, Global};

/// The files of one name: an election, and its certificates where they are there.
#[derive(Drop)]
pub struct Entry {
    /// The name of the election's file without its ending `.pb`.
    pub name: String,
    /// The election, `NAME.pb`.
    pub election: Loaded,
    /// The price certificate, `NAME.prices.csv`.
    pub prices: Option<Loaded>,
    /// The violation certificate, `NAME.violation.csv`.
    pub violation: Option<Loaded>,
}

/// An entry whose files are lent.
#[derive(Clone, Copy)]
pub struct LentEntry<'a> {
    pub name: &'a str,
    pub election: File<'a>,
    pub prices: Option<File<'a>>,
    pub violation: Option<File<'a>>,
}

impl Entry {
    /// The entry, its files lent.
    pub(crate) fn lent(&self) -> LentEntry<'_>
        ensures { lent_files result ≡ files_of self.now }
    {
        LentEntry {
            name: &self.name,
            election: self.election.as_file(),
            prices: file_beside(&self.prices),
            violation: file_beside(&self.violation),
        }
    }
}

/// The file of a certificate, where it is there.
fn file_beside(certificate: &Option<Loaded>) -> Option<File<'_>>
    ensures { option_map lent result ≡ option_map delivery_of certificate.now }
{
    match certificate {
        Some(certificate) => Some(certificate.as_file()),
        None => None,
    }
}

/// The report on the entries of a folder, in the order given: a line for each file that is audited, and the line of the
/// total. The outcomes are the elections' own. An error means out of memory.
pub fn folder_text(
    alloc: Global,
    entries: &[Entry],
    mode: Mode,
) -> Result<Answer<FolderStatus>, AllocError>
    ensures { IfOk result (ReportOf false mode (map files_of entries.now)) }
{
    let mut report = FolderReport::new(alloc, false, mode);
    for entry in entries {
        report = report.add(alloc, entry)?;
    }
    report.finish(alloc)
}
