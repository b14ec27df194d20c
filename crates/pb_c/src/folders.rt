//! The report on a folder in parts, for C: on the files of one name after the other, and on the total.
ghost use Rattle.std.specs.Prelude.{◌≡◌, IfErr, IfOk, option_map};
ghost use Rattle.pb_audit.specs.Inside.Folders.{lent_files};
ghost use Rattle.pb_audit.specs.Reports.{status_of};
ghost use Rattle.pb_c.specs.Folders.{ReportsTotal, entry_of, no_files};
ghost use Rattle.pb_c.specs.Folders as spec;
ghost use Rattle.pb_c.specs.Reports.{IsGiven, IsOutOfMemory};
ghost use Rattle.pb_reply.specs.Inside.Loaded.{lent};

use crate::report::{MEMORY_CODE, NOTHING_CODE, give};
use pb_audit::names::is_clean;
use pb_audit::{FolderStatus, LentEntry, ToldEntry, Total, told_of_total};
use pb_reply::File;
use std::alloc::{AllocError, Global};

/// The total of no files.
const NO_FILES: Total = Total {
    elections: 0,
    yes: 0,
    no: 0,
    refused: 0,
};

/// A file of an entry: 0 where it is missing, 1 where these are its bytes, and 2 where it couldn't be read.
fn file_as(number: u8, bytes: &[u8]) -> Option<Option<File<'_>>>
    ensures { option_map (option_map lent) result ≡ spec.file_as number bytes.now }
{
    match number {
        0 => Some(None),
        1 => Some(Some(File::in_memory(bytes))),
        2 => Some(Some(File::Unread)),
        _ => None,
    }
}

/// The name of an entry, if it is one.
fn name_of(bytes: &[u8]) -> Option<&str>
    ensures { option_map (λ name. name.now) result ≡ spec.name_of bytes.now }
{
    let Ok(name) = str::from_utf8(bytes) else {
        return None;
    };
    match is_clean(name) {
        true => Some(name),
        false => None,
    }
}

/// The files of a name, where there is such an entry.
pub(crate) fn entry_of<'a>(
    name: &'a [u8],
    election_state: u8,
    election: &'a [u8],
    prices_state: u8,
    prices: &'a [u8],
    violation_state: u8,
    violation: &'a [u8],
) -> Option<LentEntry<'a>>
    ensures { option_map lent_files result ≡ entry_of (spec.name_of name.now) (spec.file_as election_state election.now) (spec.file_as prices_state prices.now) (spec.file_as violation_state violation.now) }
{
    let name = name_of(name)?;
    let election = file_as(election_state, election)??;
    let prices = file_as(prices_state, prices)?;
    let violation = file_as(violation_state, violation)?;
    Some(LentEntry {
        name,
        election,
        prices,
        violation,
    })
}

/// Reports what is told of an entry, or that memory ran out.
pub(crate) fn report_entry(
    told: &Result<ToldEntry, AllocError>,
    total: &mut Total,
    out: &mut [u8],
    needed: &mut usize,
) -> u8
    ensures code { IfOk told.now (λ own. result ≡ spec.folder_code (status_of own.total)) }
    ensures counts { IfOk told.now (λ own. total.new ≡ own.total) }
    ensures given { IfOk told.now (λ own. IsGiven own.text.items out.old out.new needed.new) }
    ensures memory_out { IfErr told.now (λ _. IsOutOfMemory result out.old out.new needed.new × (total.new ≡ no_files)) }
{
    let Ok(told) = told else {
        *total = NO_FILES;
        *needed = 0;
        return MEMORY_CODE;
    };
    *total = told.total;
    give(&told.text, out, needed);
    folder_code(told.total.status())
}

/// Reports that there is no such entry.
pub(crate) fn report_no_entry(total: &mut Total, needed: &mut usize) -> u8
    ensures code { result ≡ 3 }
    ensures counts { total.new ≡ no_files }
    ensures needed { needed.new ≡ 0 }
{
    *total = NO_FILES;
    *needed = 0;
    NOTHING_CODE
}

/// Reports what is told of a total, or that memory ran out.
pub(crate) fn report_total(alloc: Global, total: Total, out: &mut [u8], needed: &mut usize) -> u8
    ensures { ReportsTotal total result out.old out.new needed.new }
{
    let Ok(answer) = told_of_total(alloc, total) else {
        *needed = 0;
        return MEMORY_CODE;
    };
    give(&answer.text, out, needed);
    folder_code(answer.status)
}

/// The number of how a report ends.
fn folder_code(status: FolderStatus) -> u8
    ensures { result ≡ spec.folder_code status }
{
    match status {
        FolderStatus::AllYes => 0,
        FolderStatus::SomeNo => 1,
        FolderStatus::SomeRefused => 2,
    }
}
