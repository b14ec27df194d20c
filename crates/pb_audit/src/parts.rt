//! The report on a folder in parts, for whoever has the files of one election after the other and puts the parts together.
ghost use Rattle.std.specs.Prelude.{◌≡◌, IfOk};
ghost use Rattle.pb_audit.specs.Inside.Folders.{lent_files};
ghost use Rattle.pb_audit.specs.Reports.{BeginsWithJson, TellsEntry, total_told};

use crate::folder::LentEntry;
use crate::folder_report::{push_endings, push_found, push_object};
use crate::found::found_of;
use crate::total::{FolderStatus, Total};
use pb_price::Mode;
use pb_reply::Answer;
use std::alloc::{AllocError, Global};

/// What is told of the files of one name: their object, in a line, and behind it their lines; and how many of them are
/// answered how, which adds up to the total of the folder.
#[derive(Drop)]
pub struct ToldEntry {
    pub text: Vec<u8>,
    pub total: Total,
}

impl ToldEntry {
    /// What is told of an entry. An error means out of memory.
    pub fn on(alloc: Global, entry: LentEntry<'_>, mode: Mode) -> Result<ToldEntry, AllocError>
        ensures told { IfOk result (TellsEntry mode (lent_files entry.entry)) }
        ensures json { IfOk result (λ own. BeginsWithJson own.text.items) }
    {
        let found = found_of(alloc, entry, mode)?;
        let mut endings = Vec::new(alloc);
        push_endings(&mut endings, &found)?;
        let mut lines = String::new(alloc);
        push_found(&mut lines, entry.name, &found)?;
        let mut text = String::new(alloc);
        push_object(alloc, &mut text, entry.name, found)?;
        text.push_str(&lines)?;
        Ok(ToldEntry {
            text: text.into_bytes(),
            total: Total::of(&endings),
        })
    }
}

/// What is told of a total: its object, in a line, and behind it its line; and how the report on the folder ends. An error
/// means out of memory.
pub fn told_of_total(alloc: Global, total: Total) -> Result<Answer<FolderStatus>, AllocError>
    ensures told { IfOk result (λ answer. answer ≡ total_told total) }
    ensures json { IfOk result (λ answer. BeginsWithJson answer.text) }
{
    let mut text = String::new(alloc);
    total.push(alloc, true, &mut text)?;
    total.push(alloc, false, &mut text)?;
    Ok(Answer {
        text: text.into_bytes(),
        status: total.status(),
    })
}
