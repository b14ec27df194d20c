//! The total of a report.
ghost use Rattle.std.specs.Prelude.{◌≡◌, ◌∷◌, ◌++◌, [], OnOk, count_by, false, string_bytes, true};
ghost use Rattle.pb_reply.specs.Replies.{text_of};
ghost use Rattle.pb_audit.specs.Reports.{AddsJsonLine};
ghost use Rattle.pb_audit.specs.Reports as spec;

use pb_json::{json_text, total_json};
use pb_reply::{Status, push_line};
use std::alloc::{AllocError, Global};
use std::fmt::Write;

/// How the report on a folder ends.
#[derive(Clone, Copy, Debug, PartialEq, Eq)]
pub enum FolderStatus {
    /// No file is refused, and each certificate is answered yes. So it is where there is none.
    AllYes,
    /// No file is refused, and a certificate is answered no.
    SomeNo,
    /// A file is refused.
    SomeRefused,
}

/// How the line on a file ends, and whether the file is a certificate.
#[derive(Clone, Copy)]
pub(crate) struct Ending {
    pub(crate) of_certificate: bool,
    pub(crate) status: Status,
}

/// How many files are answered how.
#[repr(C)]
#[derive(Clone, Copy, Debug, PartialEq, Eq)]
pub struct Total {
    /// How many elections there are, those that are refused among them.
    pub elections: usize,
    /// How many certificates are answered yes.
    pub yes: usize,
    /// How many certificates are answered no.
    pub no: usize,
    /// How many files are refused.
    pub refused: usize,
}

impl Ending {
    fn is_election(&self) -> bool
        ensures { result ≡ spec.is_election self.now }
    {
        !self.of_certificate
    }

    fn is_yes(&self) -> bool
        ensures { result ≡ spec.is_yes self.now }
    {
        self.of_certificate && matches!(self.status, Status::Yes)
    }

    fn is_no(&self) -> bool
        ensures { result ≡ spec.is_no self.now }
    {
        self.of_certificate && matches!(self.status, Status::No(_))
    }

    fn is_refused(&self) -> bool
        ensures { result ≡ spec.is_refused self.now }
    {
        matches!(self.status, Status::Refused(_))
    }
}

impl Total {
    /// The total of some files.
    pub(crate) fn of(endings: &[Ending]) -> Total
        ensures { result ≡ spec.total_of endings.now }
    {
        Total {
            elections: elections_in(endings),
            yes: yes_in(endings),
            no: no_in(endings),
            refused: refused_in(endings),
        }
    }

    /// Refused where a file is, and else no where a certificate is answered so.
    pub fn status(self) -> FolderStatus
        ensures { result ≡ spec.status_of self }
    {
        if self.refused > 0 {
            FolderStatus::SomeRefused
        } else if self.no > 0 {
            FolderStatus::SomeNo
        } else {
            FolderStatus::AllYes
        }
    }

    /// Adds the total to a text, as a line or else as an object.
    pub(crate) fn push(
        self,
        alloc: Global,
        as_json: bool,
        text: &mut String,
    ) -> Result<(), AllocError>
        ensures text { OnOk result (string_bytes text.new ≡ string_bytes text.old ++ text_of (spec.total_line as_json self ∷ [])) }
        ensures json { as_json ≡ true → OnOk result (AddsJsonLine (string_bytes text.old) (string_bytes text.new)) }
    {
        if as_json {
            self.push_object(alloc, text)
        } else {
            self.push_line(text)
        }
    }

    fn push_object(self, alloc: Global, text: &mut String) -> Result<(), AllocError>
        ensures text { OnOk result (string_bytes text.new ≡ string_bytes text.old ++ text_of (spec.total_line true self ∷ [])) }
        ensures json { OnOk result (AddsJsonLine (string_bytes text.old) (string_bytes text.new)) }
    {
        let total = total_json(alloc, self.elections, self.yes, self.no, self.refused)?;
        let line = json_text(alloc, &total)?;
        push_line(text, &line)
    }

    fn push_line(self, text: &mut String) -> Result<(), AllocError>
        ensures { OnOk result (string_bytes text.new ≡ string_bytes text.old ++ text_of (spec.total_line false self ∷ [])) }
    {
        writeln!(
            text,
            "total {} elections {} yes {} no {} refused",
            self.elections, self.yes, self.no, self.refused
        )
    }
}

fn elections_in(endings: &[Ending]) -> usize
    ensures { result ≡ count_by spec.is_election endings.now }
{
    endings.iter().filter(|e| e.is_election()).count()
}

fn yes_in(endings: &[Ending]) -> usize
    ensures { result ≡ count_by spec.is_yes endings.now }
{
    endings.iter().filter(|e| e.is_yes()).count()
}

fn no_in(endings: &[Ending]) -> usize
    ensures { result ≡ count_by spec.is_no endings.now }
{
    endings.iter().filter(|e| e.is_no()).count()
}

fn refused_in(endings: &[Ending]) -> usize
    ensures { result ≡ count_by spec.is_refused endings.now }
{
    endings.iter().filter(|e| e.is_refused()).count()
}
