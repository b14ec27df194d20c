//! A report as the reply on it: lines, a JSON object and a status.
ghost use Rattle.std.specs.Prelude.{◌≡◌, IfOk, false, map, string_bytes, true};
ghost use Rattle.pb_audit.specs.Inside.Told as spec;
ghost use Rattle.pb_report.specs.CanBeTold.{CanBeReported};

use crate::objects::object_of;
use crate::on_groups::push_note;
use crate::tables::push_table;
use pb_election::{DecidedElection, Election};
use pb_price::Verdict;
use pb_reply::Reply;
use pb_report::{CertificateFound, PricesFound, Report};
use std::alloc::{AllocError, Global};

/// A report, and whether its lines explain it, or tell the verdict alone. Its object has all of it.
#[derive(Drop)]
pub(crate) struct Rendering {
    pub(crate) report: Report,
    pub(crate) explained: bool,
}

impl Rendering {
    /// A report whose lines tell the verdict.
    pub(crate) fn of(report: Report) -> Rendering
        ensures { result ≡ record { report = report; explained = false } }
    {
        Rendering {
            report,
            explained: false,
        }
    }

    /// A report whose lines explain the verdict.
    pub(crate) fn explaining(report: Report) -> Rendering
        ensures { result ≡ record { report = report; explained = true } }
    {
        Rendering {
            report,
            explained: true,
        }
    }

    /// The lines, the object and the status. The note on a yes that says little is added to `notes`.
    pub(crate) fn reply(
        &self,
        alloc: Global,
        decided: &DecidedElection,
        notes: &mut Vec<String>,
    ) -> Result<Reply, AllocError>
        requires { CanBeReported (decided.now).election (self.now).report }
        ensures { IfOk result (λ reply. reply ≡ spec.reply_of (decided.now).election (decided.now).outcome.marks self.now) }
    {
        push_note_on(alloc, notes, &self.report)?;
        Ok(Reply {
            lines: self.lines(alloc, decided.election())?,
            object: object_of(alloc, decided, &self.report)?,
            status: self.report.status(),
        })
    }

    /// The lines: the verdict, and where it is explained, the table of what each condition or test comes to behind an empty
    /// line.
    fn lines(&self, alloc: Global, election: &Election) -> Result<Vec<String>, AllocError>
        requires { CanBeReported election.now (self.now).report }
        ensures { IfOk result (λ lines. map string_bytes lines.items ≡ spec.lines_told election.now self.now) }
    {
        let mut lines = Vec::new(alloc);
        self.report.push_lines(alloc, &mut lines, election)?;
        if self.explained {
            lines.push(String::new(alloc))?;
            push_table(alloc, &mut lines, election, &self.report)?;
        }
        Ok(lines)
    }
}

/// Adds the note on a yes to prices that says little of groups.
fn push_note_on(alloc: Global, notes: &mut Vec<String>, report: &Report) -> Result<(), AllocError> {
    match report {
        Report::Certificate(CertificateFound::Prices(prices)) | Report::Both(prices, _) => {
            push_note_on_prices(alloc, notes, prices)
        }
        _ => Ok(()),
    }
}

fn push_note_on_prices(
    alloc: Global,
    notes: &mut Vec<String>,
    prices: &PricesFound,
) -> Result<(), AllocError> {
    match prices.verdict() {
        Verdict::Supported => push_note(alloc, notes, prices.on_groups()),
        Verdict::Failed(_) => Ok(()),
    }
}
