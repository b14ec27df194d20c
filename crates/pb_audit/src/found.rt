//! What is found of the files of one name.
ghost use Rattle.std.specs.Prelude.{IfOk, Ok, None, option_map};
ghost use Rattle.pb_audit.specs.Answers.{AnswersAudit};
ghost use Rattle.pb_audit.specs.Inside.Folders.{IsDecided, found_as, lent_files};
ghost use Rattle.pb_election.specs.Instance.{Instance};
ghost use Rattle.pb_reply.specs.Inputs.{StatesElection};
ghost use Rattle.pb_reply.specs.Inside.Loaded.{lent};
ghost use Rattle.pb_audit.specs.Reports.{Finds, FindsCertificate};
ghost use Rattle.pb_records.specs.Loading.{Delivery};

use crate::auditing::Audit;
use crate::folder::LentEntry;
use crate::prices::PriceAudit;
use crate::read::election_reply;
use crate::violation::ViolationAudit;
use pb_election::{DecidedElection, Election};
use pb_price::Mode;
use pb_reply::{File, Reply, Unanswered, decided_of, election_of, or_refusal, reply_why};
use std::alloc::{AllocError, Global};

/// The reply on an election, and on each of its certificates that is audited.
#[derive(Drop)]
pub(crate) struct Found {
    pub(crate) read: Reply,
    pub(crate) prices: Option<Reply>,
    pub(crate) violation: Option<Reply>,
}

/// What is found of an entry. The certificates of an election that is refused are not audited.
pub(crate) fn found_of(alloc: Global, entry: LentEntry<'_>, mode: Mode) -> Result<Found, AllocError>
    ensures { IfOk result (λ found. Finds mode (lent_files entry.entry) (found_as (entry.entry).name.now found)) }
{
    match election_of(alloc, entry.election) {
        Ok(election) => found_on(alloc, election, entry, mode),
        Err(why) => Ok(Found {
            read: reply_why(alloc, &why)?,
            prices: None,
            violation: None,
        }),
    }
}

/// What is found of an entry whose election is accepted.
fn found_on(
    alloc: Global,
    election: Election,
    entry: LentEntry<'_>,
    mode: Mode,
) -> Result<Found, AllocError>
    ensures { StatesElection (lent (entry.entry).election) (Ok election) → IfOk result (λ found. Finds mode (lent_files entry.entry) (found_as (entry.entry).name.now found)) }
{
    let read = election_reply(alloc, &election)?;
    let decided = decided_of(alloc, election, None);
    Ok(Found {
        read,
        prices: certificate_found(alloc, &PriceAudit { mode }, &decided, entry.prices)?,
        violation: certificate_found(alloc, &ViolationAudit, &decided, entry.violation)?,
    })
}

/// The reply on a certificate for an election with its outcome, where the certificate is there.
fn certificate_found<A: Audit<Told = Reply>>(
    alloc: Global,
    audit: &A,
    decided: &Result<DecidedElection, Unanswered>,
    certificate: Option<File<'_>>,
) -> Result<Option<Reply>, AllocError>
    ensures { (file : Delivery) (e : Instance) → StatesElection file (Ok e) → IsDecided e decided.now → IfOk result (FindsCertificate (AnswersAudit (A.rules audit.now) file None) (option_map lent certificate.entry)) }
{
    match certificate {
        Some(certificate) => Ok(Some(reply_for(alloc, audit, decided, certificate)?)),
        None => Ok(None),
    }
}

/// The reply on a certificate for an election with its outcome, or why that has none.
fn reply_for<A: Audit<Told = Reply>>(
    alloc: Global,
    audit: &A,
    decided: &Result<DecidedElection, Unanswered>,
    certificate: File<'_>,
) -> Result<Reply, AllocError>
    ensures { (file : Delivery) (e : Instance) → StatesElection file (Ok e) → IsDecided e decided.now → IfOk result (AnswersAudit (A.rules audit.now) file None (lent certificate.entry)) }
{
    match decided {
        Ok(decided) => {
            let mut untold = Vec::new(alloc);
            let work = audit.reply_on(alloc, decided, certificate, &mut untold);
            or_refusal(alloc, work)
        }
        Err(why) => reply_why(alloc, why),
    }
}
