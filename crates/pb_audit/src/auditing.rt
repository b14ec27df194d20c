//! Auditing an election, an outcome and a certificate, whatever kind of certificate it is.
ghost use Rattle.std.specs.Prelude.{◌≡◌, IfOk};
ghost use Rattle.pb_audit.specs.Answers.{AuditRules};
ghost use Rattle.pb_reply.specs.Inside.Loaded.{lent};
ghost use Rattle.pb_audit.specs.Inside.Certificates.{AnswersCertificate, IfTold, Promised};
ghost use Rattle.pb_audit.specs.InTurn.{ReadsAudit};
ghost use Rattle.pb_reply.specs.Replies.{AreJsonLines, TellsReply};
ghost use Rattle.pb_reply.specs.declared.answer.Format.TheVariants.{Json};
ghost use Rattle.pb_reply.specs.Turns.{file_turn, turn};

use pb_election::DecidedElection;
use pb_reply::{
    Answer, AsFile, File, Format, Given, InFormats, Status, Unanswered, or_refusal, push_notes,
    take_decided, take_election,
};
use std::alloc::{AllocError, Global};

/// How certificates of one kind are audited.
pub(crate) trait Audit {
    // What is told of the replies.
    type Told: InFormats;

    // What a certificate of this kind states, such as prices.
    ghost Subject: { Type 0 };

    // What a file states of it, the reply on that, and what the status of a reply promises.
    ghost rules: { Self → AuditRules Subject };

    /// The reply on a certificate. The status of each reply of this kind keeps its promise. What is to be noted of it is
    /// added to `notes`.
    fn reply_on(
        &self,
        alloc: Global,
        decided: &DecidedElection,
        certificate: File<'_>,
        notes: &mut Vec<String>,
    ) -> Result<Self::Told, Unanswered>
        ensures reply { IfTold Self.Told.told (AnswersCertificate (rules self.now).states (rules self.now).reply (decided.now).election (decided.now).outcome.marks (lent certificate.entry)) result }
        ensures promised { Promised (rules self.now) };
}

/// The answer in a format on an election, an outcome file where one is given, and a certificate, taken in this order.
/// The notes on the election, each as `read` prints it, are added to `notes`, and behind them those on what is told.
pub(crate) fn answer_as_by<A: Audit, E: Given, O: Given, C: Given>(
    alloc: Global,
    format: Format,
    audit: &A,
    election: &mut E,
    outcome: &mut Option<O>,
    certificate: &mut C,
    notes: &mut Vec<String>,
) -> Result<Answer<Status>, AllocError>
    ensures told { IfOk result (TellsReply format (ReadsAudit (A.rules audit.now) (turn E.delivers election.old election.new) (file_turn O.delivers outcome.old outcome.new) (turn C.delivers certificate.old certificate.new))) }
    ensures json { format ≡ Json → IfOk result (λ answer. AreJsonLines answer.text) }
{
    let work = audit_in_turn(alloc, audit, election, outcome, certificate, notes);
    let told = or_refusal(alloc, work)?;
    told.in_format(alloc, format)
}

/// What is told of the reply on the inputs.
fn audit_in_turn<A: Audit, E: Given, O: Given, C: Given>(
    alloc: Global,
    audit: &A,
    election: &mut E,
    outcome: &mut Option<O>,
    certificate: &mut C,
    notes: &mut Vec<String>,
) -> Result<A::Told, Unanswered>
    ensures { IfTold A.Told.told (ReadsAudit (A.rules audit.now) (turn E.delivers election.old election.new) (file_turn O.delivers outcome.old outcome.new) (turn C.delivers certificate.old certificate.new)) result }
{
    let election = take_election(alloc, election)?;
    push_notes(alloc, notes, &election)?;
    let decided = take_decided(alloc, election, outcome)?;
    let certificate = certificate.take(alloc)?;
    audit.reply_on(alloc, &decided, certificate.as_file(), notes)
}
