//! Auditing an election and its outcome alone, by the figures of all projects.
ghost use Rattle.std.specs.Prelude.{◌≡◌, IfOk};
ghost use Rattle.pb_audit.specs.Figured.{FigureRules, FiguresPromise, IsFiguredReply, ReadsFigured};
ghost use Rattle.pb_audit.specs.Inside.Certificates.{IfTold, Tells};
ghost use Rattle.pb_report.specs.CanBeTold.{GroupsCanBeTold};
ghost use Rattle.pb_reply.specs.Replies.{AreJsonLines, TellsReply};
ghost use Rattle.pb_reply.specs.declared.answer.Format.TheVariants.{Json};
ghost use Rattle.pb_reply.specs.Turns.{file_turn, turn};

use pb_certificate::Measure;
use pb_election::DecidedElection;
use pb_reply::{
    Answer, Format, Given, InFormats, Status, Unanswered, or_refusal, push_limit_note, push_notes,
    take_decided, take_election,
};
use pb_report::{GroupsFound, groups_in};
use std::alloc::{AllocError, Global};

/// How groups are told.
pub(crate) trait FigureAudit {
    // What is told of the replies.
    type Told: InFormats;

    // The measure, the reply by the figures, and what the status of a reply promises.
    ghost rules: { Self → FigureRules };

    /// The measure of what voters got.
    fn measure(&self) -> Measure
        ensures { result ≡ (rules self.now).measure };

    /// The reply by what was found of groups. The status of each reply keeps its promise.
    fn reply_on(
        &self,
        alloc: Global,
        decided: &DecidedElection,
        groups: GroupsFound,
        notes: &mut Vec<String>,
    ) -> Result<Self::Told, AllocError>
        requires told { GroupsCanBeTold (decided.now).election groups }
        requires measure { groups.measure ≡ (rules self.now).measure }
        ensures reply { IfOk result (λ own. own ≡ Self.Told.told ((rules self.now).reply (decided.now).election (decided.now).outcome.marks groups.figures.items)) }
        ensures promised { FiguresPromise (rules self.now) };
}

/// The answer in a format on an election and on an outcome file where one is given, taken in this order. The notes on the
/// election, and that on an outcome that costs more than the limit, are added to `notes`.
pub(crate) fn figured_as<A: FigureAudit, E: Given, O: Given>(
    alloc: Global,
    format: Format,
    audit: &A,
    election: &mut E,
    outcome: &mut Option<O>,
    notes: &mut Vec<String>,
) -> Result<Answer<Status>, AllocError>
    ensures told { IfOk result (TellsReply format (ReadsFigured (A.rules audit.now) (turn E.delivers election.old election.new) (file_turn O.delivers outcome.old outcome.new))) }
    ensures json { format ≡ Json → IfOk result (λ answer. AreJsonLines answer.text) }
{
    let work = figured_in_turn(alloc, audit, election, outcome, notes);
    let told = or_refusal(alloc, work)?;
    told.in_format(alloc, format)
}

/// What is told of the reply on the inputs.
fn figured_in_turn<A: FigureAudit, E: Given, O: Given>(
    alloc: Global,
    audit: &A,
    election: &mut E,
    outcome: &mut Option<O>,
    notes: &mut Vec<String>,
) -> Result<A::Told, Unanswered>
    ensures { IfTold A.Told.told (ReadsFigured (A.rules audit.now) (turn E.delivers election.old election.new) (file_turn O.delivers outcome.old outcome.new)) result }
{
    let election = take_election(alloc, election)?;
    push_notes(alloc, notes, &election)?;
    let decided = take_decided(alloc, election, outcome)?;
    push_limit_note(alloc, notes, &decided)?;
    Ok(told_of(alloc, audit, &decided, notes)?)
}

/// What is told of an election and an outcome that were accepted.
fn told_of<A: FigureAudit>(
    alloc: Global,
    audit: &A,
    decided: &DecidedElection,
    notes: &mut Vec<String>,
) -> Result<A::Told, AllocError>
    ensures { IfOk result (Tells A.Told.told (IsFiguredReply (A.rules audit.now) (decided.now).election (decided.now).outcome.marks)) }
{
    let groups = groups_in(alloc, decided, audit.measure())?;
    audit.reply_on(alloc, decided, groups, notes)
}
