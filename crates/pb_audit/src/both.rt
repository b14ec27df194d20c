//! Auditing prices and a violation for one outcome.
ghost use Rattle.std.specs.Prelude.{◌≡◌, IfOk, IfSome};
ghost use Rattle.pb_audit.specs.Both.{ReadsBoth};
ghost use Rattle.pb_audit.specs.Both as spec;
ghost use Rattle.pb_reply.specs.Inputs.{StatesViolation};
ghost use Rattle.pb_reply.specs.Inside.Loaded.{lent};
ghost use Rattle.pb_reply.specs.Replies.{AreJsonLines, TellsReply};
ghost use Rattle.pb_reply.specs.Turns.{file_turn, turn};
ghost use Rattle.pb_audit.specs.Inside.Certificates.{AnswersCertificate};
ghost use Rattle.pb_report.specs.CanBeTold.{PricesCanBeTold};
ghost use Rattle.pb_report.specs.Found.{FindsPrices};
ghost use Rattle.pb_reply.specs.Inside.Taking.{Gives, IfTaken, or_refusal};
ghost use Rattle.pb_reply.specs.declared.answer.Format.TheVariants.{Json};

use crate::rendering::Rendering;
use pb_election::DecidedElection;
use pb_input::InputName;
use pb_price::Mode;
use pb_reply::{
    Answer, AsFile, File, Format, Given, Reply, Status, Unanswered, or_refusal, take_decided,
    take_election,
};
use pb_report::{PricesFound, Report, group_in, prices_in};
use std::alloc::{AllocError, Global};

/// The answer in a format on an election, an outcome file where one is given, a price certificate and a violation
/// certificate, taken in this order: the verdict on the prices and then that on the group, or why an input is refused. The
/// status is yes where both are a yes. The note on a yes to prices that says little is added to `notes`.
pub(crate) fn both<E: Given, O: Given, P: Given, V: Given>(
    alloc: Global,
    format: Format,
    mode: Mode,
    election: &mut E,
    outcome: &mut Option<O>,
    prices: &mut P,
    violation: &mut V,
    notes: &mut Vec<String>,
) -> Result<Answer<Status>, AllocError>
    ensures told { IfOk result (TellsReply format (ReadsBoth mode (turn E.delivers election.old election.new) (file_turn O.delivers outcome.old outcome.new) (turn P.delivers prices.old prices.new) (turn V.delivers violation.old violation.new))) }
    ensures json { format ≡ Json → IfOk result (λ answer. AreJsonLines answer.text) }
{
    let work = both_in_turn(alloc, mode, election, outcome, prices, violation, notes);
    let reply: Reply = or_refusal(alloc, work)?;
    reply.answer_as(alloc, format)
}

/// The reply on the inputs.
fn both_in_turn<E: Given, O: Given, P: Given, V: Given>(
    alloc: Global,
    mode: Mode,
    election: &mut E,
    outcome: &mut Option<O>,
    prices: &mut P,
    violation: &mut V,
    notes: &mut Vec<String>,
) -> Result<Reply, Unanswered>
    ensures { IfSome (or_refusal (λ r. r) result) (ReadsBoth mode (turn E.delivers election.old election.new) (file_turn O.delivers outcome.old outcome.new) (turn P.delivers prices.old prices.new) (turn V.delivers violation.old violation.new)) }
{
    let election = take_election(alloc, election)?;
    let decided = take_decided(alloc, election, outcome)?;
    let prices = take_prices(alloc, &decided, prices, mode)?;
    let violation = violation.take(alloc)?;
    beside(alloc, &decided, prices, violation.as_file(), notes)
}

/// What is found of prices, whose turn has come. What was taken of them is let go.
fn take_prices<P: Given>(
    alloc: Global,
    decided: &DecidedElection,
    prices: &mut P,
    mode: Mode,
) -> Result<PricesFound, Unanswered>
    ensures taken { IfTaken result (Gives (FindsPrices InputName.Prices mode (decided.now).election (decided.now).outcome.marks) (turn P.delivers prices.old prices.new)) }
    ensures told { IfOk result (PricesCanBeTold (decided.now).election) }
{
    let taken = prices.take(alloc)?;
    prices_in(alloc, decided, InputName::Prices, taken.as_file(), mode)
}

/// The reply on a violation certificate beside what is found of prices.
fn beside(
    alloc: Global,
    decided: &DecidedElection,
    prices: PricesFound,
    violation: File<'_>,
    notes: &mut Vec<String>,
) -> Result<Reply, Unanswered>
    requires { PricesCanBeTold (decided.now).election prices }
    ensures { IfSome (or_refusal (λ r. r) result) (AnswersCertificate (StatesViolation InputName.Violation) (spec.beside prices.mode prices.findings) (decided.now).election (decided.now).outcome.marks (lent violation.entry)) }
{
    let group = group_in(alloc, decided, InputName::Violation, violation)?;
    let both = Rendering::of(Report::Both(prices, group));
    Ok(both.reply(alloc, decided, notes)?)
}
