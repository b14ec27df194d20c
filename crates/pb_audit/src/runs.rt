//! Whole runs: readers in, an answer written out. Each asks one question.
ghost use Rattle.pb_audit.specs.Both.{ReadsBoth};
ghost use Rattle.pb_audit.specs.Groups.{ReadsGroups};
ghost use Rattle.pb_audit.specs.InTurn.{ReadsElection, ReadsPrices, ReadsRefutation, ReadsTidy, ReadsViolation};
ghost use Rattle.pb_reply.specs.Turns.{file_turn, reads, turn};
ghost use Rattle.pb_reply.specs.Writing.{Writes, WritesReply};
ghost use Rattle.pb_reply.specs.declared.answer.Format.TheVariants.{Lines};

use crate::auditing::answer_as_by;
use crate::both::both;
use crate::figured::figured_as;
use crate::groups::GroupsAudit;
use crate::prices::PriceAudit;
use crate::read::read;
use crate::refutation::RefutationAudit;
use crate::tidy::tidy;
use crate::violation::ViolationAudit;
use pb_certificate::Measure;
use pb_election::{Sink, Source};
use pb_price::Mode;
use pb_reply::{Fault, Format, Status};
use std::alloc::Global;

/// Reads an election of at most 2^28 bytes, and writes the line on it with the notes, or why it is refused. The whole
/// text is made first and then written.
pub fn run_read<R: Source, W: Sink>(
    alloc: Global,
    election: &mut R,
    out: &mut W,
) -> Result<Status, Fault>
    // The text of the reply on what the reader delivered is written, or a front of it where the writer failed.
    ensures { WritesReply Lines W.Sink (ReadsElection (turn (reads R.Source) election.old election.new)) result out.old out.new }
{
    let mut notes = Vec::new(alloc);
    read(alloc, Format::Lines, election, &mut notes)?.write(out)
}

/// Reads an election, an outcome file where one is given, and a price certificate, of at most 2^28 bytes each, and
/// writes the line of the verdict on the prices, or why an input is refused. Without an outcome file the outcome is the
/// election's own. An input after one that is refused is not touched. The whole text is made first and then written.
pub fn run_prices<E: Source, O: Source, C: Source, W: Sink>(
    alloc: Global,
    election: &mut E,
    outcome: &mut Option<O>,
    certificate: &mut C,
    mode: Mode,
    out: &mut W,
) -> Result<Status, Fault>
    // The text of the reply on what the readers delivered is written, or a front of it where the writer failed. Where
    // no input is refused, the status is yes exactly where the prices support the outcome; a yes speaks of every group,
    // and a no by C5 or S5 of the supporters of the project that it names.
    ensures { WritesReply Lines W.Sink (ReadsPrices mode (turn (reads E.Source) election.old election.new) (file_turn (reads O.Source) outcome.old outcome.new) (turn (reads C.Source) certificate.old certificate.new)) result out.old out.new }
{
    let prices = PriceAudit { mode };
    let mut notes = Vec::new(alloc);
    let answer = answer_as_by(
        alloc,
        Format::Lines,
        &prices,
        election,
        outcome,
        certificate,
        &mut notes,
    )?;
    answer.write(out)
}

/// Reads an election, an outcome file where one is given, and a violation certificate, of at most 2^28 bytes each, and
/// writes the line of the verdict on the group, by the measure that the certificate states, or why an input is refused.
/// The rest is as for `run_prices`.
pub fn run_violation<E: Source, O: Source, C: Source, W: Sink>(
    alloc: Global,
    election: &mut E,
    outcome: &mut Option<O>,
    certificate: &mut C,
    out: &mut W,
) -> Result<Status, Fault>
    // As for `run_prices`; where no input is refused, the status is yes exactly where the group and its demand are a
    // violation by the measure that the certificate states.
    ensures { WritesReply Lines W.Sink (ReadsViolation (turn (reads E.Source) election.old election.new) (file_turn (reads O.Source) outcome.old outcome.new) (turn (reads C.Source) certificate.old certificate.new)) result out.old out.new }
{
    let mut notes = Vec::new(alloc);
    let answer = answer_as_by(
        alloc,
        Format::Lines,
        &ViolationAudit,
        election,
        outcome,
        certificate,
        &mut notes,
    )?;
    answer.write(out)
}

/// Reads an election, an outcome file where one is given, and a refutation, of at most 2^28 bytes each, and writes the line
/// of the verdict on its weights, or why an input is refused: whether no prices support the outcome, and where `stable` and
/// it doesn't refute all of them, whether no stable prices do. The rest is as for `run_prices`.
pub fn run_refutation<E: Source, O: Source, C: Source, W: Sink>(
    alloc: Global,
    election: &mut E,
    outcome: &mut Option<O>,
    certificate: &mut C,
    stable: bool,
    out: &mut W,
) -> Result<Status, Fault>
    // As for `run_prices`; where no input is refused, the status is yes exactly where the weights refute what is asked
    // about, and then there are no such prices.
    ensures { WritesReply Lines W.Sink (ReadsRefutation stable (turn (reads E.Source) election.old election.new) (file_turn (reads O.Source) outcome.old outcome.new) (turn (reads C.Source) certificate.old certificate.new)) result out.old out.new }
{
    let weights = RefutationAudit { stable };
    let mut notes = Vec::new(alloc);
    let answer = answer_as_by(
        alloc,
        Format::Lines,
        &weights,
        election,
        outcome,
        certificate,
        &mut notes,
    )?;
    answer.write(out)
}

/// Reads an election and an outcome file where one is given, of at most 2^28 bytes each, and writes the line of the answer on
/// groups that fall short by this measure, or why an input is refused. The rest is as for `run_prices`.
pub fn run_groups<E: Source, O: Source, W: Sink>(
    alloc: Global,
    election: &mut E,
    outcome: &mut Option<O>,
    measure: Measure,
    out: &mut W,
) -> Result<Status, Fault>
    // As for `run_prices`; where no input is refused, the status is yes exactly where no group falls short, of all groups
    // of voters.
    ensures { WritesReply Lines W.Sink (ReadsGroups measure (turn (reads E.Source) election.old election.new) (file_turn (reads O.Source) outcome.old outcome.new)) result out.old out.new }
{
    let groups = GroupsAudit { measure };
    let mut notes = Vec::new(alloc);
    let lines = Format::Lines;
    figured_as(alloc, lines, &groups, election, outcome, &mut notes)?.write(out)
}

/// Reads an election, an outcome file where one is given, a price certificate and a violation certificate, of at most
/// 2^28 bytes each, and writes the line of the verdict on the prices and then that of the verdict on the group, or why
/// an input is refused. The status is yes where both are a yes. The rest is as for `run_prices`.
pub fn run_both<E: Source, O: Source, P: Source, V: Source, W: Sink>(
    alloc: Global,
    election: &mut E,
    outcome: &mut Option<O>,
    prices: &mut P,
    violation: &mut V,
    mode: Mode,
    out: &mut W,
) -> Result<Status, Fault>
    // As for `run_prices`; where no input is refused, the status is yes exactly where the prices support the outcome and
    // the group and its demand are a violation. In the stable form with Cover, prices that support the outcome never
    // stand beside a violation by counting.
    ensures { WritesReply Lines W.Sink (ReadsBoth mode (turn (reads E.Source) election.old election.new) (file_turn (reads O.Source) outcome.old outcome.new) (turn (reads P.Source) prices.old prices.new) (turn (reads V.Source) violation.old violation.new)) result out.old out.new }
{
    let mut notes = Vec::new(alloc);
    let answer = both(
        alloc,
        Format::Lines,
        mode,
        election,
        outcome,
        prices,
        violation,
        &mut notes,
    )?;
    answer.write(out)
}

/// Reads an election and a price certificate for it, of at most 2^28 bytes each, and writes the certificate's canonical
/// text, or why an input is refused. The certificate of an election that is refused is not touched. The whole text is
/// made first and then written.
pub fn run_tidy<E: Source, C: Source, W: Sink>(
    alloc: Global,
    election: &mut E,
    certificate: &mut C,
    out: &mut W,
) -> Result<Status, Fault>
    // The text of the answer on what the readers delivered is written, or a front of it where the writer failed.
    ensures { Writes W.Sink (ReadsTidy (turn (reads E.Source) election.old election.new) (turn (reads C.Source) certificate.old certificate.new)) result out.old out.new }
{
    tidy(alloc, election, certificate)?.write(out)
}
