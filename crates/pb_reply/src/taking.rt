//! Taking the inputs: what the bytes of each state is handed on.
ghost use Rattle.std.specs.Prelude.{◌≡◌, IfOk, option_map};
ghost use Rattle.pb_election.specs.Instance.{IsSet, projects};
ghost use Rattle.pb_election.specs.Outcome.{OutcomeFits};
ghost use Rattle.pb_certificate.specs.Refutations.{WeightsFit};
ghost use Rattle.pb_certificate.specs.Violations.{ClaimFits};
ghost use Rattle.pb_reply.specs.Inputs.{StatesElection, StatesOutcome, StatesRefutation, StatesViolation, its_outcome};
ghost use Rattle.pb_reply.specs.Certificates.{kind_in};
ghost use Rattle.pb_reply.specs.Inside.Loaded.{lent};
ghost use Rattle.pb_reply.specs.Turns.{file_turn, turn};
ghost use Rattle.pb_reply.specs.Inside.Taking.{AuditsOutcome, Gives, GivesOutcome, IfTaken, as_marks, claimed, decided_as};

use crate::given::{AsFile, Given};
use crate::loaded::{File, bytes_of};
use crate::unanswered::{Unanswered, taken_as};
use pb_certificate::{Kind, Refutation, Violation, kind_of, read_outcome};
use pb_election::{DecidedElection, Election, Outcome};
use pb_input::InputName;
use std::alloc::{AllocError, Global};

/// The election that a file states.
pub fn election_of(alloc: Global, file: File<'_>) -> Result<Election, Unanswered>
    ensures { IfTaken result (StatesElection (lent file.entry)) }
{
    let bytes = bytes_of(InputName::Election, file)?;
    Ok(Election::read(alloc, bytes)?)
}

/// As which kind a certificate is taken. One that wasn't read whole is taken as prices.
pub fn kind_in(alloc: Global, certificate: File<'_>) -> Result<Kind, AllocError>
    ensures { IfOk result (λ kind. kind ≡ kind_in (lent certificate.entry)) }
{
    match certificate {
        File::Bytes(bytes) => kind_of(alloc, bytes),
        File::Unread | File::TooLong => Ok(Kind::Prices),
    }
}

/// The violation certificate for an election that a file states, as the input of this name.
#[tactic(auto, using(crate::proofs::Takings::demand_set))]
pub fn violation_of(
    alloc: Global,
    input: InputName,
    file: File<'_>,
    election: &Election,
) -> Result<Violation, Unanswered>
    ensures taken { IfTaken (claimed result) (StatesViolation input election.now (lent file.entry)) }
    ensures fits { IfOk result (λ violation. ClaimFits violation election.now) }
    ensures demand { IfOk result (λ violation. IsSet 1 (projects election.now) violation.demand) }
{
    let bytes = bytes_of(input, file)?;
    taken_as(input, Violation::read(alloc, bytes, election))
}

/// The refutation for an election that a file states, as the certificate.
pub fn refutation_of(
    alloc: Global,
    file: File<'_>,
    election: &Election,
) -> Result<Refutation, Unanswered>
    ensures taken { IfTaken result (StatesRefutation election.now (lent file.entry)) }
    ensures fits { IfOk result (λ refutation. WeightsFit refutation election.now) }
{
    let bytes = bytes_of(InputName::Certificate, file)?;
    taken_as(
        InputName::Certificate,
        Refutation::read(alloc, bytes, election),
    )
}

/// The election with the outcome that is audited: that of the outcome file where one is given, and else its own.
pub fn decided_of(
    alloc: Global,
    election: Election,
    file: Option<File<'_>>,
) -> Result<DecidedElection, Unanswered>
    ensures taken { IfTaken (decided_as result) (AuditsOutcome election (option_map lent file.entry)) }
    ensures election { IfOk result (λ decided. decided.election ≡ election) }
{
    let outcome = outcome_of(alloc, file, &election)?;
    Ok(DecidedElection::new(election, outcome))
}

/// The outcome that is audited: that of the outcome file where one is given, and else the election's own.
fn outcome_of(
    alloc: Global,
    file: Option<File<'_>>,
    election: &Election,
) -> Result<Outcome, Unanswered>
    ensures taken { IfTaken (as_marks result) (AuditsOutcome election.now (option_map lent file.entry)) }
    ensures fits { IfOk result (λ outcome. OutcomeFits outcome election.now) }
{
    match file {
        Some(file) => outcome_in(alloc, file, election),
        None => own_outcome(alloc, election),
    }
}

/// The outcome that an outcome file states.
fn outcome_in(alloc: Global, file: File<'_>, election: &Election) -> Result<Outcome, Unanswered>
    ensures taken { IfTaken (as_marks result) (StatesOutcome election.now (lent file.entry)) }
    ensures fits { IfOk result (λ outcome. OutcomeFits outcome election.now) }
{
    let bytes = bytes_of(InputName::Outcome, file)?;
    taken_as(InputName::Outcome, read_outcome(alloc, bytes, election))
}

/// The outcome that the election itself states.
fn own_outcome(alloc: Global, election: &Election) -> Result<Outcome, Unanswered>
    ensures taken { IfTaken (as_marks result) (λ stated. stated ≡ its_outcome (election.now).selected) }
    ensures fits { IfOk result (λ outcome. OutcomeFits outcome election.now) }
{
    Ok(Outcome::selected(alloc, election)?)
}

/// The election of an input, whose turn has come. What was taken of it is let go.
pub fn take_election<G: Given>(alloc: Global, input: &mut G) -> Result<Election, Unanswered>
    ensures { IfTaken result (Gives StatesElection (turn G.delivers input.old input.new)) }
{
    let taken = input.take(alloc)?;
    election_of(alloc, taken.as_file())
}

/// The election with the outcome that is audited, with an outcome file whose turn has come, where one is given. What was
/// taken of it is let go.
pub fn take_decided<G: Given>(
    alloc: Global,
    election: Election,
    input: &mut Option<G>,
) -> Result<DecidedElection, Unanswered>
    ensures taken { IfTaken (decided_as result) (GivesOutcome election (file_turn G.delivers input.old input.new)) }
    ensures election { IfOk result (λ decided. decided.election ≡ election) }
{
    let outcome = take_outcome(alloc, input, &election)?;
    Ok(DecidedElection::new(election, outcome))
}

/// The outcome that is audited, with an outcome file whose turn has come, where one is given. What was taken of it is
/// let go.
fn take_outcome<G: Given>(
    alloc: Global,
    input: &mut Option<G>,
    election: &Election,
) -> Result<Outcome, Unanswered>
    ensures taken { IfTaken (as_marks result) (GivesOutcome election.now (file_turn G.delivers input.old input.new)) }
    ensures fits { IfOk result (λ outcome. OutcomeFits outcome election.now) }
{
    match input {
        Some(input) => take_outcome_file(alloc, input, election),
        None => own_outcome(alloc, election),
    }
}

/// The outcome of an outcome file, whose turn has come.
fn take_outcome_file<G: Given>(
    alloc: Global,
    input: &mut G,
    election: &Election,
) -> Result<Outcome, Unanswered>
    ensures taken { IfTaken (as_marks result) (Gives (StatesOutcome election.now) (turn G.delivers input.old input.new)) }
    ensures fits { IfOk result (λ outcome. OutcomeFits outcome election.now) }
{
    let taken = input.take(alloc)?;
    outcome_in(alloc, taken.as_file(), election)
}
