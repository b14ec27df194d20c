//! Outcome files.
ghost use Rattle.std.specs.Prelude.{◌≡◌, ◌⊎◌, Bool, List, IfOk, IfErr, MatchResult};
ghost use Rattle.pb_election.specs.Outcome.{OutcomeFits, funds};
ghost use Rattle.pb_certificate.specs.Faults.{Refuses, certificate_records, no_memory, outcome_form};
ghost use Rattle.pb_certificate.specs.Outcomes.Text.{IsOutcomeText};

use crate::CertRefusal;
use crate::outcomes::draft::OutcomeDraft;
use pb_election::{Election, Outcome};
use pb_records::take_all;
use std::alloc::Global;

mod draft;

/// The outcome that the bytes of an outcome file state for an election, or the first fault: the one at the least
/// record, and of those there the one with the lowest number. Out of memory comes only after a failed allocation,
/// which is tested and not proved.
///
/// The head record is `pb-outcome,1`. A row is `project` with the id of a funded project, none twice.
pub fn read_outcome(
    alloc: Global,
    bytes: &[u8],
    election: &Election,
) -> Result<Outcome, CertRefusal>
    ensures found { IfOk result (λ w. IsOutcomeText (certificate_records bytes.now) election.now w.marks) }
    ensures funds { IfOk result (λ w. w ≡ funds w.marks election.now) }
    ensures fits { IfOk result (λ w. OutcomeFits w election.now) }
    ensures refused { IfErr result (λ r. (r ≡ no_memory) ⊎ Refuses (outcome_form election.now) bytes.now r) }

    // Where the bytes state an outcome, that one is answered, memory aside.
    ensures only { (marks : List Bool) → IsOutcomeText (certificate_records bytes.now) election.now marks → MatchResult result (λ w. w ≡ funds marks election.now) (λ r. r ≡ no_memory) }
{
    let mut draft = OutcomeDraft::new(alloc, election)?;
    take_all(alloc, bytes, b',', election, &mut draft)?;
    Ok(Outcome::of(draft.into_marks(), election))
}
