//! What a yes to prices says of groups, told by the heads of the files, and the note on a yes that says little: with voter
//! budgets that are together less than the limit, supporters have little left, whatever is funded.
ghost use Rattle.std.specs.Prelude.{◌≡◌, ◌*◌, ◌≤◌};
ghost use Rattle.pb_certificate.specs.Prices.{most_denominator, most_numerator};
ghost use Rattle.pb_election.specs.Instance.{voters};
ghost use Rattle.pb_money.specs.Grains.{cost_grains, payment_grains};
ghost use Rattle.pb_price.specs.OnGroups.{on_groups};

use pb_certificate::{CertFault, Rows};
use pb_election::Election;
use pb_money::{cost_grains, payment_grains};
use pb_price::OnGroups;
use pb_reply::{File, Unanswered, election_of};
use std::alloc::{AllocError, Global};

const SAYS_LITTLE: &str =
    "note: the voter budgets together are less than the limit, so this yes says little";

/// What a yes to a price certificate, whose files are in memory, says of groups, by whether the condition Exhaustive was
/// asked for. It isn't looked whether the answer is a yes; of files that are refused nothing is told. An error means out
/// of memory.
pub fn groups_on_yes(
    alloc: Global,
    election: &[u8],
    certificate: &[u8],
    exhaustive: bool,
) -> Result<Option<OnGroups>, AllocError> {
    match election_of(alloc, File::in_memory(election)) {
        Ok(election) => groups_by(alloc, &election, certificate, exhaustive),
        Err(Unanswered::Memory) => Err(AllocError {}),
        Err(_) => Ok(None),
    }
}

/// What is told beside a yes to a price certificate, whose files are in memory: a note where it says little of groups. It
/// isn't looked whether the answer is a yes; of files that are refused nothing is told. An error means out of memory.
pub fn notes_on_yes(
    alloc: Global,
    election: &[u8],
    certificate: &[u8],
) -> Result<Vec<String>, AllocError> {
    let mut notes = Vec::new(alloc);
    if let Some(said) = groups_on_yes(alloc, election, certificate, false)? {
        push_note(alloc, &mut notes, said)?;
    }
    Ok(notes)
}

/// Adds the note where this is what a yes says of groups.
pub(crate) fn push_note(
    alloc: Global,
    notes: &mut Vec<String>,
    said: OnGroups,
) -> Result<(), AllocError> {
    if said == OnGroups::Little {
        notes.push(String::from_str(alloc, SAYS_LITTLE)?)?;
    }
    Ok(())
}

/// What a yes to the prices of these bytes says of groups.
fn groups_by(
    alloc: Global,
    election: &Election,
    certificate: &[u8],
    exhaustive: bool,
) -> Result<Option<OnGroups>, AllocError> {
    match Rows::open(alloc, certificate, election) {
        Ok(rows) => Ok(Some(groups_at(election, rows.denominator(), rows.budget(), exhaustive))),
        Err(refusal) if refusal.fault == CertFault::Memory => Err(AllocError {}),
        Err(_) => Ok(None),
    }
}

/// What a yes says of groups where each voter budget has this numerator over this denominator.
fn groups_at(election: &Election, denominator: u32, budget: u128, exhaustive: bool) -> OnGroups
    requires low { 1 ≤ denominator }
    requires high { denominator ≤ most_denominator }
    requires budget { budget ≤ most_numerator }
    ensures { result ≡ on_groups exhaustive (voters election.now * payment_grains budget) (cost_grains (election.now).limit denominator) }
{
    let budgets = u128::from(election.voters()) * payment_grains(budget);
    OnGroups::of(
        budgets,
        cost_grains(election.limit(), denominator),
        exhaustive,
    )
}
