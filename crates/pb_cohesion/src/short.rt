//! Whether a group of voters falls short: extended justified representation up to any project (EJR+).

ghost use Rattle.std.specs.Prelude.{◌≡◌, ◌↔◌, ℕ, IfOk, List, Ok, length};
ghost use Rattle.pb_election.specs.Outcome.{OutcomeFits};
ghost use Rattle.pb_cohesion.specs.Shown.{verdict_of};
ghost use Rattle.pb_cohesion.specs.Short.{IsFirstShort, SatisfiesEjrPlus};

use crate::{GroupFigures, GroupsVerdict};
use pb_certificate::Measure;
use pb_election::{Election, Outcome};
use std::alloc::{AllocError, Global};

mod figures;
mod members;
mod needs;
mod order;
mod shown;

pub use figures::group_figures;
pub use members::members_up_to;
pub use shown::{first_short, shown_of};

/// Whether a group falls short for a project by this measure, or else the lowest such project, with the number of voters
/// of the largest such group. This is so of all groups of voters whatever. The outcome is to fit the election. An error
/// means out of memory.
pub fn check_groups(
    alloc: Global,
    election: &Election,
    outcome: &Outcome,
    measure: Measure,
) -> Result<GroupsVerdict, AllocError>
    requires { OutcomeFits outcome.now election.now }
    // No group falls short.
    ensures satisfied { IfOk result (λ verdict. (verdict ≡ GroupsVerdict.Satisfied) ↔ SatisfiesEjrPlus measure election.now (outcome.now).marks) }
    // What a failure names is the first project with its largest group, and it is named where there is one.
    ensures failed { (c k : ℕ) → result ≡ Ok (GroupsVerdict.Failed c k) → (s : List ℕ) × IsFirstShort measure election.now (outcome.now).marks s c × (length s ≡ k) }
    ensures first { (s : List ℕ) (c : ℕ) → IsFirstShort measure election.now (outcome.now).marks s c → IfOk result (λ verdict. verdict ≡ GroupsVerdict.Failed c (length s)) }
{
    let figures = group_figures(alloc, election, outcome, measure)?;
    Ok(verdict_of(&figures))
}

// The verdict that the figures of all projects tell.
fn verdict_of(figures: &[GroupFigures]) -> GroupsVerdict
    ensures { result ≡ verdict_of figures.now }
{
    GroupsVerdict::by(first_short(figures))
}
