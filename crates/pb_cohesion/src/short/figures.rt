//! For each unfunded project the group that is shown, in one pass over the voters, those first that got the least.

ghost use Rattle.std.specs.Prelude.{◌≡◌, ◌<◌, ◌≤◌, ◌+◌, ◌*◌, [], All, ℕ, Bool, IfOk, List, length, nat_le, slice_index_or};
ghost use Rattle.pb_election.specs.Instance.{IsProject, IsVoter, most_voters, projects};
ghost use Rattle.pb_election.specs.Outcome.{OutcomeFits};
ghost use Rattle.pb_cohesion.specs.Closest.{AreAllFigures, most_need};
ghost use Rattle.pb_cohesion.specs.Inside.Counting.{AllStand, AreChanged, CanTake, counts_for, with_supporter};
ghost use Rattle.pb_cohesion.specs.Short.{need};
ghost use Rattle.pb_cohesion.specs.Shown.{AreSmall};

use super::needs::{is_enough, needed};
use super::order::voters_by_got;
use crate::GroupFigures;
use pb_certificate::Measure;
use pb_election::{Election, Outcome};
use std::alloc::{AllocError, Global};

/// For each unfunded project that has a supporter, in the order of the file, the group that is shown by this measure. The
/// outcome is to fit the election. An error means out of memory.
pub fn group_figures(
    alloc: Global,
    election: &Election,
    outcome: &Outcome,
    measure: Measure,
) -> Result<Vec<GroupFigures>, AllocError>
    requires { OutcomeFits outcome.now election.now }
    ensures figures { IfOk result (λ figures. AreAllFigures measure election.now (outcome.now).marks figures.items) }
    ensures small { IfOk result (λ figures. All AreSmall figures.items) }
{
    let order = voters_by_got(alloc, election, outcome, measure)?;
    let mut figures = no_supporters(alloc, election)?;
    for one in &order {
        count_voter(&mut figures, election, outcome, measure, one.0, one.1);
    }
    figures.retain(|project| project.supporters > 0);
    Ok(figures)
}

// The figures of all projects before the first voter is counted.
fn no_supporters(alloc: Global, election: &Election) -> Result<Vec<GroupFigures>, AllocError>
    ensures { (m : Measure) (w : List Bool) → IfOk result (λ figures. AllStand m election.now w [] figures.items) }
{
    let mut figures = Vec::with_capacity(alloc, election.projects() as usize)?;
    for k in 0..election.projects() {
        figures.push(GroupFigures {
            project: k + 1,
            supporters: 0,
            voters: 0,
            most: 0,
            need: 0,
            falls_short: false,
        })?;
    }
    Ok(figures)
}

// Counts one more voter, who got so much, for the unfunded projects of its ballot.
fn count_voter(
    figures: &mut [GroupFigures],
    election: &Election,
    outcome: &Outcome,
    measure: Measure,
    got: u128,
    i: u32,
)
    requires outcome { OutcomeFits outcome.now election.now }
    requires voter { IsVoter election.now i }
    requires as_many { length figures.old ≡ projects election.now }
    requires can { (k : ℕ) (d : GroupFigures) → k < projects election.now → CanTake k (slice_index_or figures.old k d) }
    requires small { (c : ℕ) → IsProject election.now c → need measure election.now c got ≤ most_need }
    ensures { AreChanged (counts_for election.now (outcome.now).marks i) (with_supporter measure election.now got) figures.old figures.new }
{
    for c in election.ballot(i) {
        if !outcome.has(*c) {
            let place = *c as usize - 1;
            figures[place] = figures[place].with_supporter(election, measure, got);
        }
    }
}

impl GroupFigures {
    // The figures with one more supporter, who got so much, no less than those before.
    fn with_supporter(self, election: &Election, measure: Measure, got: u128) -> GroupFigures
        requires project { IsProject election.now self.project }
        requires few { self.supporters ≤ most_voters }
        requires few_voters { self.voters ≤ most_voters }
        requires small { self.need ≤ most_need }
        requires small_need { need measure election.now self.project got ≤ most_need }
        ensures { result ≡ with_supporter measure election.now got self }
    {
        let supporters = self.supporters + 1;
        let need = needed(election, measure, self.project, got);
        let enough = is_enough(election, supporters, need);
        if enough || !self.falls_short && self.is_no_closer(supporters, need) {
            GroupFigures {
                project: self.project,
                supporters,
                voters: supporters,
                most: got,
                need,
                falls_short: enough,
            }
        } else {
            GroupFigures { supporters, ..self }
        }
    }

    // Whether the share of the group covers no more of what it has to come to than that of so many voters of what that
    // has to come to.
    fn is_no_closer(&self, voters: u32, need: u128) -> bool
        requires few { (self.now).voters ≤ most_voters }
        requires many { voters ≤ most_voters + 1 }
        requires small { (self.now).need ≤ most_need }
        requires need { need ≤ most_need }
        ensures { result ≡ nat_le ((self.now).voters * need) (voters * (self.now).need) }
    {
        u128::from(self.voters) * need <= u128::from(voters) * self.need
    }
}
