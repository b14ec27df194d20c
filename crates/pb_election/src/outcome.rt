//! Outcomes: which projects of an election are funded.
ghost use Rattle.std.specs.Prelude.{◌≡◌, ◌≤◌, ◌⊎◌, ◌↔◌, IfOk, IfErr, IsTrue, None, Err, length};
ghost use Rattle.pb_election.specs.Faults.{no_memory, no_outcome};
ghost use Rattle.pb_election.specs.Instance as spec;
ghost use Rattle.pb_election.specs.Instance.{most_projects};
ghost use Rattle.pb_election.specs.Outcome as funding;
ghost use Rattle.pb_election.specs.Outcome.{OutcomeFits, most_total};

use crate::{Election, ElectionFault, Refusal};
use pb_money::Money;
use std::alloc::Global;
use std::marker::Model;

/// Which projects of an election are funded, and what they cost together.
#[derive(Drop)]
pub struct Outcome {
    marks: Vec<bool>,
    total: u128,
}

impl Model for Outcome {
    ghost use Rattle.std.specs.Prelude.{◌≤◌};
    ghost use Rattle.pb_election.specs.Outcome.{Funding, most_total};

    ghost Value = { Funding };

    ghost view = { λ a. record { marks = a.marks.items; total = a.total } };

    ghost invariant = { λ a. a.total ≤ most_total };
}

impl Outcome {
    /// The outcome that the election's own file states in its column `selected`. A file without that column is refused
    /// with `NoOutcome`. `Memory` comes only after a failed allocation, which is tested and not proved. The place of
    /// both is 0.
    pub fn selected(alloc: Global, election: &Election) -> Result<Outcome, Refusal>
        ensures found { IfOk result (λ w. funding.IsSelected w election.now) }
        ensures refused { IfErr result (λ r. (r ≡ no_memory) ⊎ ((r ≡ no_outcome) × ((election.now).selected ≡ None))) }
        ensures none { (election.now).selected ≡ None → result ≡ Err no_outcome }
        ensures fits { IfOk result (λ w. OutcomeFits w election.now) }
    {
        let Some(selected) = election.selected() else {
            return Err(Refusal {
                fault: ElectionFault::NoOutcome,
                record_number: 0,
            });
        };
        let marks = Vec::from_slice(alloc, selected)?;
        Ok(Outcome::of(marks, election))
    }

    /// The outcome in which project j, from 1, is funded exactly where the mark at j - 1 is set. There is one mark for
    /// each project of the election.
    pub fn of(marks: Vec<bool>, election: &Election) -> Outcome
        requires { length marks.items ≡ spec.projects election.now }
        ensures value { result ≡ funding.funds marks.items election.now }
        ensures fits { OutcomeFits result election.now }
    {
        let total = cost_of_marked(&marks, election.costs());
        Outcome { marks, total }
    }

    /// Whether project j is funded. Projects are numbered from 1.
    pub fn has(&self, j: u32) -> bool
        requires low { 1 ≤ j }
        requires high { j ≤ length (self.now).marks }
        ensures { result ≡ funding.has (self.now).marks j }
    {
        self.marks[j as usize - 1]
    }

    /// What the funded projects cost together, in millionths, by the election that the outcome was made with. At most
    /// 2 * 10^22.
    pub fn total(&self) -> u128
        ensures value { result ≡ (self.now).total }
        ensures small { result ≤ most_total }
    {
        self.total
    }

    /// Whether the election has as many projects as the outcome has marks.
    pub fn fits(&self, election: &Election) -> bool
        ensures { IsTrue result ↔ OutcomeFits self.now election.now }
    {
        self.marks.len() == election.projects() as usize
    }
}

// The costs of the marked projects together, in millionths.
fn cost_of_marked(marks: &[bool], costs: &[Money]) -> u128
    requires { length costs.now ≤ most_projects }
    ensures value { result ≡ funding.cost_of_marked marks.now costs.now }
    ensures small { result ≤ most_total }
{
    let mut total = 0;
    for (marked, cost) in marks.iter().zip(costs) {
        if *marked {
            total += u128::from(cost.millionths());
        }
    }
    total
}
