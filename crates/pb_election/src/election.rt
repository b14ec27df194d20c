//! Elections, and the questions that are asked of one.
ghost use Rattle.std.specs.Prelude.{◌≡◌, ◌≤◌, ◌⊎◌, IfOk, IfErr, IfSome, MatchResult, is_some, length};
ghost use Rattle.std.specs.Option.{option_copied};
ghost use Rattle.pb_election.specs.Faults.{Refuses, no_memory};
ghost use Rattle.pb_election.specs.Instance as spec;
ghost use Rattle.pb_election.specs.Instance.{Instance, IsBallot, IsProject, IsVoter, most_projects};
ghost use Rattle.pb_election.specs.Text.{IsElection, IsTextOf};

use crate::columns::UnusedColumns;
use crate::election_draft::ElectionDraft;
use crate::ids::Ids;
use crate::{ElectionFault, Refusal};
use pb_money::Money;
use pb_records::{FaultAt, RaggedArray, Stop, take_all};
use std::alloc::Global;
use std::marker::Model;

/// An election in which each voter approves some of the projects, as a file in Pabulib's format states it. It has at
/// most 20,000 projects, 1,000,000 voters and 20,000,000 approvals, and each amount is at most 10^18 millionths of the
/// currency. Projects and voters are numbered from 1, in the order of their rows.
#[derive(Drop)]
pub struct Election {
    pub(crate) limit: Money,
    pub(crate) ids: Ids,
    pub(crate) costs: Vec<Money>,
    pub(crate) selected: Option<Vec<bool>>,
    pub(crate) other_selected: u32,
    pub(crate) declared_projects: Option<u64>,
    pub(crate) declared_votes: Option<u64>,
    pub(crate) unused: UnusedColumns,
    pub(crate) ballots: RaggedArray<u32>,
}

impl Model for Election {
    ghost use Rattle.pb_election.specs.Instance.{Instance};

    ghost Value = { Instance };

    ghost use Rattle.pb_election.specs.Inside.ElectionView.{instance_of};
    ghost use Rattle.pb_election.specs.Text.{IsElection};

    ghost view = { instance_of };

    ghost invariant = { λ a. IsElection (instance_of a) };
}

impl Election {
    /// The election that the bytes of a file in Pabulib's format state, or the first fault because of which they state
    /// none. `Memory` comes only after a failed allocation, which is tested and not proved.
    pub fn read(alloc: Global, bytes: &[u8]) -> Result<Election, Refusal>
        // What is answered is what the file states, and it is sound.
        ensures found { IfOk result (λ e. IsTextOf bytes.now e × IsElection e) }

        // A refusal is the first fault, or out of memory.
        ensures refused { IfErr result (λ r. (r ≡ no_memory) ⊎ Refuses bytes.now r) }

        // Where the file states an election, that one is answered, memory aside.
        ensures only { (e : Instance) → IsTextOf bytes.now e → MatchResult result (λ found. found ≡ e) (λ r. r ≡ no_memory) }
    {
        let mut draft = ElectionDraft::new(alloc)?;
        match take_all(alloc, bytes, b';', &(), &mut draft) {
            Ok(()) => Ok(draft.into_election()),
            Err(Stop::Fault(at)) => Err(Refusal {
                fault: at.fault,
                record_number: at.record_number,
            }),
            Err(Stop::Memory) => Err(Refusal {
                fault: ElectionFault::Memory,
                record_number: 0,
            }),
        }
    }

    /// The budget limit: at most so much may the funded projects cost together.
    pub fn limit(&self) -> Money
        ensures value { result ≡ (self.now).limit }
        ensures sound { IsElection self.now }
    {
        self.limit
    }

    /// How many projects there are, at most 20,000.
    pub fn projects(&self) -> u32
        ensures value { result ≡ spec.projects self.now }
        ensures sound { IsElection self.now }
    {
        self.ids.len() as u32
    }

    /// How many voters there are, at most 1,000,000.
    pub fn voters(&self) -> u32
        ensures value { result ≡ spec.voters self.now }
        ensures sound { IsElection self.now }
    {
        self.ballots.len() as u32
    }

    /// The id of project j, as the file spells it, without spaces at its ends. Projects are numbered from 1.
    pub fn id(&self, j: u32) -> &str
        requires { IsProject self.now j }
        ensures { result.now ≡ spec.id_of self.now j }
    {
        self.ids.get(j as usize - 1)
    }

    /// What project j costs, from 0 up. Projects are numbered from 1.
    pub fn cost(&self, j: u32) -> Money
        requires { IsProject self.now j }
        ensures { result ≡ spec.cost_of self.now j }
    {
        self.costs[j as usize - 1]
    }

    /// The number, from 1, of the project with this id, compared byte for byte, and `None` where no project has it.
    pub fn find(&self, id: &str) -> Option<u32>
        ensures value { result ≡ spec.position_of self.now id.now }
        ensures project { IfSome result (λ j. IsProject self.now j × (spec.id_of self.now j ≡ id.now)) }
    {
        let place = self.ids.position(id)?;
        Some(place as u32)
    }

    /// The ballot of voter i: the numbers, from 1 and rising, of the projects that the voter approves. Voters are
    /// numbered from 1.
    pub fn ballot(&self, i: u32) -> &[u32]
        requires { IsVoter self.now i }
        ensures value { result.now ≡ spec.ballot_of self.now i }
        ensures rising { IsBallot self.now result.now }
    {
        self.ballots.get(i as usize - 1)
    }

    /// Whether voter i approves project j, both numbered from 1.
    pub fn approves(&self, i: u32, j: u32) -> bool
        requires voter { IsVoter self.now i }
        requires project { IsProject self.now j }
        ensures { result ≡ spec.approves self.now i j }
    {
        self.ballot(i).binary_search(&j).is_ok()
    }

    /// How many projects the file's `num_projects` says that there are, where that is a whole number up to 10^18. It
    /// need not be how many there are.
    pub fn declared_projects(&self) -> Option<u64>
        ensures { result ≡ (self.now).declared_projects }
    {
        self.declared_projects
    }

    /// How many voters the file's `num_votes` says that there are, where that is a whole number up to 10^18. It need
    /// not be how many there are.
    pub fn declared_votes(&self) -> Option<u64>
        ensures { result ≡ (self.now).declared_votes }
    {
        self.declared_votes
    }

    /// Which columns that weigh votes the file has. They aren't read, and each vote counts the same.
    pub fn unused_columns(&self) -> UnusedColumns
        ensures { result ≡ (self.now).unused }
    {
        self.unused
    }

    /// Of how many projects the column `selected` says neither `1`, funded, nor `0`, not funded; 0 where there is no
    /// such column. They count as not funded.
    pub fn other_selected(&self) -> u32
        ensures { result ≡ (self.now).other_selected }
    {
        self.other_selected
    }

    /// Whether the file has the column `selected`, so that it states an outcome.
    pub fn has_selected(&self) -> bool
        ensures { result ≡ is_some (self.now).selected }
    {
        self.selected.is_some()
    }

    // The marks of the column `selected`, where the file has it.
    pub(crate) fn selected(&self) -> Option<&[bool]>
        ensures value { option_copied result ≡ (self.now).selected }
        ensures long { IfSome result (λ marks. length marks.now ≡ spec.projects self.now) }
    {
        self.selected.as_deref()
    }

    // What the projects cost, by position.
    pub(crate) fn costs(&self) -> &[Money]
        ensures value { result.now ≡ (self.now).costs }
        ensures long { length result.now ≡ spec.projects self.now }
        ensures few { length result.now ≤ most_projects }
    {
        &self.costs
    }
}
