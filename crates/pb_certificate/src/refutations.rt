//! Refutations: certificates that no prices support an outcome.
ghost use Rattle.std.specs.Prelude.{◌≡◌, ◌≤◌, ◌↔◌, ◌⊎◌, IsTrue, IfSome, IfOk, IfErr, MatchResult, option_map};
ghost use Rattle.pb_certificate.specs.Faults.{Refuses, certificate_records, no_memory, refutation_form};
ghost use Rattle.pb_certificate.specs.Refutations.{Weights, WeightsFit, most_weight, row_of, weight};
ghost use Rattle.pb_certificate.specs.Refutations.Text.{IsRefutationText};

use crate::CertRefusal;
use crate::refutations::draft::RefutationDraft;
use pb_election::Election;
use pb_records::take_all;
use std::alloc::Global;
use std::marker::Model;

mod draft;
mod row;
mod weighting;

pub use weighting::{Role, Weighting};

/// What a refutation states: weights by which no prices whatever support the outcome. By linear duality such weights
/// exist exactly where no prices do. The form of refutations is this project's own.
#[derive(Drop)]
pub struct Refutation {
    cover: u64,
    rows: Vec<Option<Weighting>>,
}

impl Model for Refutation {
    ghost use Rattle.pb_certificate.specs.Refutations.{AreWeights, Weights};

    ghost Value = { Weights };

    ghost view = { λ a. record { cover = a.cover; rows = a.rows.items } };

    ghost invariant = { λ a. AreWeights (record { cover = a.cover; rows = a.rows.items }) };
}

impl Refutation {
    /// The weights that the bytes of a refutation state for an election, or the first fault: the one at the least
    /// record, and of those there the one with the lowest number. Out of memory comes only after a failed allocation,
    /// which is tested and not proved.
    ///
    /// The three head records are `pb-refutation,1`, `cover` with the weight of Cover, and `role,project,weight`. A row
    /// is `least`, `most` or `left`, a project's id and its weight, in any order and none twice for a project. Weights
    /// are whole numbers up to 10^12.
    pub fn read(alloc: Global, bytes: &[u8], election: &Election) -> Result<Refutation, CertRefusal>
        ensures found { IfOk result (λ r. IsRefutationText (certificate_records bytes.now) election.now r) }
        ensures fits { IfOk result (λ r. WeightsFit r election.now) }
        ensures refused { IfErr result (λ r. (r ≡ no_memory) ⊎ Refuses (refutation_form election.now) bytes.now r) }

        // Where the bytes state weights, those are answered, memory aside.
        ensures only { (w : Weights) → IsRefutationText (certificate_records bytes.now) election.now w → MatchResult result (λ r. r ≡ w) (λ r. r ≡ no_memory) }
    {
        let mut draft = RefutationDraft::new(alloc, election)?;
        take_all(alloc, bytes, b',', election, &mut draft)?;
        let (cover, rows) = draft.into_weights();
        Ok(Refutation { cover, rows })
    }

    /// The weight of the condition Cover, at most 10^12. Takes no memory.
    pub fn cover(&self) -> u64
        ensures value { result ≡ (self.now).cover }
        ensures small { result ≤ most_weight }
    {
        self.cover
    }

    /// The weight of a project, at most 10^12, and 0 where it has no row. Projects are numbered from 1. Takes no memory.
    pub fn weight(&self, project: u32) -> u64
        requires { 1 ≤ project }
        ensures value { result ≡ weight self.now project }
        ensures small { result ≤ most_weight }
    {
        match self.row(project) {
            Some(row) => row.weight,
            None => 0,
        }
    }

    /// What the weight of a project speaks for, or none where it has no row. Projects are numbered from 1. Takes no
    /// memory.
    pub fn role(&self, project: u32) -> Option<Role>
        requires { 1 ≤ project }
        ensures { result ≡ option_map (λ x. x.role) (row_of self.now project) }
    {
        self.row(project).map(|row| row.role)
    }

    // What the row of a project states, where it has one.
    fn row(&self, project: u32) -> Option<Weighting>
        requires { 1 ≤ project }
        ensures value { result ≡ row_of self.now project }
        ensures small { IfSome result (λ x. x.weight ≤ most_weight) }
    {
        self.rows.get(project as usize - 1).copied().flatten()
    }

    /// Whether these are weights for as many projects as the election has. Takes no memory.
    pub fn fits(&self, election: &Election) -> bool
        ensures { IsTrue result ↔ WeightsFit self.now election.now }
    {
        self.rows.len() == election.projects() as usize
    }
}
