//! Violation certificates.
ghost use Rattle.std.specs.Prelude.{◌≡◌, ◌↔◌, ◌⊎◌, ℕ, List, IsTrue, IfOk, IfErr, MatchResult, length};
ghost use Rattle.pb_election.specs.Instance.{IsSet, projects, voters};
ghost use Rattle.pb_certificate.specs.Violations.{ClaimFits};
ghost use Rattle.pb_certificate.specs.Faults.{Refuses, certificate_records, no_memory, violation_form};
ghost use Rattle.pb_certificate.specs.Violations.Text.{IsViolationText};
ghost use Rattle.pb_certificate.specs.Inside.Marks.{marked};
ghost use Rattle.pb_certificate.specs.declared.violations.measure.Measure.{Measure};

use crate::CertRefusal;
use crate::marks::marked;
use crate::violations::draft::ViolationDraft;
use pb_election::Election;
use pb_records::take_all;
use std::alloc::{AllocError, Global};
use std::marker::Model;

mod draft;
mod measure;

pub use measure::Measure;

/// What a violation certificate claims against extended justified representation, as Peters, Pierczyński and Skowron
/// (2021) define it: a group of voters, the projects that it demands, and by what both are measured. The form of
/// violation certificates is this project's own.
#[derive(Drop)]
pub struct Violation {
    voters: u32,
    projects: u32,
    measure: Measure,
    group: Vec<u32>,
    demand: Vec<u32>,
}

impl Model for Violation {
    ghost use Rattle.pb_certificate.specs.Violations.{Claim, IsClaim};

    ghost Value = { Claim };

    ghost view = { λ a. record { voters = a.voters; projects = a.projects; measure = a.measure; group = a.group.items; demand = a.demand.items } };

    ghost invariant = { λ a. IsClaim (record { voters = a.voters; projects = a.projects; measure = a.measure; group = a.group.items; demand = a.demand.items }) };
}

impl Violation {
    /// The measure, the group and the demand that the bytes of a violation certificate state for an election, or the
    /// first fault: the one at the least record, and of those there the one with the lowest number. Out of memory
    /// comes only after a failed allocation, which is tested and not proved.
    ///
    /// The head record is `pb-violation,1`, and the measure is then counting; or it is `pb-violation,2`, and a second
    /// head record states the measure, `satisfaction,count` or `satisfaction,cost`. A row is `voter` with a voter's
    /// number or `project` with a project's id, in any order and none twice.
    pub fn read(alloc: Global, bytes: &[u8], election: &Election) -> Result<Violation, CertRefusal>
        ensures found { IfOk result (λ v. IsViolationText (certificate_records bytes.now) election.now v.measure v.group v.demand) }
        ensures fits { IfOk result (λ v. ClaimFits v election.now) }
        ensures refused { IfErr result (λ r. (r ≡ no_memory) ⊎ Refuses (violation_form election.now) bytes.now r) }

        // Where the bytes state a measure, a group and a demand, those are answered, memory aside.
        ensures only { (m : Measure) (s t : List ℕ) → IsViolationText (certificate_records bytes.now) election.now m s t → MatchResult result (λ v. (v.measure ≡ m) × (v.group ≡ s) × (v.demand ≡ t)) (λ r. r ≡ no_memory) }
    {
        let mut draft = ViolationDraft::new(alloc, election)?;
        take_all(alloc, bytes, b',', election, &mut draft)?;
        let violation = Violation::of(alloc, &draft, election)?;
        Ok(violation)
    }

    // The violation that the rows state which a draft has taken.
    fn of(
        alloc: Global,
        draft: &ViolationDraft,
        election: &Election,
    ) -> Result<Violation, AllocError>
        requires group { length draft.now.group.items ≡ voters election.now }
        requires demand { length draft.now.demand.items ≡ projects election.now }
        ensures measure { IfOk result (λ v. v.measure ≡ draft.now.measure) }
        ensures group { IfOk result (λ v. v.group ≡ marked draft.now.group.items) }
        ensures demand { IfOk result (λ v. v.demand ≡ marked draft.now.demand.items) }
        ensures fits { IfOk result (λ v. ClaimFits v election.now) }
    {
        let voters = election.voters();
        let projects = election.projects();
        let group = marked(alloc, &draft.group)?;
        let demand = marked(alloc, &draft.demand)?;
        Ok(Violation {
            voters,
            projects,
            measure: draft.measure,
            group,
            demand,
        })
    }

    /// By what the certificate measures what the members get and what they demand. Takes no memory.
    pub fn satisfaction(&self) -> Measure
        ensures { result ≡ (self.now).measure }
    {
        self.measure
    }

    /// The voters of the group, rising, from 1.
    pub fn group(&self) -> &[u32]
        ensures value { result.now ≡ (self.now).group }
        ensures rising { IsSet 1 (self.now).voters result.now }
    {
        &self.group
    }

    /// The projects that are demanded, rising, from 1.
    pub fn demand(&self) -> &[u32]
        ensures value { result.now ≡ (self.now).demand }
        ensures rising { IsSet 1 (self.now).projects result.now }
    {
        &self.demand
    }

    /// Whether this is a claim on as many voters and projects as the election has.
    pub fn fits(&self, election: &Election) -> bool
        ensures { IsTrue result ↔ ClaimFits self.now election.now }
    {
        self.voters == election.voters() && self.projects == election.projects()
    }
}
