//! Marks: which of the numbers from 1 on the rows of a file have named.
ghost use Rattle.std.specs.Prelude.{◌≡◌, ◌≤◌, ◌<◌, ◌^◌, not, IfOk, IsTrue, length};
ghost use Rattle.pb_records.specs.Inside.Headed.{EndsAs};
ghost use Rattle.pb_certificate.specs.Inside.Marks as spec;

use crate::CertFault;
use crate::fields::voter_in;
use pb_election::Election;
use std::alloc::{AllocError, Global};

// Marks a number, from 1, and tells whether it had no mark yet. A number behind the last counts as marked.
fn mark(marks: &mut [bool], number: u32) -> bool
    requires { 1 ≤ number }
    ensures first { result ≡ not (spec.is_marked marks.old number) }
    ensures marks { IsTrue result → marks.new ≡ spec.with_mark marks.old number }
{
    let at = number as usize - 1;
    if at >= marks.len() || marks[at] {
        return false;
    }
    marks[at] = true;
    true
}

/// Marks the project that has this id. A project that has its mark already is `Repeated`.
#[tactic(auto, unfolding(crate::specs::Inside::Marks::marks_after))]
pub fn mark_project(marks: &mut [bool], id: &str, election: &Election) -> Result<(), CertFault>
    ensures { EndsAs (spec.project_after election.now id.now marks.old) result marks.new }
{
    let Some(project) = election.find(id) else {
        return Err(CertFault::UnknownProject);
    };
    if !mark(marks, project) {
        return Err(CertFault::Repeated);
    }
    Ok(())
}

/// Marks the voter that a field names by its number. A voter that has its mark already is `Repeated`.
#[tactic(auto, unfolding(crate::specs::Inside::Marks::marks_after))]
pub fn mark_voter(marks: &mut [bool], number: &str, election: &Election) -> Result<(), CertFault>
    ensures { EndsAs (spec.voter_after election.now number.now marks.old) result marks.new }
{
    let Some(voter) = voter_in(number, election)? else {
        return Err(CertFault::UnknownVoter);
    };
    if !mark(marks, voter) {
        return Err(CertFault::Repeated);
    }
    Ok(())
}

/// The numbers, from 1 and rising, that are marked.
pub fn marked(alloc: Global, marks: &[bool]) -> Result<Vec<u32>, AllocError>
    requires { length marks.now < 2 ^ 32 }
    ensures { IfOk result (λ numbers. numbers.items ≡ spec.marked marks.now) }
{
    let mut numbers = Vec::new(alloc);
    let mut number = 0;
    for has_mark in marks {
        number += 1;
        if *has_mark {
            numbers.push(number)?;
        }
    }
    Ok(numbers)
}
