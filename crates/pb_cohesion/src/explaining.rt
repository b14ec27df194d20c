//! What each test of a violation certificate comes to, also of those behind the first that fails.

ghost use Rattle.std.specs.Prelude.{◌≡◌, ◌≤◌, ◌+◌, if◌then◌else◌, Some, None, filter, is_some, length, max, not, slice_get};
ghost use Rattle.std.specs.Option.{option_or};
ghost use Rattle.pb_election.specs.Instance.{IsVoter, approves, most_voters};
ghost use Rattle.pb_election.specs.Outcome.{OutcomeFits, most_total};
ghost use Rattle.pb_election.specs.Text.{IsElection};
ghost use Rattle.pb_certificate.specs.Violations.{ClaimFits};
ghost use Rattle.pb_cohesion.specs.FirstV.{culprits_of_V2};
ghost use Rattle.pb_cohesion.specs.Groups.{AreProjects, IsGroup};
ghost use Rattle.pb_cohesion.specs.ViolationFindings as spec;

use crate::worths::{cost_of_all, worth_of_all, worth_of_funded};
use crate::{MissingApprovals, Satisfaction, SatisfiedMembers, ViolationFindings};
use pb_certificate::Violation;
use pb_election::{Election, MOST_VOTERS, Outcome};

/// What each test of a violation comes to for the group and the demand of a certificate. The outcome and the
/// certificate are to fit the election. Takes no memory.
pub fn violation_findings<S: Satisfaction>(
    election: &Election,
    outcome: &Outcome,
    violation: &Violation,
    satisfaction: &S,
) -> ViolationFindings
    requires outcome { OutcomeFits outcome.now election.now }
    requires violation { ClaimFits violation.now election.now }
    ensures value { result ≡ spec.violation_findings (S.meaning satisfaction.now election.now) election.now (outcome.now).marks (violation.now).group (violation.now).demand }
    ensures small { result.cost ≤ most_total }
{
    // Tells the proof that the counts fit.
    prove!(election.voters() as usize <= MOST_VOTERS);
    let group = violation.group();
    let demand = violation.demand();
    let unapproved = MissingApprovals {
        first: first_not_approved(election, group, demand),
        count: count_not_approved(election, group, demand),
    };
    let demanded = worth_of_all(election, satisfaction, demand);
    let (satisfied, gets) = satisfied_members(election, outcome, satisfaction, group, demanded);
    ViolationFindings {
        members: group.len() as u32,
        cost: cost_of_all(election, demand),
        unapproved,
        demanded,
        satisfied,
        gets,
    }
}

// The first member that does not approve a demanded project, with the first such project.
fn first_not_approved(election: &Election, group: &[u32], demand: &[u32]) -> Option<(u32, u32)>
    requires group { IsGroup election.now group.now }
    requires demand { AreProjects election.now demand.now }
    ensures { result ≡ slice_get (culprits_of_V2 election.now group.now demand.now) 0 }
{
    for i in group {
        if let Some(j) = first_missing(election, *i, demand) {
            return Some((*i, j));
        }
    }
    None
}

// The first demanded project that a voter does not approve.
fn first_missing(election: &Election, i: u32, demand: &[u32]) -> Option<u32>
    requires voter { IsVoter election.now i }
    requires demand { AreProjects election.now demand.now }
    ensures { result ≡ slice_get (filter (λ j. not (approves election.now i j)) demand.now) 0 }
{
    for j in demand {
        if !election.approves(i, *j) {
            return Some(*j);
        }
    }
    None
}

// How many times a member does not approve a demanded project.
fn count_not_approved(election: &Election, group: &[u32], demand: &[u32]) -> u64
    requires sound { IsElection election.now }
    requires group { IsGroup election.now group.now }
    requires demand { AreProjects election.now demand.now }
    ensures { result ≡ length (culprits_of_V2 election.now group.now demand.now) }
{
    let mut count = 0;
    for i in group {
        count += count_missing(election, *i, demand);
    }
    count
}

// How many demanded projects a voter does not approve: all but those that its ballot has.
fn count_missing(election: &Election, i: u32, demand: &[u32]) -> u64
    requires voter { IsVoter election.now i }
    requires demand { AreProjects election.now demand.now }
    ensures { result ≡ length (filter (λ j. not (approves election.now i j)) demand.now) }
{
    let mut approved = 0;
    for j in election.ballot(i) {
        if demand.binary_search(j).is_ok() {
            approved += 1;
        }
    }
    (demand.len() - approved) as u64
}

// The members that get at least so much as is demanded, and what the first of them gets, or where there is none the
// most that one of the group gets.
fn satisfied_members<S: Satisfaction>(
    election: &Election,
    outcome: &Outcome,
    satisfaction: &S,
    group: &[u32],
    demanded: u128,
) -> (SatisfiedMembers, u128)
    requires sound { IsElection election.now }
    requires outcome { OutcomeFits outcome.now election.now }
    requires group { IsGroup election.now group.now }
    ensures members { result.0 ≡ spec.satisfied_members (spec.satisfied_by demanded (spec.worth_to (S.meaning satisfaction.now election.now) election.now (outcome.now).marks) group.now) }
    ensures shown { result.1 ≡ spec.shown_by demanded (spec.worth_to (S.meaning satisfaction.now election.now) election.now (outcome.now).marks) group.now }
{
    let mut satisfied = SatisfiedMembers {
        first: None,
        count: 0,
    };
    let mut gets = 0;
    for i in group {
        let worth = worth_of_funded(election, outcome, satisfaction, election.ballot(*i));
        let enough = demanded <= worth;
        gets = shown_with(satisfied.first, enough, gets, worth);
        satisfied.note(*i, enough);
    }
    (satisfied, gets)
}

// What is shown with one more member, who gets so much: what the first satisfied one gets, or the most that one gets.
fn shown_with(first: Option<u32>, enough: bool, shown: u128, worth: u128) -> u128
    ensures { result ≡ (if is_some first then shown else if enough then worth else max shown worth) }
{
    if first.is_none() && (enough || shown < worth) {
        worth
    } else {
        shown
    }
}

impl SatisfiedMembers {
    // Looks at one more member, behind those before: whether it gets enough.
    fn note(&mut self, i: u32, enough: bool)
        requires { (self.old).count ≤ most_voters }
        ensures first { (self.new).first ≡ option_or (self.old).first (if enough then Some i else None) }
        ensures count { (self.new).count ≡ (self.old).count + (if enough then 1 else 0) }
    {
        if enough {
            self.first = self.first.or(Some(i));
            self.count += 1;
        }
    }
}
