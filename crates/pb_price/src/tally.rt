//! A tally of payments: the sums that the conditions on a price system are read off. Amounts are in grains: a grain is
//! 1/(10^6 D) of the currency, where D is the denominator.

ghost use Rattle.std.specs.Prelude.{◌≡◌, ◌<◌, ◌≤◌, ◌+◌, ◌^◌, ◌&&◌, not, nat_lt, if◌then◌else◌, ℕ, pos, ◌-ℤ◌, IfOk, length, slice_index_or};
ghost use Rattle.std.specs.Int.{int_max};
ghost use Rattle.pb_election.specs.Instance.{IsSet, voters};
ghost use Rattle.pb_price.specs.Inside.Noted.{first_number};
ghost use Rattle.pb_price.specs.Inside.Tallies.{AreChanged, AreSmall, AreTallied, CanAddRow, IsAtHand, IsWithin, Taken, TakesRow, first_pair, marked_with, most_grains, no_payment, with_supporter};

use crate::at_hand::AtHand;
use crate::noting::NOTHING_FOUND;
use crate::{Comparison, Finding, PaymentFinding};
use pb_certificate::PriceRow;
use pb_election::Election;
use pb_money::payment_grains;
use std::alloc::{AllocError, Global};

/// What a project has by the payments that were taken.
#[derive(Clone, Copy)]
pub(crate) struct ProjectSums {
    /// What is paid for it.
    pub paid: u128,
    /// What its supporters have left together, which is negative where they spend more than their budgets.
    pub left: i128,
    /// What its supporters can offer together: each the larger of its largest payment and what it has left.
    pub offer: i128,
    /// How many supporters it has.
    pub supporters: u32,
    /// The last voter that was seen to approve it, and 0 before the first.
    pub last_approver: u32,
}

/// The sums of the payments that were taken, which come by voter. The voters up to one are closed: they are counted
/// among the supporters of the projects that they approve, with what they have left and can offer.
#[derive(Drop)]
pub(crate) struct Tally {
    /// The budget of each voter.
    pub budget: u128,
    /// Of each project what it has.
    pub projects: Vec<ProjectSums>,
    /// The payments for projects that their voters do not approve.
    pub unapproved: PaymentFinding,
    /// What the closed voters spend, against their budget.
    pub over_budget: Finding,
    /// One for each row taken, entry of a ballot looked at, and voter closed.
    pub steps: u64,
    /// The last voter that is closed, and 0 before the first.
    pub closed: u32,
}

impl Tally {
    /// A tally of no payment, for voters with so many grains each.
    pub fn new(alloc: Global, election: &Election, budget: u128) -> Result<Tally, AllocError>
        requires { budget ≤ most_grains }
        ensures { IfOk result (λ t. AreTallied election.now (no_payment budget) 0 t × (t.closed ≡ 0)) }
    {
        let none = ProjectSums {
            paid: 0,
            left: 0,
            offer: 0,
            supporters: 0,
            last_approver: 0,
        };
        Ok(Tally {
            budget,
            projects: vec![in alloc; none; election.projects() as usize]?,
            unapproved: PaymentFinding {
                first: None,
                count: 0,
            },
            over_budget: NOTHING_FOUND,
            steps: 0,
            closed: 0,
        })
    }

    /// Closes the voter at hand: what it has left and can offer goes to each project that it approves.
    pub fn close(&mut self, election: &Election, at_hand: AtHand)
        requires tallied { (a : Taken) × AreTallied election.now a at_hand.opened self.old × IsAtHand election.now a ((self.old).closed + 1) at_hand × (a.rows ≤ 10 ^ 12) }
        requires more { (self.old).closed < voters election.now }
        ensures taken { (a : Taken) → AreTallied election.now a at_hand.opened self.old → IsAtHand election.now a ((self.old).closed + 1) at_hand → AreTallied election.now a at_hand.opened self.new }
        ensures closed { (self.new).closed ≡ (self.old).closed + 1 }
    {
        let voter = self.closed + 1;
        let left = left_of(self.budget, at_hand.spent);
        let offer = offer_of(left, at_hand.largest);
        let ballot = election.ballot(voter);
        give(&mut self.projects, ballot, left, offer);
        let compared = Comparison {
            at: voter,
            bound: self.budget,
            amount: at_hand.spent as i128,
        };
        self.over_budget.note(self.budget < at_hand.spent, compared);
        self.steps += ballot.len() as u64 + 1;
        self.closed = voter;
    }

    /// Opens the voter at hand, which is not open yet: marks the projects that it approves.
    pub fn open(&mut self, election: &Election)
        requires tallied { (a : Taken) × (opened : ℕ) × AreTallied election.now a opened self.old × (opened ≤ (self.old).closed) × (a.rows ≤ 10 ^ 12) }
        requires more { (self.old).closed < voters election.now }
        ensures taken { (a : Taken) (opened : ℕ) → AreTallied election.now a opened self.old → opened ≤ (self.old).closed → AreTallied election.now a ((self.old).closed + 1) self.new }
        ensures closed { (self.new).closed ≡ (self.old).closed }
    {
        let voter = self.closed + 1;
        let ballot = election.ballot(voter);
        mark(&mut self.projects, ballot, voter);
        self.steps += ballot.len() as u64;
    }

    /// Adds a payment of the voter at hand, which is open.
    pub fn add(&mut self, election: &Election, row: PriceRow)
        requires { CanAddRow election.now self.old row }
        ensures taken { (a b : Taken) → AreTallied election.now a row.voter self.old → TakesRow a b row → AreTallied election.now b row.voter self.new }
        ensures closed { (self.new).closed ≡ (self.old).closed }
    {
        let sums = &mut self.projects[row.project as usize - 1];
        sums.paid += payment_grains(row.payment);
        let approved = sums.last_approver == row.voter;
        self.unapproved = unapproved_with(self.unapproved, approved, row);
        self.steps += 1;
    }
}

// What a voter has left of its budget, which is negative where it spent more.
fn left_of(budget: u128, spent: u128) -> i128
    requires budget { budget ≤ most_grains }
    requires spent { spent ≤ 10 ^ 32 }
    ensures { result ≡ pos budget -ℤ pos spent }
{
    budget as i128 - spent as i128
}

// The most that a voter can offer: the larger of its largest payment and what it has left.
fn offer_of(left: i128, largest: u128) -> i128
    requires { largest ≤ 10 ^ 32 }
    ensures { result ≡ int_max (pos largest) left }
{
    (largest as i128).max(left)
}

/// The first number at which something holds, where one before is known or not.
pub(crate) fn first_where(known: Option<u32>, holds: bool, number: u32) -> Option<u32>
    ensures { result ≡ first_number known holds number }
{
    if known.is_none() && holds {
        return Some(number);
    }
    known
}

// The payments for projects that are not approved, with the row.
fn unapproved_with(known: PaymentFinding, approved: bool, row: PriceRow) -> PaymentFinding
    requires { known.count ≤ 10 ^ 12 }
    ensures first { result.first ≡ (if nat_lt 0 row.payment && not approved then first_pair known.first row.voter row.project else known.first) }
    ensures count { result.count ≡ (if nat_lt 0 row.payment && not approved then known.count + 1 else known.count) }
{
    if row.payment == 0 || approved {
        return known;
    }
    PaymentFinding {
        first: first_of(known.first, row.voter, row.project),
        count: known.count + 1,
    }
}

// The first of a voter with a project that is known, if there is one, and another voter with a project that is not
// lower.
fn first_of(known: Option<(u32, u32)>, voter: u32, project: u32) -> Option<(u32, u32)>
    ensures { result ≡ first_pair known voter project }
{
    match known {
        Some((i, j)) if i < voter || j < project => known,
        _ => Some((voter, project)),
    }
}

// Marks the projects of a voter's ballot with the voter.
fn mark(projects: &mut [ProjectSums], ballot: &[u32], voter: u32)
    requires { IsSet 1 (length projects.old) ballot.now }
    ensures { AreChanged (marked_with voter) projects.old projects.new ballot.now }
{
    for j in ballot {
        projects[*j as usize - 1].last_approver = voter;
    }
}

// Adds a supporter, by what it has left and can offer, to each project of its ballot.
fn give(projects: &mut [ProjectSums], ballot: &[u32], left: i128, offer: i128)
    requires ballot { IsSet 1 (length projects.old) ballot.now }
    requires left { IsWithin (10 ^ 32) left }
    requires offer { IsWithin (10 ^ 32) offer }
    requires fits { (k : ℕ) (d : ProjectSums) → k < length projects.old → AreSmall (slice_index_or projects.old k d) }
    ensures { AreChanged (with_supporter left offer) projects.old projects.new ballot.now }
{
    for j in ballot {
        let sums = &mut projects[*j as usize - 1];
        sums.left += left;
        sums.offer += offer;
        sums.supporters += 1;
    }
}
