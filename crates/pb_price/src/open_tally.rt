//! A tally while payments are taken: the sums so far, and the voter at hand.

ghost use Rattle.std.specs.Prelude.{◌≡◌, ◌<◌, ◌≤◌, ◌+◌, ◌^◌, IfOk};
ghost use Rattle.pb_election.specs.Instance.{voters};
ghost use Rattle.pb_price.specs.Inside.Tallies.{CanTakeRow, Taken, Tallied, TakesRow, most_grains, no_payment};

use crate::at_hand::AtHand;
use crate::tally::Tally;
use pb_certificate::PriceRow;
use pb_election::Election;
use pb_money::payment_grains;
use std::alloc::{AllocError, Global};

/// A tally of the payments that were taken, which come by voter. The voter at hand is the one behind the closed ones.
#[derive(Drop)]
pub(crate) struct OpenTally {
    pub tally: Tally,
    pub at_hand: AtHand,
}

impl OpenTally {
    /// A tally of no payment, for voters with so many grains each.
    pub fn new(alloc: Global, election: &Election, budget: u128) -> Result<OpenTally, AllocError>
        requires { budget ≤ most_grains }
        ensures { IfOk result (λ t. Tallied election.now (no_payment budget) t × (t.tally.closed ≡ 0)) }
    {
        let tally = Tally::new(alloc, election, budget)?;
        let at_hand = AtHand {
            opened: 0,
            spent: 0,
            largest: 0,
        };
        Ok(OpenTally { tally, at_hand })
    }

    /// Takes a row. The rows come by voter, and none is on the voter and the project of another.
    pub fn take(&mut self, election: &Election, row: PriceRow)
        requires { CanTakeRow election.now self.old row }
        ensures taken { (a b : Taken) → Tallied election.now a self.old → TakesRow a b row → Tallied election.now b self.new }
        ensures closed { (self.new).tally.closed + 1 ≡ row.voter }
    {
        self.close_to(election, row.voter - 1);
        self.open(election);
        self.add(election, row);
    }

    /// Closes all voters, after the last row.
    pub fn finish(&mut self, election: &Election)
        requires { (a : Taken) × Tallied election.now a self.old × (a.rows ≤ 10 ^ 12) }
        ensures taken { (a : Taken) → Tallied election.now a self.old → Tallied election.now a self.new }
        ensures closed { (self.new).tally.closed ≡ voters election.now }
    {
        self.close_to(election, election.voters());
    }

    // Closes the voters up to this one.
    fn close_to(&mut self, election: &Election, last: u32)
        requires tallied { (a : Taken) × Tallied election.now a self.old × (a.rows ≤ 10 ^ 12) }
        requires order { (self.old).tally.closed ≤ last }
        requires last { last ≤ voters election.now }
        ensures taken { (a : Taken) → Tallied election.now a self.old → Tallied election.now a self.new }
        ensures closed { (self.new).tally.closed ≡ last }
    {
        while self.tally.closed < last {
            self.close(election);
        }
    }

    // Closes the voter at hand. Nothing was taken of the next one.
    fn close(&mut self, election: &Election)
        requires tallied { (a : Taken) × Tallied election.now a self.old × (a.rows ≤ 10 ^ 12) }
        requires more { (self.old).tally.closed < voters election.now }
        ensures taken { (a : Taken) → Tallied election.now a self.old → Tallied election.now a self.new }
        ensures closed { (self.new).tally.closed ≡ (self.old).tally.closed + 1 }
    {
        self.tally.close(election, self.at_hand);
        self.at_hand.spent = 0;
        self.at_hand.largest = 0;
    }

    // Opens the voter at hand, where it is not open yet.
    fn open(&mut self, election: &Election)
        requires tallied { (a : Taken) × Tallied election.now a self.old × (a.rows ≤ 10 ^ 12) }
        requires more { (self.old).tally.closed < voters election.now }
        ensures taken { (a : Taken) → Tallied election.now a self.old → Tallied election.now a self.new }
        ensures closed { (self.new).tally.closed ≡ (self.old).tally.closed }
        ensures opened { (self.new).at_hand.opened ≡ (self.old).tally.closed + 1 }
    {
        if self.tally.closed < self.at_hand.opened {
            return;
        }
        self.tally.open(election);
        self.at_hand.opened = self.tally.closed + 1;
    }

    // Adds a payment of the voter at hand, which is open.
    fn add(&mut self, election: &Election, row: PriceRow)
        requires can { CanTakeRow election.now self.old row }
        requires at_hand { (self.old).tally.closed + 1 ≡ row.voter }
        requires opened { (self.old).at_hand.opened ≡ row.voter }
        ensures taken { (a b : Taken) → Tallied election.now a self.old → TakesRow a b row → Tallied election.now b self.new }
        ensures closed { (self.new).tally.closed ≡ (self.old).tally.closed }
    {
        self.tally.add(election, row);
        self.at_hand.pay(payment_grains(row.payment));
    }
}
