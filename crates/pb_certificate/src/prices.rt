//! Price certificates: the prices that one states, its rows, and the canonical text.
ghost use Rattle.std.specs.Prelude.{◌≡◌, ◌≤◌, ◌↔◌, ◌⊎◌, IsTrue, IfOk, IfErr, MatchResult, length};
ghost use Rattle.pb_certificate.specs.Faults.{Refuses, certificate_records, no_memory, price_form};
ghost use Rattle.pb_certificate.specs.Prices as spec;
ghost use Rattle.pb_certificate.specs.Prices.{ArePrices, IsPaymentMap, IsPriceSystem, PricesFit, most_denominator, most_numerator};
ghost use Rattle.pb_certificate.specs.Prices.Text.{IsPriceText};

use crate::CertRefusal;
use crate::prices::gathering::gather;
use pb_election::Election;
use pb_records::RaggedArray;
use std::alloc::Global;
use std::marker::Model;

mod canonical;
mod gathering;
mod head;
mod payment_sink;
mod places;
mod prior_rows;
mod row;
mod row_reader;
mod rows;

pub use canonical::{WriteFault, canonical_text_of};
pub use row::PriceRow;
pub use rows::Rows;

/// A price system, after Peters, Pierczyński and Skowron (2021): a budget that is the same for all voters, and what
/// each voter pays for each project. An amount is a numerator, at most 10^21, over one denominator, from 1 to 10^9. At
/// most 10,000,000 payments are not 0. The form of price certificates is this project's own.
#[derive(Drop)]
pub struct Prices {
    projects: u32,
    denominator: u32,
    budget: u128,
    payments: RaggedArray<(u32, u128)>,
}

impl Model for Prices {
    ghost use Rattle.pb_certificate.specs.Prices as spec;
    ghost use Rattle.pb_certificate.specs.Prices.{IsPriceSystem};

    ghost Value = { spec.Prices };

    ghost view = { λ a. record {
      projects = a.projects;
      denominator = a.denominator;
      budget = a.budget;
      payments = a.payments;
    } };

    ghost invariant = { λ a. IsPriceSystem (record {
      projects = a.projects;
      denominator = a.denominator;
      budget = a.budget;
      payments = a.payments;
    }) };
}

impl Prices {
    /// The prices that the bytes of a price certificate state for an election, or the first fault: the one at the least
    /// record, and of those there the one with the lowest number. Out of memory comes only after a failed allocation,
    /// which is tested and not proved.
    ///
    /// The head records are `pb-prices,1`, `denominator,D`, `voter_budget,N` and `voter,project,payment`. A row has a
    /// voter's number, a project's id and a numerator, and there are at most 10,000,000 rows. The voters do not fall
    /// from row to row, and no pair of voter and project stands twice. A pair that does not stand has the payment 0.
    pub fn read(alloc: Global, bytes: &[u8], election: &Election) -> Result<Prices, CertRefusal>
        ensures found { IfOk result (λ p. IsPriceText (certificate_records bytes.now) election.now p) }
        ensures sound { IfOk result (λ p. ArePrices election.now p) }
        ensures refused { IfErr result (λ r. (r ≡ no_memory) ⊎ Refuses (price_form election.now) bytes.now r) }

        // Where the bytes state prices, those are answered, memory aside.
        ensures only { (p : spec.Prices) → IsPriceText (certificate_records bytes.now) election.now p → MatchResult result (λ found. found ≡ p) (λ r. r ≡ no_memory) }
    {
        let rows = Rows::open(alloc, bytes, election)?;
        let denominator = rows.denominator();
        let budget = rows.budget();
        let mut payments = RaggedArray::new(alloc)?;
        gather(alloc, rows, election.voters(), &mut payments)?;
        Ok(Prices::new(election.projects(), denominator, budget, payments))
    }

    // The prices of these parts. The payments are those of each voter, by rising project.
    pub(crate) fn new(
        projects: u32,
        denominator: u32,
        budget: u128,
        payments: RaggedArray<(u32, u128)>,
    ) -> Prices
        requires { IsPriceSystem (record { projects = projects; denominator = denominator; budget = budget; payments = payments }) }
        ensures { result ≡ record { projects = projects; denominator = denominator; budget = budget; payments = payments } }
    {
        Prices {
            projects,
            denominator,
            budget,
            payments,
        }
    }

    /// The denominator of all amounts, from 1 to 10^9.
    pub fn denominator(&self) -> u32
        ensures value { result ≡ (self.now).denominator }
        ensures sound { IsPriceSystem self.now }
        ensures low { 1 ≤ result }
        ensures high { result ≤ most_denominator }
    {
        self.denominator
    }

    /// The numerator of the budget of each voter, at most 10^21.
    pub fn budget(&self) -> u128
        ensures value { result ≡ (self.now).budget }
        ensures sound { IsPriceSystem self.now }
        ensures high { result ≤ most_numerator }
    {
        self.budget
    }

    /// The numerator of what voter i pays for project j, both from 1. It is 0 where the voter pays nothing, and at most
    /// 10^21.
    pub fn payment(&self, i: u32, j: u32) -> u128
        requires low_voter { 1 ≤ i }
        requires high_voter { i ≤ length (self.now).payments }
        requires low_project { 1 ≤ j }
        requires high_project { j ≤ (self.now).projects }
        ensures value { result ≡ spec.payment self.now i j }
        ensures high { result ≤ most_numerator }
    {
        let payments = self.payments_of(i);
        match payments.binary_search_by_key(&j, |payment| payment.0) {
            Ok(place) => payments[place].1,
            Err(_) => 0,
        }
    }

    /// What voter i, from 1, pays: the projects, rising, each with the numerator, which is not 0.
    pub fn payments_of(&self, i: u32) -> &[(u32, u128)]
        requires low { 1 ≤ i }
        requires high { i ≤ length (self.now).payments }
        ensures value { result.now ≡ spec.payments_of self.now i }
        ensures map { IsPaymentMap (self.now).projects result.now }
    {
        self.payments.get(i as usize - 1)
    }

    /// Whether these prices are for as many voters and projects as the election has.
    pub fn fits(&self, election: &Election) -> bool
        ensures { IsTrue result ↔ PricesFit self.now election.now }
    {
        self.payments.len() == election.voters() as usize && self.projects == election.projects()
    }
}
