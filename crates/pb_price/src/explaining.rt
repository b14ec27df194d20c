//! What each condition on a price system comes to, read off the sums of its payments, in one pass over the projects
//! behind the one that adds up what the funded ones cost.

ghost use Rattle.std.specs.Prelude.{◌≡◌, ◌≤◌, ◌+◌, ◌*◌, ◌^◌, ◌⊎◌, ℕ, IfErr, IfOk, MatchResult, length};
ghost use Rattle.pb_election.specs.Instance.{IsProject, most_voters, projects};
ghost use Rattle.pb_election.specs.Outcome.{OutcomeFits, most_total};
ghost use Rattle.pb_certificate.specs.Faults.{Refuses, certificate_records, no_memory, price_form};
ghost use Rattle.pb_certificate.specs.Prices.Text.{IsPriceText};
ghost use Rattle.pb_certificate.specs.Prices as spec;
ghost use Rattle.pb_certificate.specs.Prices.{most_denominator};
ghost use Rattle.pb_cohesion.specs.Outcome.{total};
ghost use Rattle.pb_price.specs.Findings.{findings};
ghost use Rattle.pb_price.specs.Inside.Looked.{AreFoundTo, AreSmallFindings, with_funded, with_unfunded};
ghost use Rattle.pb_price.specs.Inside.Tallies.{AreInRange, IsTallyOf, IsWithin, most_grains, sums_of};

use crate::noting::NOTHING_FOUND;
use crate::tally::{ProjectSums, Tally};
use crate::tallying::take_certificate;
use crate::{Comparison, Finding, Findings};
use pb_certificate::CertRefusal;
use pb_election::{Election, Outcome};
use pb_money::cost_grains;
use std::alloc::Global;

/// What each condition comes to by the prices that the bytes of a price certificate state, in one pass over the
/// certificate that keeps no table of its payments. The outcome is to fit the election. A refusal is that of
/// `Prices::read`.
pub fn findings_of(
    alloc: Global,
    election: &Election,
    outcome: &Outcome,
    bytes: &[u8],
) -> Result<Findings, CertRefusal>
    requires { OutcomeFits outcome.now election.now }

    // The bytes state prices, and the findings are those on them.
    ensures found { IfOk result (λ f. (p : spec.Prices) × IsPriceText (certificate_records bytes.now) election.now p × (f ≡ findings election.now (outcome.now).marks p)) }

    // A refusal is the first fault, or out of memory.
    ensures refused { IfErr result (λ r. (r ≡ no_memory) ⊎ Refuses (price_form election.now) bytes.now r) }

    // Where the bytes state prices the findings are those on them, memory aside.
    ensures only { (p : spec.Prices) → IsPriceText (certificate_records bytes.now) election.now p → MatchResult result (λ f. f ≡ findings election.now (outcome.now).marks p) (λ r. r ≡ no_memory) }
{
    let taken = take_certificate(alloc, election, bytes)?;
    let mut steps = 0;
    Ok(findings_by(
        election,
        outcome,
        taken.denominator,
        &taken.tally,
        &mut steps,
    ))
}

/// The findings by the tally of all payments, which are over this denominator.
pub(crate) fn findings_by(
    election: &Election,
    outcome: &Outcome,
    denominator: u32,
    tally: &Tally,
    steps: &mut u64,
) -> Findings
    requires outcome { OutcomeFits outcome.now election.now }
    requires low { 1 ≤ denominator }
    requires high { denominator ≤ most_denominator }
    requires budget { (tally.now).budget ≤ most_grains }
    requires sums { length (tally.now).projects.items ≡ projects election.now }
    requires small { (c : ℕ) → IsProject election.now c → AreInRange (sums_of (tally.now).projects.items c) }
    requires steps { steps.old ≤ 2 ^ 62 }
    ensures found { (p : spec.Prices) → p.denominator ≡ denominator → IsTallyOf election.now p tally.now → result ≡ findings election.now (outcome.now).marks p }
    ensures steps { steps.new ≡ steps.old + 2 * projects election.now }
{
    let total = cost_of_funded(election, outcome, steps) * u128::from(denominator);
    let limit = cost_grains(election.limit(), denominator);
    let remaining = limit as i128 - total as i128;
    let sums = &tally.projects;
    let of_projects = project_findings(election, outcome, denominator, remaining, sums, steps);
    Findings {
        grains_per_unit: 1_000_000 * u64::from(denominator),
        total,
        limit,
        voter_budget: tally.budget,
        budgets: u128::from(election.voters()) * tally.budget,
        exhaustive: of_projects.exhaustive,
        c1: tally.unapproved,
        c2: tally.over_budget,
        c3: of_projects.c3,
        c4: of_projects.c4,
        c5: of_projects.c5,
        s5: of_projects.s5,
    }
}

// What the funded projects cost together, in millionths.
fn cost_of_funded(election: &Election, outcome: &Outcome, steps: &mut u64) -> u128
    requires outcome { OutcomeFits outcome.now election.now }
    requires steps { steps.old ≤ 2 ^ 62 }
    ensures value { result ≡ total election.now (outcome.now).marks }
    ensures small { result ≤ most_total }
    ensures steps { steps.new ≡ steps.old + projects election.now }
{
    let mut cost = 0;
    for k in 0..election.projects() {
        *steps += 1;
        if outcome.has(k + 1) {
            cost += u128::from(election.cost(k + 1).millionths());
        }
    }
    cost
}

// The findings on projects, as far as these were looked at.
#[derive(Clone, Copy)]
struct ProjectFindings {
    exhaustive: Finding,
    c3: Finding,
    c4: Finding,
    c5: Finding,
    s5: Finding,
}

// The findings on all projects, by their sums, where so much remains of the limit.
fn project_findings(
    election: &Election,
    outcome: &Outcome,
    denominator: u32,
    remaining: i128,
    sums: &[ProjectSums],
    steps: &mut u64,
) -> ProjectFindings
    requires outcome { OutcomeFits outcome.now election.now }
    requires low { 1 ≤ denominator }
    requires high { denominator ≤ most_denominator }
    requires remaining { IsWithin (10 ^ 38) remaining }
    requires sums { length sums.now ≡ projects election.now }
    requires small { (c : ℕ) → IsProject election.now c → AreInRange (sums_of sums.now c) }
    requires steps { steps.old ≤ 2 ^ 62 + projects election.now }
    ensures found { AreFoundTo (projects election.now) election.now (outcome.now).marks denominator remaining sums.now result }
    ensures steps { steps.new ≡ steps.old + projects election.now }
{
    let mut findings = ProjectFindings {
        exhaustive: NOTHING_FOUND,
        c3: NOTHING_FOUND,
        c4: NOTHING_FOUND,
        c5: NOTHING_FOUND,
        s5: NOTHING_FOUND,
    };
    for k in 0..election.projects() {
        let j = k + 1;
        *steps += 1;
        let of_project = sums[k as usize];
        let cost = cost_grains(election.cost(j), denominator);
        if outcome.has(j) {
            findings.look_at_funded(j, cost, of_project.paid);
        } else {
            findings.look_at_unfunded(j, cost, remaining, of_project);
        }
    }
    findings
}

impl ProjectFindings {
    // Looks at a funded project.
    fn look_at_funded(&mut self, j: u32, cost: u128, paid: u128)
        requires known { AreSmallFindings most_voters self.old }
        requires cost { cost ≤ 10 ^ 34 }
        requires paid { paid ≤ 10 ^ 34 }
        ensures { self.new ≡ with_funded j cost paid self.old }
    {
        if paid != cost {
            let compared = Comparison {
                at: j,
                bound: cost,
                amount: paid as i128,
            };
            self.c3.note(true, compared);
        }
    }

    // Looks at an unfunded project.
    fn look_at_unfunded(&mut self, j: u32, cost: u128, remaining: i128, sums: ProjectSums)
        requires known { AreSmallFindings most_voters self.old }
        requires cost { cost ≤ 10 ^ 34 }
        requires remaining { IsWithin (10 ^ 38) remaining }
        requires sums { AreInRange sums }
        ensures { self.new ≡ with_unfunded j cost remaining sums self.old }
    {
        let of_cost = Comparison {
            at: j,
            bound: cost,
            amount: remaining,
        };
        let cost = cost as i128;
        self.exhaustive.note(cost <= remaining, of_cost);
        if sums.paid != 0 {
            let in_vain = Comparison {
                at: j,
                bound: 0,
                amount: sums.paid as i128,
            };
            self.c4.note(true, in_vain);
        }
        let left = Comparison {
            amount: sums.left,
            ..of_cost
        };
        self.c5.note(cost < sums.left, left);
        let offer = Comparison {
            amount: sums.offer,
            ..of_cost
        };
        self.s5.note(cost < sums.offer, offer);
    }
}
