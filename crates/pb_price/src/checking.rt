//! The verdict on a price system.

ghost use Rattle.std.specs.Prelude.{◌≡◌, ◌≤◌, ◌+◌, ◌*◌, ◌^◌, ◌↔◌, ◌⊎◌, ℕ, length, IfErr, IfOk, MatchResult, Ok};
ghost use Rattle.pb_election.specs.Instance.{IsProject, projects};
ghost use Rattle.pb_election.specs.Outcome.{OutcomeFits};
ghost use Rattle.pb_certificate.specs.Faults.{Refuses, certificate_records, no_memory, price_form};
ghost use Rattle.pb_certificate.specs.Prices as spec;
ghost use Rattle.pb_certificate.specs.Prices.Text.{IsPriceText};
ghost use Rattle.pb_certificate.specs.Prices.{PricesFit, most_denominator};
ghost use Rattle.pb_cohesion.specs.EveryGroup.{SupportersBlock, SupportersHaveMoreLeft};
ghost use Rattle.pb_price.specs.Answers.{AreStepsOf, IsVerdictOn, row_count};
ghost use Rattle.pb_price.specs.Promises.{YesPromises};
ghost use Rattle.pb_price.specs.Supports.{Supports};
ghost use Rattle.pb_price.specs.First.{First, verdict_of};
ghost use Rattle.pb_price.specs.Inside.Tallies.{AreInRange, IsTallyOf, most_grains, sums_of};

use crate::explaining::findings_by;
use crate::open_tally::OpenTally;
use crate::tally::Tally;
use crate::tallying::{take_certificate, take_prices};
use crate::{Checked, Failure, Mode, Verdict};
use pb_certificate::{CertRefusal, Prices};
use pb_election::{Election, Outcome};
use pb_money::payment_grains;
use std::alloc::{AllocError, Global};

/// Whether the prices support the outcome by the conditions of the mode, or else the first condition that is false,
/// with its first culprit. The costs are those of this election. The outcome and the prices are to fit it. An error
/// means out of memory. It comes only after a failed allocation, which is tested and not proved.
pub fn check(
    alloc: Global,
    election: &Election,
    outcome: &Outcome,
    prices: &Prices,
    mode: Mode,
) -> Result<Verdict, AllocError>
    requires outcome { OutcomeFits outcome.now election.now }
    requires prices { PricesFit prices.now election.now }
    ensures first { IfOk result (λ v. v ≡ verdict_of (First mode election.now (outcome.now).marks prices.now)) }
    ensures supported { IfOk result (λ v. (v ≡ Verdict.Supported) ↔ Supports mode election.now (outcome.now).marks prices.now) }

    // What a yes says of every group and of every refutation.
    ensures yes { result ≡ Ok Verdict.Supported → YesPromises mode election.now (outcome.now).marks prices.now }

    // What a no by the last condition says of the supporters of the project that it names.
    ensures plain_no { (c : ℕ) → result ≡ Ok (Verdict.Failed (Failure.C5 c)) → SupportersHaveMoreLeft election.now prices.now c }
    ensures stable_no { (c : ℕ) → result ≡ Ok (Verdict.Failed (Failure.S5 c)) → SupportersBlock election.now (outcome.now).marks prices.now c }
{
    let budget = payment_grains(prices.budget());
    let mut so_far = OpenTally::new(alloc, election, budget)?;
    take_prices(&mut so_far, election, prices);
    so_far.finish(election);
    let checked = judge(election, outcome, mode, prices.denominator(), &so_far.tally);
    Ok(checked.verdict)
}

/// Whether the prices that the bytes of a price certificate state support the outcome, as `check` answers for them, in
/// one pass over the certificate that keeps no table of its payments. The outcome is to fit the election. A refusal is
/// that of `Prices::read`, and comes before any verdict: the last row is refused though a condition failed at the
/// first.
pub fn check_rows(
    alloc: Global,
    election: &Election,
    outcome: &Outcome,
    bytes: &[u8],
    mode: Mode,
) -> Result<Checked, CertRefusal>
    requires { OutcomeFits outcome.now election.now }

    // The bytes state prices, and the verdict is the one on them.
    ensures found { IfOk result (λ a. (p : spec.Prices) × IsPriceText (certificate_records bytes.now) election.now p × IsVerdictOn mode election.now (outcome.now).marks p a.verdict) }

    // The steps are at least one for each row and each voter, and at most so many for rows, approvals, voters and
    // projects.
    ensures steps { IfOk result (λ a. AreStepsOf election.now (row_count bytes.now) a.steps) }

    // A refusal is the first fault, or out of memory.
    ensures refused { IfErr result (λ r. (r ≡ no_memory) ⊎ Refuses (price_form election.now) bytes.now r) }

    // Where the bytes state prices the verdict is the one on those, memory aside.
    ensures only { (p : spec.Prices) → IsPriceText (certificate_records bytes.now) election.now p → MatchResult result (λ a. IsVerdictOn mode election.now (outcome.now).marks p a.verdict) (λ r. r ≡ no_memory) }
{
    let taken = take_certificate(alloc, election, bytes)?;
    Ok(judge(election, outcome, mode, taken.denominator, &taken.tally))
}

// The verdict by the tally of all payments, which are over this denominator.
fn judge(
    election: &Election,
    outcome: &Outcome,
    mode: Mode,
    denominator: u32,
    tally: &Tally,
) -> Checked
    requires outcome { OutcomeFits outcome.now election.now }
    requires low { 1 ≤ denominator }
    requires high { denominator ≤ most_denominator }
    requires budget { (tally.now).budget ≤ most_grains }
    requires sums { length (tally.now).projects.items ≡ projects election.now }
    requires small { (c : ℕ) → IsProject election.now c → AreInRange (sums_of (tally.now).projects.items c) }
    requires steps { (tally.now).steps ≤ 2 ^ 62 }
    ensures verdict { (p : spec.Prices) → p.denominator ≡ denominator → IsTallyOf election.now p tally.now → result.verdict ≡ verdict_of (First mode election.now (outcome.now).marks p) }
    ensures steps { result.steps ≡ (tally.now).steps + 2 * projects election.now }
{
    let mut steps = tally.steps;
    let findings = findings_by(election, outcome, denominator, tally, &mut steps);
    Checked {
        verdict: findings.verdict(mode),
        steps,
    }
}
