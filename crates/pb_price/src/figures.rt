//! The figures of each project by a price certificate, as a table shows them: what it costs, what is paid for it, and
//! what its supporters have left and can offer. Amounts are in grains: a grain is 1/(10^6 D) of the currency, where D
//! is the denominator.

ghost use Rattle.std.specs.Prelude.{◌≡◌, ◌≤◌, ◌⊎◌, IfErr, IfOk, MatchResult, length, map};
ghost use Rattle.pb_election.specs.Instance.{all_projects, projects};
ghost use Rattle.pb_election.specs.Outcome.{OutcomeFits};
ghost use Rattle.pb_certificate.specs.Faults.{Refuses, certificate_records, no_memory, price_form};
ghost use Rattle.pb_certificate.specs.Prices.Text.{IsPriceText};
ghost use Rattle.pb_certificate.specs.Prices as spec;
ghost use Rattle.pb_certificate.specs.Prices.{most_denominator};
ghost use Rattle.pb_price.specs.Findings.{findings};
ghost use Rattle.pb_price.specs.Margins.{AreMargins};
ghost use Rattle.pb_price.specs.Inside.Tallies.{IsTallyOf, figures_of};

use crate::explaining::findings_by;
use crate::tally::ProjectSums;
use crate::tallying::{CertificateTally, take_certificate};
use crate::{Findings, Margins, ProjectMargins};
use pb_certificate::CertRefusal;
use pb_election::{Election, Outcome};
use pb_money::cost_grains;
use std::alloc::{AllocError, Global};

/// The figures of each project by the prices that the bytes of a price certificate state, in one pass over the
/// certificate that keeps no table of its payments. The outcome is to fit the election. A refusal is that of
/// `Prices::read`.
pub fn margins_of(
    alloc: Global,
    election: &Election,
    outcome: &Outcome,
    bytes: &[u8],
) -> Result<Margins, CertRefusal>
    requires { OutcomeFits outcome.now election.now }

    // The bytes state prices, and the figures are those by them.
    ensures found { IfOk result (λ m. (p : spec.Prices) × IsPriceText (certificate_records bytes.now) election.now p × AreMargins election.now (outcome.now).marks p m) }

    // A refusal is the first fault, or out of memory.
    ensures refused { IfErr result (λ r. (r ≡ no_memory) ⊎ Refuses (price_form election.now) bytes.now r) }

    // Where the bytes state prices the figures are those by them, memory aside.
    ensures only { (p : spec.Prices) → IsPriceText (certificate_records bytes.now) election.now p → MatchResult result (λ m. AreMargins election.now (outcome.now).marks p m) (λ r. r ≡ no_memory) }
{
    let taken = take_certificate(alloc, election, bytes)?;
    margins_in(alloc, election, outcome, &taken)
}

/// The findings of `findings_of` and the figures of `margins_of`, in one pass over the certificate for both. The
/// outcome is to fit the election. A refusal is that of `Prices::read`.
pub fn findings_and_margins_of(
    alloc: Global,
    election: &Election,
    outcome: &Outcome,
    bytes: &[u8],
) -> Result<(Findings, Margins), CertRefusal>
    requires { OutcomeFits outcome.now election.now }

    // The bytes state prices, and the findings and the figures are those by them.
    ensures found { IfOk result (λ both. (p : spec.Prices) × IsPriceText (certificate_records bytes.now) election.now p × (both.0 ≡ findings election.now (outcome.now).marks p) × AreMargins election.now (outcome.now).marks p both.1) }

    // A refusal is the first fault, or out of memory.
    ensures refused { IfErr result (λ r. (r ≡ no_memory) ⊎ Refuses (price_form election.now) bytes.now r) }

    // Where the bytes state prices the findings and the figures are those by them, memory aside.
    ensures only { (p : spec.Prices) → IsPriceText (certificate_records bytes.now) election.now p → MatchResult result (λ both. (both.0 ≡ findings election.now (outcome.now).marks p) × AreMargins election.now (outcome.now).marks p both.1) (λ r. r ≡ no_memory) }
{
    let taken = take_certificate(alloc, election, bytes)?;
    let margins = margins_in(alloc, election, outcome, &taken)?;
    let mut steps = 0;
    let findings = findings_by(
        election,
        outcome,
        taken.denominator,
        &taken.tally,
        &mut steps,
    );
    Ok((findings, margins))
}

// The figures by the tally of all rows of a certificate. A refusal means out of memory.
fn margins_in(
    alloc: Global,
    election: &Election,
    outcome: &Outcome,
    taken: &CertificateTally,
) -> Result<Margins, CertRefusal>
    requires outcome { OutcomeFits outcome.now election.now }
    requires low { 1 ≤ (taken.now).denominator }
    requires high { (taken.now).denominator ≤ most_denominator }
    requires sums { length (taken.now).tally.projects.items ≡ projects election.now }
    ensures found { IfOk result (λ m. (p : spec.Prices) → p.denominator ≡ (taken.now).denominator → IsTallyOf election.now p (taken.now).tally → AreMargins election.now (outcome.now).marks p m) }
    ensures memory { IfErr result (λ r. r ≡ no_memory) }
{
    let grains_per_unit = 1_000_000 * u64::from(taken.denominator);
    let sums = &taken.tally.projects;
    let projects = margins_by(alloc, election, outcome, taken.denominator, sums)?;
    Ok(Margins {
        grains_per_unit,
        projects,
    })
}

// The figures of the projects, read off the sums of all payments, which are over this denominator.
fn margins_by(
    alloc: Global,
    election: &Election,
    outcome: &Outcome,
    denominator: u32,
    sums: &[ProjectSums],
) -> Result<Vec<ProjectMargins>, AllocError>
    requires outcome { OutcomeFits outcome.now election.now }
    requires low { 1 ≤ denominator }
    requires high { denominator ≤ most_denominator }
    requires sums { length sums.now ≡ projects election.now }
    ensures { IfOk result (λ m. m.items ≡ map (figures_of election.now (outcome.now).marks denominator sums.now) (all_projects election.now)) }
{
    let mut margins = Vec::new(alloc);
    for k in 0..election.projects() {
        let of_project = sums[k as usize];
        margins.push(ProjectMargins {
            funded: outcome.has(k + 1),
            supporters: of_project.supporters,
            cost: cost_grains(election.cost(k + 1), denominator),
            paid: of_project.paid,
            left: of_project.left,
            offer: of_project.offer,
        })?;
    }
    Ok(margins)
}
