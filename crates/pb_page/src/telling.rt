//! What is told of a certificate.
ghost use Rattle.std.specs.Prelude.{◌≡◌, IfOk, List, map, ℕ};
ghost use Rattle.pb_records.specs.Loading as delivery;
ghost use Rattle.pb_election.specs.Instance.{all_projects, cost_of};
ghost use Rattle.pb_reply.specs.Inside.Loaded.{lent};
ghost use Rattle.pb_reply.specs.Inside.Taking.{IfTaken};
ghost use Rattle.pb_report.specs.CanBeTold.{CertificateCanBeTold};
ghost use Rattle.pb_page.specs.Taken as spec;
ghost use Rattle.pb_page.specs.Taken.{AreFiguresOf, AreGroupFigures, ArePriceFigures, AreWeightFigures, TellsCertificate, TellsFound};

use pb_case::shown_line;
use pb_cohesion::cost_of_funded;
use pb_election::{DecidedElection, Election};
use pb_figures::{
    CertificateFigures, PriceFigures, RefutationFigures, Style, Told, ViolationFigures, extremes_of,
};
use pb_price::{Mode, NearestGroup};
use pb_reply::{File, Status, Unanswered};
use pb_report::{CertificateFound, GroupFound, PricesFound, WeightsFound, certificate_in};
use std::alloc::{AllocError, Global};

/// What a page tells, and how its answer ends.
#[derive(Drop)]
pub(crate) struct PageTold {
    pub(crate) told: Told,
    /// The group that comes nearest to what a yes to prices says of groups.
    pub(crate) nearest: Option<NearestGroup>,
    pub(crate) status: Status,
}

/// What is told of a certificate of any kind.
pub(crate) fn told_of(
    alloc: Global,
    decided: &DecidedElection,
    certificate: File<'_>,
    mode: Mode,
    style: Style,
) -> Result<PageTold, Unanswered>
    ensures told { IfTaken result (TellsCertificate mode (decided.now).election (decided.now).outcome.marks (lent certificate.entry)) }
    ensures style { IfOk result (λ t. t.told.style ≡ style) }
{
    let found = certificate_in(alloc, decided, certificate, mode)?;
    Ok(told_by(alloc, decided, certificate, mode, style, found)?)
}

// What is told of what was found.
fn told_by(
    alloc: Global,
    decided: &DecidedElection,
    certificate: File<'_>,
    mode: Mode,
    style: Style,
    found: CertificateFound,
) -> Result<PageTold, AllocError>
    requires { CertificateCanBeTold (decided.now).election found }
    ensures told { IfOk result (TellsFound mode (decided.now).election (decided.now).outcome.marks found) }
    ensures style { IfOk result (λ t. t.told.style ≡ style) }
{
    let line = shown_line(alloc, &found.line(alloc, decided.election())?)?;
    let nearest = nearest_in(&found);
    let status = found.status();
    Ok(PageTold {
        told: Told {
            style,
            mode,
            line,
            found: figures_of(alloc, decided, certificate, found)?,
        },
        nearest,
        status,
    })
}

// The group that comes nearest to what a yes to prices says of groups.
fn nearest_in(found: &CertificateFound) -> Option<NearestGroup>
    ensures { result ≡ spec.nearest_in found.now }
{
    match found {
        CertificateFound::Prices(prices) => prices.nearest,
        CertificateFound::Group(_) | CertificateFound::Weights(_) => None,
    }
}

// The figures of what was found of a certificate.
fn figures_of(
    alloc: Global,
    decided: &DecidedElection,
    certificate: File<'_>,
    found: CertificateFound,
) -> Result<CertificateFigures, AllocError>
    ensures { IfOk result (AreFiguresOf (decided.now).election (decided.now).outcome.marks found) }
{
    match found {
        CertificateFound::Prices(prices) => {
            let figures = price_figures(alloc, decided.election(), certificate, prices)?;
            Ok(CertificateFigures::Prices(figures))
        }
        CertificateFound::Group(group) => {
            let figures = group_figures(alloc, decided, group)?;
            Ok(CertificateFigures::Violation(figures))
        }
        CertificateFound::Weights(weights) => {
            let figures = weight_figures(alloc, decided, weights)?;
            Ok(CertificateFigures::Refutation(figures))
        }
    }
}

// The figures of prices.
fn price_figures(
    alloc: Global,
    election: &Election,
    certificate: File<'_>,
    prices: PricesFound,
) -> Result<PriceFigures, AllocError>
    ensures { IfOk result (ArePriceFigures prices) }
{
    let extremes = extremes_of(alloc, election, bytes_in(certificate), &prices.findings)?;
    Ok(PriceFigures {
        findings: prices.findings,
        margins: prices.margins,
        extremes,
    })
}

// The bytes of a certificate of which something was found, which are there.
fn bytes_in(certificate: File<'_>) -> &[u8]
    ensures { (bytes : List ℕ) → lent certificate.entry ≡ delivery.Bytes bytes → result.now ≡ bytes }
{
    match certificate {
        File::Bytes(bytes) => bytes,
        File::Unread | File::TooLong => &[],
    }
}

// The figures of a group and its demand.
fn group_figures(
    alloc: Global,
    decided: &DecidedElection,
    group: GroupFound,
) -> Result<ViolationFigures, AllocError>
    ensures { IfOk result (AreGroupFigures (decided.now).election (decided.now).outcome.marks group) }
{
    let (election, outcome) = (decided.election(), decided.outcome());
    let costs = costs_of(alloc, election)?;
    Ok(ViolationFigures {
        verdict: group.verdict,
        violation: group.violation,
        findings: group.findings,
        costs,
        limit: election.limit().millionths(),
        funded: cost_of_funded(election, outcome),
        voters: election.voters(),
    })
}

// The figures of weights.
fn weight_figures(
    alloc: Global,
    decided: &DecidedElection,
    weights: WeightsFound,
) -> Result<RefutationFigures, AllocError>
    ensures { IfOk result (AreWeightFigures (decided.now).election (decided.now).outcome.marks weights) }
{
    let (election, outcome) = (decided.election(), decided.outcome());
    let costs = costs_of(alloc, election)?;
    Ok(RefutationFigures {
        verdict: weights.verdict,
        refutation: weights.refutation,
        findings: weights.findings,
        costs,
        limit: election.limit().millionths(),
        funded: cost_of_funded(election, outcome),
    })
}

/// What each project costs, in millionths.
pub(crate) fn costs_of(alloc: Global, election: &Election) -> Result<Vec<u64>, AllocError>
    ensures { IfOk result (λ costs. costs.items ≡ map (cost_of election.now) (all_projects election.now)) }
{
    let mut costs = Vec::new(alloc);
    for k in 0..election.projects() {
        costs.push(election.cost(k + 1).millionths())?;
    }
    Ok(costs)
}
