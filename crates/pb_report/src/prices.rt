//! What is found of prices: what each condition comes to, and the figures of each project.
ghost use Rattle.std.specs.Prelude.{◌≡◌, ◌<◌, IfOk, IfSome, None, string_bytes};
ghost use Rattle.pb_election.specs.Instance.{IsProject, voters};
ghost use Rattle.pb_report.specs.CanBeTold.{PricesCanBeTold};
ghost use Rattle.pb_report.specs.Found as spec;
ghost use Rattle.pb_report.specs.Found.{FindsExplainedPrices, FindsPrices};
ghost use Rattle.pb_reply.specs.Inside.Loaded.{lent};
ghost use Rattle.pb_reply.specs.Inside.Taking.{IfTaken};
ghost use Rattle.pb_reply.specs.Lines.{price_line};
ghost use Rattle.pb_reply.specs.Replies.{price_status};

use pb_election::{DecidedElection, Election};
use pb_input::InputName;
use pb_price::{
    Findings, Margins, Mode, NearestGroup, OnGroups, Verdict, findings_and_margins_of, nearest_to,
};
use pb_reply::{File, Status, Unanswered, bytes_of, price_line, price_status, taken_as};
use std::alloc::{AllocError, Global};

/// What is found of prices, in a mode: Peters, Pierczyński and Skowron (2021) define the conditions.
#[derive(Drop)]
pub struct PricesFound {
    pub mode: Mode,
    /// What each condition comes to.
    pub findings: Findings,
    /// The figures of each project.
    pub margins: Margins,
    /// The group that comes nearest to what a yes says of groups, where it was looked for.
    pub nearest: Option<NearestGroup>,
}

impl PricesFound {
    /// The verdict.
    pub fn verdict(&self) -> Verdict
        ensures { result ≡ spec.price_verdict self.now }
    {
        self.findings.verdict(self.mode)
    }

    /// What a yes says of groups.
    pub fn on_groups(&self) -> OnGroups
        ensures { result ≡ spec.on_groups_by self.now }
    {
        self.findings.on_groups(self.mode)
    }

    /// The line of the verdict. An error means out of memory.
    pub fn line(&self, alloc: Global, election: &Election) -> Result<String, AllocError>
        requires { PricesCanBeTold election.now self.now }
        ensures { IfOk result (λ line. string_bytes line ≡ price_line (self.now).mode.stable election.now (spec.price_verdict self.now)) }
    {
        price_line(alloc, election, self.verdict(), self.mode.stable)
    }

    /// Yes, or the condition that fails first.
    pub fn status(&self) -> Status
        ensures { result ≡ price_status (spec.price_verdict self.now) }
    {
        price_status(self.verdict())
    }
}

/// What is found of the prices that a certificate states, as the input of this name. The nearest group isn't looked for.
pub fn prices_in(
    alloc: Global,
    decided: &DecidedElection,
    input: InputName,
    certificate: File<'_>,
    mode: Mode,
) -> Result<PricesFound, Unanswered>
    // What the certificate states are prices, and this is found of them; or why it is refused.
    ensures taken { IfTaken result (FindsPrices input mode (decided.now).election (decided.now).outcome.marks (lent certificate.entry)) }

    // The projects that it names are those of the election.
    ensures told { IfOk result (PricesCanBeTold (decided.now).election) }
    ensures nearest { IfOk result (λ prices. prices.nearest ≡ None) }
{
    let bytes = bytes_of(input, certificate)?;
    let read = findings_and_margins_of(alloc, decided.election(), decided.outcome(), bytes);
    let (findings, margins) = taken_as(input, read)?;
    Ok(PricesFound {
        mode,
        findings,
        margins,
        nearest: None,
    })
}

/// What is found of the prices that a certificate states, and where they are a yes the group that comes nearest to what
/// that says of groups.
pub fn explained_prices_in(
    alloc: Global,
    decided: &DecidedElection,
    certificate: File<'_>,
    mode: Mode,
) -> Result<PricesFound, Unanswered>
    ensures taken { IfTaken result (FindsExplainedPrices mode (decided.now).election (decided.now).outcome.marks (lent certificate.entry)) }
    ensures told { IfOk result (PricesCanBeTold (decided.now).election) }
{
    let prices = prices_in(alloc, decided, InputName::Certificate, certificate, mode)?;
    let nearest = nearest_on_yes(alloc, decided, &prices)?;
    Ok(PricesFound { nearest, ..prices })
}

/// The group that comes nearest to what a yes says of groups.
fn nearest_on_yes(
    alloc: Global,
    decided: &DecidedElection,
    prices: &PricesFound,
) -> Result<Option<NearestGroup>, AllocError>
    ensures found { IfOk result (λ nearest. nearest ≡ spec.nearest_by (decided.now).election (decided.now).outcome.marks prices.now) }
    ensures project { IfOk result (λ nearest. IfSome nearest (λ g. IsProject (decided.now).election g.project)) }
    ensures voters { IfOk result (λ nearest. IfSome nearest (λ _. 0 < voters (decided.now).election)) }
{
    match prices.verdict() {
        Verdict::Supported => {
            let said = prices.on_groups();
            nearest_to(alloc, decided.election(), decided.outcome(), said)
        }
        Verdict::Failed(_) => Ok(None),
    }
}
