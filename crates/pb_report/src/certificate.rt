//! What is found of a certificate of any kind.
ghost use Rattle.std.specs.Prelude.{◌≡◌, IfOk, string_bytes};
ghost use Rattle.pb_report.specs.CanBeTold.{CertificateCanBeTold};
ghost use Rattle.pb_report.specs.Found as spec;
ghost use Rattle.pb_report.specs.Found.{FindsAnyKind};
ghost use Rattle.pb_reply.specs.Inside.Loaded.{lent};
ghost use Rattle.pb_reply.specs.Inside.Taking.{IfTaken};

use crate::group::{GroupFound, group_in};
use crate::prices::{PricesFound, explained_prices_in};
use crate::weights::{WeightsFound, weights_in};
use pb_certificate::Kind;
use pb_election::{DecidedElection, Election};
use pb_input::InputName;
use pb_price::Mode;
use pb_reply::{File, Status, Unanswered, kind_in};
use std::alloc::{AllocError, Global};

/// What is found of a certificate.
#[derive(Drop)]
pub enum CertificateFound {
    /// Of a price certificate.
    Prices(PricesFound),
    /// Of a violation certificate.
    Group(GroupFound),
    /// Of a refutation.
    Weights(WeightsFound),
}

impl CertificateFound {
    /// The line of the verdict. An error means out of memory.
    pub fn line(&self, alloc: Global, election: &Election) -> Result<String, AllocError>
        requires { CertificateCanBeTold election.now self.now }
        ensures { IfOk result (λ line. string_bytes line ≡ spec.verdict_line election.now self.now) }
    {
        match self {
            CertificateFound::Prices(prices) => prices.line(alloc, election),
            CertificateFound::Group(group) => group.line(alloc, election),
            CertificateFound::Weights(weights) => weights.line(alloc, election),
        }
    }

    /// Yes, or what fails first.
    pub fn status(&self) -> Status
        ensures { result ≡ spec.certificate_ends self.now }
    {
        match self {
            CertificateFound::Prices(prices) => prices.status(),
            CertificateFound::Group(group) => group.status(),
            CertificateFound::Weights(weights) => weights.status(),
        }
    }
}

/// What is found of a certificate, in a mode. Where its first record that is not blank is the head of a violation
/// certificate or of a refutation, it is taken as one; any other is taken as prices. Of the mode it counts for a
/// refutation whether stable prices are asked about, and for a violation nothing. Of prices that are a yes the group is
/// looked for that comes nearest to what that says of groups.
pub fn certificate_in(
    alloc: Global,
    decided: &DecidedElection,
    certificate: File<'_>,
    mode: Mode,
) -> Result<CertificateFound, Unanswered>
    // What the certificate states is of this kind, and this is found of it; or why it is refused.
    ensures taken { IfTaken result (FindsAnyKind mode (decided.now).election (decided.now).outcome.marks (lent certificate.entry)) }

    // The projects that it names are those of the election.
    ensures told { IfOk result (CertificateCanBeTold (decided.now).election) }
{
    match kind_in(alloc, certificate)? {
        Kind::Prices => {
            let prices = explained_prices_in(alloc, decided, certificate, mode)?;
            Ok(CertificateFound::Prices(prices))
        }
        Kind::Violation => {
            let group = group_in(alloc, decided, InputName::Certificate, certificate)?;
            Ok(CertificateFound::Group(group))
        }
        Kind::Refutation => {
            let weights = weights_in(alloc, decided, certificate, mode.stable)?;
            Ok(CertificateFound::Weights(weights))
        }
    }
}
