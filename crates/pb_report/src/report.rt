//! What is found of an election with its outcome.
ghost use Rattle.std.specs.Prelude.{◌≡◌, ◌++◌, OnOk, map, string_bytes};
ghost use Rattle.pb_report.specs.CanBeTold.{CanBeReported};
ghost use Rattle.pb_report.specs.Found as spec;

use crate::certificate::CertificateFound;
use crate::group::GroupFound;
use crate::groups::GroupsFound;
use crate::prices::PricesFound;
use pb_election::Election;
use pb_reply::{Status, Unmet};
use std::alloc::{AllocError, Global};

/// What is found of an election with its outcome. Voters and projects are told by their numbers, from 1.
#[derive(Drop)]
pub enum Report {
    /// Of a certificate.
    Certificate(CertificateFound),
    /// Of all groups of voters.
    Groups(GroupsFound),
    /// Of a price certificate, and of a violation certificate beside it.
    Both(PricesFound, GroupFound),
}

impl Report {
    /// Adds the line of each verdict. An error means out of memory.
    pub fn push_lines(
        &self,
        alloc: Global,
        lines: &mut Vec<String>,
        election: &Election,
    ) -> Result<(), AllocError>
        requires { CanBeReported election.now self.now }
        ensures { OnOk result (map string_bytes lines.new.items ≡ map string_bytes lines.old.items ++ spec.verdict_lines election.now self.now) }
    {
        match self {
            Report::Certificate(certificate) => lines.push(certificate.line(alloc, election)?)?,
            Report::Groups(groups) => lines.push(groups.line(alloc, election)?)?,
            Report::Both(prices, group) => {
                lines.push(prices.line(alloc, election)?)?;
                lines.push(group.line(alloc, election)?)?;
            }
        }
        Ok(())
    }

    /// Yes, or what fails first; of both certificates, yes where both are.
    pub fn status(&self) -> Status
        ensures { result ≡ spec.status_of self.now }
    {
        match self {
            Report::Certificate(certificate) => certificate.status(),
            Report::Groups(groups) => groups.status(),
            Report::Both(prices, group) => yes_where_both(prices.status(), group.status()),
        }
    }
}

/// Yes where both are a yes, and else the first that is not; where neither is, what fails first of each.
fn yes_where_both(first: Status, second: Status) -> Status
    ensures { result ≡ spec.yes_where_both first second }
{
    match (first, second) {
        (Status::Yes, second) => second,
        (Status::No(Unmet::Prices(failure)), Status::No(Unmet::Violation(other))) => {
            Status::No(Unmet::Both(failure, other))
        }
        (first, _) => first,
    }
}
