//! The JSON object of a report.
ghost use Rattle.std.specs.Prelude.{◌≡◌, IfOk};
ghost use Rattle.pb_audit.specs.Inside.Told as told;
ghost use Rattle.pb_audit.specs.Objects as spec;
ghost use Rattle.pb_report.specs.CanBeTold.{CanBeReported, CertificateCanBeTold, GroupCanBeTold, GroupsCanBeTold, PricesCanBeTold, WeightsCanBeTold};
ghost use Rattle.pb_report.specs.Found.{price_verdict};

use pb_election::{DecidedElection, Election};
use pb_json::{
    Object, both_json, group_margins_json, groups_json, margins_json, prices_json, read_json,
    refutation_json, violation_json,
};
use pb_price::Margins;
use pb_reply::Status;
use pb_report::{CertificateFound, GroupFound, GroupsFound, PricesFound, Report, WeightsFound};
use std::alloc::{AllocError, Global};

/// The object on an election that was read.
pub(crate) fn read_object(alloc: Global, election: &Election) -> Result<Object, AllocError>
    ensures { IfOk result (λ object. object ≡ spec.read_text election.now) }
{
    let object = read_json(alloc, election)?;
    Ok(Object::new(object))
}

/// The object of a report, which has the verdict, and what each condition or test comes to.
pub(crate) fn object_of(
    alloc: Global,
    decided: &DecidedElection,
    report: &Report,
) -> Result<Object, AllocError>
    requires { CanBeReported (decided.now).election report.now }
    ensures { IfOk result (λ object. object ≡ told.object_told (decided.now).election (decided.now).outcome.marks report.now) }
{
    match report {
        Report::Certificate(found) => certificate_object(alloc, decided, found),
        Report::Groups(groups) => groups_object(alloc, decided, groups),
        Report::Both(prices, group) => {
            let all = report.status() == Status::Yes;
            both_object(alloc, decided, prices, group, all)
        }
    }
}

/// The object on a certificate.
fn certificate_object(
    alloc: Global,
    decided: &DecidedElection,
    found: &CertificateFound,
) -> Result<Object, AllocError>
    requires { CertificateCanBeTold (decided.now).election found.now }
    ensures { IfOk result (λ object. object ≡ told.certificate_text (decided.now).election (decided.now).outcome.marks found.now) }
{
    match found {
        CertificateFound::Prices(prices) => price_object(alloc, decided, prices),
        CertificateFound::Group(group) => violation_object(alloc, decided, group),
        CertificateFound::Weights(weights) => refutation_object(alloc, decided, weights),
    }
}

/// The object on prices.
fn price_object(
    alloc: Global,
    decided: &DecidedElection,
    prices: &PricesFound,
) -> Result<Object, AllocError>
    requires { PricesCanBeTold (decided.now).election prices.now }
    ensures { IfOk result (λ object. object ≡ spec.price_text (prices.now).mode (decided.now).election (decided.now).outcome.marks (price_verdict prices.now) (prices.now).findings (prices.now).nearest) }
{
    let object = prices_json(
        alloc,
        prices.mode,
        decided,
        prices.verdict(),
        &prices.findings,
        prices.nearest,
    )?;
    Ok(Object::new(object))
}

/// The object on a group and its demand.
fn violation_object(
    alloc: Global,
    decided: &DecidedElection,
    group: &GroupFound,
) -> Result<Object, AllocError>
    requires { GroupCanBeTold (decided.now).election group.now }
    ensures { IfOk result (λ object. object ≡ spec.violation_text (group.now).violation.measure (decided.now).election (decided.now).outcome.marks (group.now).verdict (group.now).findings) }
{
    let object = violation_json(
        alloc,
        group.measure(),
        decided,
        group.verdict,
        &group.findings,
    )?;
    Ok(Object::new(object))
}

/// The object on weights.
fn refutation_object(
    alloc: Global,
    decided: &DecidedElection,
    weights: &WeightsFound,
) -> Result<Object, AllocError>
    requires { WeightsCanBeTold (decided.now).election weights.now }
    ensures { IfOk result (λ object. object ≡ spec.refutation_text (decided.now).election (decided.now).outcome.marks (weights.now).verdict (weights.now).findings) }
{
    let object = refutation_json(alloc, decided, weights.verdict, &weights.findings)?;
    Ok(Object::new(object))
}

/// The object on groups that fall short.
fn groups_object(
    alloc: Global,
    decided: &DecidedElection,
    groups: &GroupsFound,
) -> Result<Object, AllocError>
    requires { GroupsCanBeTold (decided.now).election groups.now }
    ensures { IfOk result (λ object. object ≡ spec.groups_text (groups.now).measure (decided.now).election (decided.now).outcome.marks (groups.now).figures.items) }
{
    let object = groups_json(alloc, groups.measure, decided, &groups.figures)?;
    Ok(Object::new(object))
}

/// The object on the margins of prices.
pub(crate) fn margins_object(
    alloc: Global,
    decided: &DecidedElection,
    margins: &Margins,
) -> Result<Object, AllocError>
    ensures { IfOk result (λ object. object ≡ spec.margins_text (decided.now).election (decided.now).outcome.marks (margins.now).grains_per_unit (margins.now).projects.items) }
{
    let object = margins_json(alloc, decided, margins)?;
    Ok(Object::new(object))
}

/// The object on the margins of groups.
pub(crate) fn group_margins_object(
    alloc: Global,
    decided: &DecidedElection,
    groups: &GroupsFound,
) -> Result<Object, AllocError>
    requires { GroupsCanBeTold (decided.now).election groups.now }
    ensures { IfOk result (λ object. object ≡ spec.group_margins_text (groups.now).measure (decided.now).election (decided.now).outcome.marks (groups.now).figures.items) }
{
    let object = group_margins_json(alloc, groups.measure, decided, &groups.figures)?;
    Ok(Object::new(object))
}

/// The object on prices and on a group and its demand, and whether both are a yes.
fn both_object(
    alloc: Global,
    decided: &DecidedElection,
    prices: &PricesFound,
    group: &GroupFound,
    all: bool,
) -> Result<Object, AllocError>
    requires prices { PricesCanBeTold (decided.now).election prices.now }
    requires group { GroupCanBeTold (decided.now).election group.now }
    ensures { IfOk result (λ object. object ≡ spec.both_text (prices.now).mode (decided.now).election (decided.now).outcome.marks (price_verdict prices.now) (prices.now).findings (group.now).violation.measure (group.now).verdict (group.now).findings all) }
{
    let verdict = prices.verdict();
    let on_prices = prices_json(alloc, prices.mode, decided, verdict, &prices.findings, None)?;
    let on_group = violation_json(
        alloc,
        group.measure(),
        decided,
        group.verdict,
        &group.findings,
    )?;
    Ok(Object::new(both_json(alloc, all, on_prices, on_group)?))
}
