//! What is found of the sample files, as values, worked out by hand.
ghost use Rattle.std.specs.Prelude.{◌≡◌, IfOk, Ok};

use pb_certificate::Measure;
use pb_cohesion::{
    GroupsVerdict, RefutationFailure, RefutationVerdict, ViolationFailure, ViolationVerdict,
};
use pb_election::DecidedElection;
use pb_input::InputName;
use pb_price::{Mode, OnGroups, Verdict};
use pb_reply::{File, Status, Unanswered, Unmet, decided_of, election_of};
use pb_report::{
    CertificateFound, Report, certificate_in, explained_prices_in, group_in, groups_in, prices_in,
    weights_in,
};
use pb_samples::files::{ELECTION, FAIR_VIOLATION, PRICES, REFUTATION, UNFAIR_ELECTION, VIOLATION};
use std::alloc::Global;
use std::test::Fail;

/// What was taken of a sample file, which isn't refused.
fn taken<T>(work: Result<T, Unanswered>) -> Result<T, Fail>
    ensures { IfOk result (λ own. work ≡ Ok own) }
{
    match work {
        Ok(taken) => Ok(taken),
        Err(_) => Err(Fail::new("a sample is refused")),
    }
}

/// An election with its own outcome.
fn decided(alloc: Global, election: &str) -> Result<DecidedElection, Fail> {
    let election = taken(election_of(alloc, File::in_memory(election.as_bytes())))?;
    taken(decided_of(alloc, election, None))
}

#[test]
fn finds_what_prices_come_to(rt: HostRuntime) -> Result<(), Fail> {
    let decided = decided(rt.alloc(), ELECTION)?;
    let file = File::in_memory(PRICES.as_bytes());
    let input = InputName::Certificate;
    let found = taken(prices_in(rt.alloc(), &decided, input, file, Mode::STABLE))?;
    assert_eq!(rt; found.verdict(), Verdict::Supported);
    assert_eq!(rt; found.status(), Status::Yes);
    assert!(rt; found.on_groups() == OnGroups::Strict);
    assert!(rt; found.nearest.is_none());
    let line = found.line(rt.alloc(), decided.election())?;
    assert!(rt; line.as_str() == "supported stable");

    // Voter 3 alone approves the pool for 9, and has 2 left, which is also the most that it pays.
    assert_eq!(rt; found.margins.projects.len(), 3);
    let pool = &found.margins.projects[2];
    assert!(rt; !pool.funded && pool.supporters == 1);
    assert!(rt; pool.cost == 9_000_000 && pool.paid == 0);
    assert!(rt; pool.left == 2_000_000 && pool.offer == 2_000_000);
    Ok(())
}

#[test]
fn finds_the_nearest_group_on_a_yes_alone(rt: HostRuntime) -> Result<(), Fail> {
    let file = File::in_memory(PRICES.as_bytes());
    let sample = decided(rt.alloc(), ELECTION)?;
    let found = taken(explained_prices_in(rt.alloc(), &sample, file, Mode::PLAIN))?;
    let Some(nearest) = found.nearest else {
        return Err(Fail::new("no group"));
    };
    assert!(rt; nearest.project == 3 && nearest.supporters == 1);
    assert!(rt; nearest.funded_for == 4_000_000);

    // Without a payment for them the park and the library aren't paid.
    let unpaid = File::in_memory(
        b"pb-prices,1\ndenominator,1\nvoter_budget,4\nvoter,project,payment\n",
    );
    let found = taken(explained_prices_in(rt.alloc(), &sample, unpaid, Mode::PLAIN))?;
    assert!(rt; found.nearest.is_none());
    assert!(rt; found.verdict() != Verdict::Supported);
    Ok(())
}

#[test]
fn finds_what_a_group_and_weights_come_to(rt: HostRuntime) -> Result<(), Fail> {
    let sample = decided(rt.alloc(), ELECTION)?;
    let fair = File::in_memory(FAIR_VIOLATION.as_bytes());
    let group = taken(group_in(rt.alloc(), &sample, InputName::Violation, fair))?;
    assert_eq!(rt;
        group.verdict,
        ViolationVerdict::Failed(ViolationFailure::V4(1))
    );
    assert_eq!(rt;
        group.status(),
        Status::No(Unmet::Violation(ViolationFailure::V4(1)))
    );
    assert_eq!(rt; group.measure(), Measure::ByCount);
    let line = group.line(rt.alloc(), sample.election())?;
    assert!(rt; line.as_str() == "failed V4 voter 1");

    let file = File::in_memory(REFUTATION.as_bytes());
    let weights = taken(weights_in(rt.alloc(), &sample, file, false))?;
    assert_eq!(rt;
        weights.verdict,
        RefutationVerdict::Failed(RefutationFailure::U2)
    );
    assert_eq!(rt;
        weights.status(),
        Status::No(Unmet::Refutation(RefutationFailure::U2))
    );
    let line = weights.line(rt.alloc(), sample.election())?;
    assert!(rt; line.as_str() == "failed U2");
    Ok(())
}

#[test]
fn finds_whether_a_group_falls_short(rt: HostRuntime) -> Result<(), Fail> {
    // Voters 1 and 2 got nothing, and each of x1 and x2 costs 2 of their 4.
    let unfair = decided(rt.alloc(), UNFAIR_ELECTION)?;
    let groups = groups_in(rt.alloc(), &unfair, Measure::ByCost)?;
    let verdict = GroupsVerdict::Failed {
        project: 1,
        voters: 2,
    };
    assert_eq!(rt; groups.verdict(), verdict);
    let status = Status::No(Unmet::Groups {
        project: 1,
        voters: 2,
    });
    assert_eq!(rt; groups.status(), status);
    assert_eq!(rt; groups.figures.len(), 2);
    let line = groups.line(rt.alloc(), unfair.election())?;
    assert!(rt; line.as_str() == "failed EJR+ by cost voters 2 project x1");
    Ok(())
}

/// The line on a certificate of any kind, and whether it is a yes.
fn told_of(alloc: Global, election: &str, certificate: &str) -> Result<(String, bool), Fail> {
    let decided = decided(alloc, election)?;
    let file = File::in_memory(certificate.as_bytes());
    let found = taken(certificate_in(alloc, &decided, file, Mode::PLAIN))?;
    let line = found.line(alloc, decided.election())?;
    Ok((line, found.status() == Status::Yes))
}

#[test]
fn takes_each_certificate_as_its_kind(rt: HostRuntime) -> Result<(), Fail> {
    let (line, is_yes) = told_of(rt.alloc(), ELECTION, PRICES)?;
    assert!(rt; is_yes && line.as_str() == "supported priceable");
    let (line, is_yes) = told_of(rt.alloc(), UNFAIR_ELECTION, VIOLATION)?;
    assert!(rt; is_yes && line.as_str() == "violation");
    let (line, is_yes) = told_of(rt.alloc(), ELECTION, REFUTATION)?;
    assert!(rt; !is_yes && line.as_str() == "failed U2");
    Ok(())
}

#[test]
fn report_on_both_is_a_yes_where_both_are(rt: HostRuntime) -> Result<(), Fail> {
    let decided = decided(rt.alloc(), ELECTION)?;
    let prices = File::in_memory(PRICES.as_bytes());
    let fair = File::in_memory(FAIR_VIOLATION.as_bytes());
    let report = Report::Both(
        taken(prices_in(rt.alloc(), &decided, InputName::Prices, prices, Mode::PLAIN))?,
        taken(group_in(rt.alloc(), &decided, InputName::Violation, fair))?,
    );
    assert_eq!(rt;
        report.status(),
        Status::No(Unmet::Violation(ViolationFailure::V4(1)))
    );
    let mut lines = Vec::new(rt.alloc());
    report.push_lines(rt.alloc(), &mut lines, decided.election())?;
    assert_eq!(rt; lines.len(), 2);
    assert!(rt; lines[0].as_str() == "supported priceable");
    assert!(rt; lines[1].as_str() == "failed V4 voter 1");

    let found = taken(certificate_in(rt.alloc(), &decided, prices, Mode::PLAIN))?;
    assert!(rt; matches!(found, CertificateFound::Prices(_)));
    assert_eq!(rt; Report::Certificate(found).status(), Status::Yes);
    Ok(())
}
