//! Auditing violations: whether a group was treated worse than it deserves.
ghost use Rattle.pb_audit.specs.Answers.{violation_rules};
ghost use Rattle.pb_audit.specs.Both.{GroupAndDemand};

use crate::auditing::Audit;
use crate::rendering::Rendering;
use pb_election::DecidedElection;
use pb_input::InputName;
use pb_reply::{File, Reply, Unanswered};
use pb_report::{CertificateFound, Report, group_in};
use std::alloc::Global;

/// The audit of a violation.
pub(crate) struct ViolationAudit;

impl Audit for ViolationAudit {
    type Told = Reply;

    ghost Subject = { GroupAndDemand };

    ghost rules = { λ _. violation_rules };

    #[tactic(auto, using(pb_reply::proofs::Promises::violation_promises))]
    fn reply_on(
        &self,
        alloc: Global,
        decided: &DecidedElection,
        certificate: File<'_>,
        notes: &mut Vec<String>,
    ) -> Result<Reply, Unanswered> {
        let group = group_in(alloc, decided, InputName::Certificate, certificate)?;
        let found = Report::Certificate(CertificateFound::Group(group));
        Ok(Rendering::of(found).reply(alloc, decided, notes)?)
    }
}
