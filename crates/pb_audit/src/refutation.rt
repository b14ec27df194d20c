//! Auditing refutations: whether weights prove that no prices support an outcome.
ghost use Rattle.pb_audit.specs.Answers.{refutation_rules};
ghost use Rattle.pb_certificate.specs.Refutations.{Weights};

use crate::auditing::Audit;
use crate::rendering::Rendering;
use pb_election::DecidedElection;
use pb_reply::{File, Reply, Unanswered};
use pb_report::{CertificateFound, Report, weights_in};
use std::alloc::Global;

/// The audit of a refutation, of all prices or, where `stable` is asked for, of stable ones.
#[derive(Drop)]
pub(crate) struct RefutationAudit {
    pub(crate) stable: bool,
}

impl Audit for RefutationAudit {
    type Told = Reply;

    ghost Subject = { Weights };

    ghost rules = { λ audit. refutation_rules audit.stable };

    #[tactic(auto, using(pb_reply::proofs::Promises::refutation_promises))]
    fn reply_on(
        &self,
        alloc: Global,
        decided: &DecidedElection,
        certificate: File<'_>,
        notes: &mut Vec<String>,
    ) -> Result<Reply, Unanswered> {
        let weights = weights_in(alloc, decided, certificate, self.stable)?;
        let found = Report::Certificate(CertificateFound::Weights(weights));
        Ok(Rendering::of(found).reply(alloc, decided, notes)?)
    }
}
