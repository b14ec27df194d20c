//! Explaining verdicts: what each condition on prices, or each test of a violation or of a refutation, comes to.
ghost use Rattle.std.specs.Prelude.{IfOk, IfSome};
ghost use Rattle.pb_audit.specs.Explained.{explained_reply, explained_rules};
ghost use Rattle.pb_audit.specs.Inside.Certificates.{AnswersCertificate};
ghost use Rattle.pb_audit.specs.Inside.Told.{told_as};
ghost use Rattle.pb_report.specs.CanBeTold.{CanBeReported};
ghost use Rattle.pb_reply.specs.Certificates.{Certificate, StatesCertificate};
ghost use Rattle.pb_reply.specs.Inside.Loaded.{lent};

use crate::auditing::Audit;
use crate::rendering::Rendering;
use pb_election::DecidedElection;
use pb_price::Mode;
use pb_reply::{File, Reply, Unanswered};
use pb_report::{Report, certificate_in};
use std::alloc::Global;

/// The explanation of a verdict, on prices in a mode.
#[derive(Drop)]
pub(crate) struct ExplainAudit {
    pub(crate) mode: Mode,
}

impl Audit for ExplainAudit {
    type Told = Reply;

    ghost Subject = { Certificate };

    ghost rules = { λ audit. explained_rules audit.mode };

    #[tactic(auto, using(crate::proofs::Explained::explained_promise))]
    fn reply_on(
        &self,
        alloc: Global,
        decided: &DecidedElection,
        certificate: File<'_>,
        notes: &mut Vec<String>,
    ) -> Result<Reply, Unanswered> {
        let explained = explained(alloc, decided, certificate, self.mode)?;
        Ok(explained.reply(alloc, decided, notes)?)
    }
}

/// What is found of a certificate of any kind, explained.
fn explained(
    alloc: Global,
    decided: &DecidedElection,
    certificate: File<'_>,
    mode: Mode,
) -> Result<Rendering, Unanswered>
    ensures reply { IfSome (told_as (decided.now).election (decided.now).outcome.marks result) (AnswersCertificate StatesCertificate (explained_reply mode) (decided.now).election (decided.now).outcome.marks (lent certificate.entry)) }
    ensures told { IfOk result (λ explained. CanBeReported (decided.now).election explained.report) }
{
    let found = certificate_in(alloc, decided, certificate, mode)?;
    Ok(Rendering::explaining(Report::Certificate(found)))
}
