//! Auditing prices: whether they support an outcome.
ghost use Rattle.pb_audit.specs.Answers.{price_rules};
ghost use Rattle.pb_certificate.specs.Prices.{Prices};

use crate::auditing::Audit;
use crate::rendering::Rendering;
use pb_election::DecidedElection;
use pb_input::InputName;
use pb_price::Mode;
use pb_reply::{File, Reply, Unanswered};
use pb_report::{CertificateFound, Report, prices_in};
use std::alloc::Global;

/// The audit of prices, in a mode.
#[derive(Drop)]
pub(crate) struct PriceAudit {
    pub(crate) mode: Mode,
}

impl Audit for PriceAudit {
    type Told = Reply;

    ghost Subject = { Prices };

    ghost rules = { λ audit. price_rules audit.mode };

    #[tactic(auto, using(pb_reply::proofs::Promises::prices_promise))]
    fn reply_on(
        &self,
        alloc: Global,
        decided: &DecidedElection,
        certificate: File<'_>,
        notes: &mut Vec<String>,
    ) -> Result<Reply, Unanswered> {
        let prices = prices_in(
            alloc,
            decided,
            InputName::Certificate,
            certificate,
            self.mode,
        )?;
        let found = Report::Certificate(CertificateFound::Prices(prices));
        Ok(Rendering::of(found).reply(alloc, decided, notes)?)
    }
}
