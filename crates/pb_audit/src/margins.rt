//! The margins of a price certificate.
ghost use Rattle.pb_audit.specs.Margins.{margin_rules};
ghost use Rattle.pb_certificate.specs.Prices.{Prices};

use crate::auditing::Audit;
use crate::objects::margins_object;
use pb_election::DecidedElection;
use pb_explain::margin_table_text;
use pb_input::InputName;
use pb_price::Mode;
use pb_reply::{File, Status, Table, Unanswered};
use pb_report::prices_in;
use std::alloc::Global;

/// The audit that answers with the table of margins.
pub(crate) struct MarginAudit;

impl Audit for MarginAudit {
    type Told = Table;

    ghost Subject = { Prices };

    ghost rules = { λ _. margin_rules };

    #[tactic(auto, using(crate::proofs::MarginAnswers::always_yes))]
    fn reply_on(
        &self,
        alloc: Global,
        decided: &DecidedElection,
        certificate: File<'_>,
        _notes: &mut Vec<String>,
    ) -> Result<Table, Unanswered> {
        // The figures are the same in each mode.
        let prices = prices_in(
            alloc,
            decided,
            InputName::Certificate,
            certificate,
            Mode::PLAIN,
        )?;
        Ok(Table {
            text: margin_table_text(alloc, decided.election(), &prices.margins)?,
            object: margins_object(alloc, decided, &prices.margins)?,
            status: Status::Yes,
        })
    }
}
