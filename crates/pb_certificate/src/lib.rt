//! Price certificates, violation certificates, refutations and outcome files: reading them against an election, and
//! writing prices out.
#![tactic(auto)]

mod fields;
mod kind;
pub mod laws;
mod marks;
mod outcomes;
mod prices;
mod refusal;
mod refutations;
mod violations;

pub use kind::{Kind, kind_of};
pub use outcomes::read_outcome;
pub use prices::{PriceRow, Prices, Rows, WriteFault, canonical_text_of};
pub use refusal::{CertFault, CertRefusal};
pub use refutations::{Refutation, Role, Weighting};
pub use violations::{Measure, Violation};
