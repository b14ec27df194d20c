//! What is found of an election with its outcome, as a value, of which lines, a JSON object, a page and a status are made.
#![tactic(auto)]

mod certificate;
mod group;
mod groups;
mod prices;
mod report;
mod weights;

pub use certificate::{CertificateFound, certificate_in};
pub use group::{GroupFound, group_in};
pub use groups::{GroupsFound, groups_in};
pub use prices::{PricesFound, explained_prices_in, prices_in};
pub use report::Report;
pub use weights::{WeightsFound, weights_in};
