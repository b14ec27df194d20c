//! The figures of the page about a certificate: amounts by name, how they are written, and the orders of projects.
#![tactic(auto)]

mod amounts;
mod decimals;
mod extremes;
mod figure;
mod ranking;
mod refutations;
mod short_groups;
mod told;

pub use amounts::{Balance, Style, push_amount, push_grouped};
pub use decimals::decimals_of;
pub use extremes::{Payment, Spender, extremes_of};
pub use figure::Figure;
pub use ranking::{Size, closest_first, has, missing, places_by, short_first, wrongly_paid_first};
pub use refutations::RefutationFigures;
pub use short_groups::ShortFigures;
pub use told::{CertificateFigures, PriceFigures, Told, ViolationFigures};
