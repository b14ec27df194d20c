//! The parts of a page about prices: the projects, funded and not, and the conditions.
#![tactic(auto)]

mod condition;
mod conditions;
mod found;
mod funded;
mod parts;
mod places;
mod unfunded;

pub use conditions::push_failed_condition;
pub use parts::prices;
pub use unfunded::narrow;
