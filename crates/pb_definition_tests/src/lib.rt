//! What the definitions give on sample elections, certificates and outcomes, worked out by hand. `NAME` has those of
//! `pb_NAME`. Nothing stands on this crate.
#![tactic(auto)]

mod certificate;
mod cohesion;
mod price;
