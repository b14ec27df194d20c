//! What the tests of several crates share. Nothing is promised of it, and only crates of tests stand on it.
#![tactic(auto)]

pub mod colliding;
pub mod fakes;
pub mod files;
