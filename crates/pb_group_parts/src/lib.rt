//! The parts of a page about a group and what it demands, those about weights, and those about groups that fall short.
#![tactic(auto)]

mod group;
mod parts;
mod short_answer;
mod short_table;
mod tests_of_group;
mod tests_of_weights;
mod weights;

pub use parts::{groups, refutation, violation};
pub use short_answer::{push_more_of_groups, push_why_of_groups};
pub use tests_of_group::push_failed_test_of_group;
pub use tests_of_weights::push_failed_test_of_weights;
