//! The tests of `pb_cohesion`.
#![tactic(auto)]

#[cfg(test)]
mod tests;
