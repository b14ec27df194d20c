//! The tests of `pb_election` and `pb_certificate`.
#![tactic(auto)]

#[cfg(test)]
mod tests;
