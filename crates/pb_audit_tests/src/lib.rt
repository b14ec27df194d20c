//! The tests of the calls of `pb_audit`.
#![tactic(auto)]

#[cfg(test)]
mod tests;
