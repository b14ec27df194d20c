//! The tests of `pb_explain` and `pb_reply`.
#![tactic(auto)]

#[cfg(test)]
mod tests;
