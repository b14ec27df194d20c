//! The tests of `pb_money` and `pb_records`.
#![tactic(auto)]

#[cfg(test)]
mod tests;
