//! The tests of `pb_price`.
#![tactic(auto)]

#[cfg(test)]
mod tests;
