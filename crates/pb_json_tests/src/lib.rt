//! The tests of `pb_json`.
#![tactic(auto)]

#[cfg(test)]
mod tests;
