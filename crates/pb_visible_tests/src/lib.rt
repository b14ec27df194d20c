//! The tests of `pb_visible`.
#![tactic(auto)]

#[cfg(test)]
mod tests;
