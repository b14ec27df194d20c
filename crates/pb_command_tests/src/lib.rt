//! The tests of `pb_command`.
#![tactic(auto)]

#[cfg(test)]
mod tests;
