//! The tests of the page.
#![tactic(auto)]

#[cfg(test)]
mod tests;
