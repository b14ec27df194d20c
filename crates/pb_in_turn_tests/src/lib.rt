//! Each command of `pb_audit`, once whole, and with each of its reads and writes made to fail.
#![tactic(auto)]

#[cfg(test)]
mod tests;
