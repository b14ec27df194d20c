//! What is reported on folders and on groups, what is found as values, and the calls that load and write bytes.
mod failing;
mod folders;
mod groups;
mod reports;
