//! What is said of findings that were made up for it, with texts that were worked out by hand. What is said of those that
//! files lead to is tried from outside.
mod amounts;
mod tables;
