//! The version.

/// The version of the program, of the libraries and of the packages, as people read it.
pub const VERSION: &str = "0.3.0";
