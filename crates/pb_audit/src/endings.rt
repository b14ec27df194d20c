//! How the names of a folder's files end.

/// An election, `NAME.pb`.
pub const ELECTION: &str = ".pb";

/// The price certificate beside it, `NAME.prices.csv`.
pub const PRICES: &str = ".prices.csv";

/// The violation certificate beside it, `NAME.violation.csv`.
pub const VIOLATION: &str = ".violation.csv";
