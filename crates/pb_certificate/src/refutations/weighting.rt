//! What a row of a refutation states.

/// What the weight of a project in a refutation speaks for.
#[derive(Clone, Copy, Debug, PartialEq, Eq)]
pub enum Role {
    /// That at least its cost is paid for a funded project.
    Least,
    /// That at most its cost is paid for a funded project.
    Most,
    /// That the supporters of an unfunded project have at most its cost left.
    Left,
}

/// What a row of a refutation states of a project.
#[derive(Clone, Copy, Debug, PartialEq, Eq)]
pub struct Weighting {
    /// What the weight speaks for.
    pub role: Role,
    /// The weight, at most 10^12.
    pub weight: u64,
}
