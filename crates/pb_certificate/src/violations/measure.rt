//! By what a violation certificate measures.

/// By what a violation certificate measures what the members of a group get and what they demand.
#[derive(Clone, Copy, Debug, PartialEq, Eq)]
pub enum Measure {
    /// By counting: each project is worth 1.
    ByCount,
    /// By cost: each project is worth what it costs.
    ByCost,
}
