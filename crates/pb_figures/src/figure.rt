//! The figures that a page shows, by name.
use pb_price::Condition;

/// An amount that a page shows. Projects are numbered from 1; one that the election has not shows 0.
#[derive(Clone, Copy)]
pub enum Figure {
    /// The budget limit.
    Limit,
    /// What the funded projects cost together.
    Funded,
    /// What remains of the limit, or by how much the funded projects are over it, which is shown without a sign.
    Remains,
    /// The budget of each voter.
    VoterBudget,
    /// The budgets of all voters together.
    Budgets,
    /// What is paid for all projects together.
    Spent,
    /// By how much what is paid for all projects is over or under the budgets, without a sign.
    Unspent,
    /// What this project costs.
    Cost(u32),
    /// What is paid for this project.
    Paid(u32),
    /// What the supporters of this project have left together.
    Left(u32),
    /// What the supporters of this project can offer together.
    Offer(u32),
    /// By how much what is paid for this project is over or under its cost, without a sign.
    PaidOff(u32),
    /// By how much what the supporters of this project have left is over or under its cost, without a sign.
    LeftOff(u32),
    /// By how much what the supporters of this project can offer is over or under its cost, without a sign.
    OfferOff(u32),
    /// The bound of this condition at the place that its finding shows. Nothing where it shows none.
    Bound(Condition),
    /// What this condition compares with the bound at that place.
    Amount(Condition),
    /// By how much that is over or under the bound, without a sign.
    AmountOff(Condition),
    /// What the demanded projects cost together.
    Demand,
    /// The group's share of the limit.
    Share,
    /// By how much the cost of the demand is over or under the share, without a sign.
    ShareOff,
    /// What a member of the group gets: the first that gets what is demanded, or else the one that gets most. Nothing
    /// where projects are counted.
    Gets,
    /// What the demanded projects are worth. Nothing where projects are counted.
    Worth,
    /// What the weights of a refutation count as paid at least.
    PaidAtLeast,
    /// What they count as paid at most, and left at most.
    PaidAtMost,
    /// The part of the limit that falls to the group in this row of the groups that are told, which are numbered from 1.
    Part(u32),
    /// What that part would have to come to.
    Need(u32),
    /// What the member of that group got that got most. Nothing where projects are counted.
    Most(u32),
}
