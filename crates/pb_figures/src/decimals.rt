//! How many decimals amounts are shown with.
use pb_election::Election;

/// How many decimals the limit and the costs of an election have, at most 6, and 2 where it would be 1.
pub fn decimals_of(election: &Election) -> u32 {
    let mut most = decimals_in(election.limit().millionths());
    for j in 1..=election.projects() {
        most = most.max(decimals_in(election.cost(j).millionths()));
    }
    if most == 1 { 2 } else { most }
}

// How many decimals an amount has.
fn decimals_in(millionths: u64) -> u32 {
    let mut decimals = 0;
    let mut rest = millionths % 1_000_000;
    for place in 1..=6 {
        if rest == 0 {
            break;
        }
        rest = rest % 100_000 * 10;
        decimals = place;
    }
    decimals
}
