//! The canonical text of prices.
use pb_certificate::{Prices, canonical_text_of};
use pb_election::{Election, Output};
use pb_samples::files::{QUOTED_ELECTION, QUOTED_PRICES};
use std::alloc::Global;
use std::process::Abort;
use std::test::Fail;

/// The sample prices where a is named a"1, with blanks, leading zeros, an empty line, empty fields at the end, a payment
/// of 0, and a voter's rows in another order.
const UNTIDY_QUOTED_PRICES: &str = "\
pb-prices, 1
denominator,1
voter_budget,04

voter,project,payment
1,b,2
1,\"a\"\"1\",002
2,\"a\"\"1\",4,,
2,b,0
3,b,2
";

/// Prices are to be written in their canonical form.
fn expect_written(rt: &impl Abort, alloc: Global, election: &Election, prices: &Prices) {
    assert!(rt; prices.fits(election));
    let mut written = Vec::new(alloc);
    let done = prices.write(alloc, election, &mut Output::new(&mut written));
    assert_eq!(rt; done, Ok(()));
    assert!(rt; written.as_slice() == QUOTED_PRICES.as_bytes());
}

/// Prices in any form are to be written in their canonical form.
fn expect_tidied(rt: &impl Abort, alloc: Global, election: &Election) -> Result<(), Fail> {
    let prices = Prices::read(alloc, UNTIDY_QUOTED_PRICES.as_bytes(), election)?;
    expect_written(rt, alloc, election, &prices);
    Ok(())
}

#[test]
fn prices_are_written_in_one_way(rt: HostRuntime) -> Result<(), Fail> {
    let election = Election::read(rt.alloc(), QUOTED_ELECTION.as_bytes())?;
    expect_tidied(&rt, rt.alloc(), &election)
}

/// The canonical text of prices in any form is to be the one that is written.
fn expect_text(rt: &impl Abort, alloc: Global, election: &Election) -> Result<(), Fail> {
    let text = canonical_text_of(alloc, UNTIDY_QUOTED_PRICES.as_bytes(), election)?;
    assert!(rt; text.as_slice() == QUOTED_PRICES.as_bytes());
    Ok(())
}

#[test]
fn text_of_prices_is_the_one_that_is_written(rt: HostRuntime) -> Result<(), Fail> {
    let election = Election::read(rt.alloc(), QUOTED_ELECTION.as_bytes())?;
    expect_text(&rt, rt.alloc(), &election)
}
