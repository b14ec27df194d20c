//! Price certificates of the sample election.
use pb_certificate::Prices;
use pb_election::Election;
use pb_samples::files::{ELECTION, PRICES, UNTIDY_PRICES};
use std::alloc::Global;
use std::process::Abort;
use std::test::Fail;

/// The payments of a voter, by project.
type Payments = &'static [(u32, u128)];

/// A text, the payments of the three voters, and what the first pays for project 2.
type Sample = (&'static str, [Payments; 3], u128);

/// The payments of the sample prices.
const SAMPLE: [Payments; 3] = [&[(1, 2), (2, 2)], &[(1, 4)], &[(2, 2)]];

/// The sample prices in two spellings, and others, whose rows come in no order.
const SAMPLES: &[Sample] = &[
    (PRICES, SAMPLE, 2),
    (UNTIDY_PRICES, SAMPLE, 2),
    (
        "pb-prices,1\ndenominator,1\nvoter_budget,4\nvoter,project,payment\n\
        1,c,3\n1,b,0\n1,a,1\n3,b,2\n3,c,9\n3,a,5\n",
        [&[(1, 1), (3, 3)], &[], &[(1, 5), (2, 2), (3, 9)]],
        0,
    ),
];

/// Prices are to have a budget of 4 and these payments of the three voters, of which the first pays so much for project
/// 2, and the second nothing.
fn expect_prices(
    rt: &impl Abort,
    election: &Election,
    prices: &Prices,
    payments: [Payments; 3],
    second: u128,
) {
    assert!(rt; prices.fits(election) && election.voters() == 3 && election.projects() == 3);
    assert_eq!(rt; (prices.denominator(), prices.budget()), (1, 4));
    let found = [
        prices.payments_of(1),
        prices.payments_of(2),
        prices.payments_of(3),
    ];
    assert_eq!(rt; found, payments);
    assert_eq!(rt; [prices.payment(1, 2), prices.payment(2, 2)], [second, 0]);
}

/// Each text is to be read as prices with a budget of 4 and its payments.
fn expect_read(
    rt: &impl Abort,
    alloc: Global,
    election: &Election,
    samples: &[Sample],
) -> Result<(), Fail> {
    for (text, payments, second) in samples {
        let prices = Prices::read(alloc, text.as_bytes(), election)?;
        expect_prices(rt, election, &prices, *payments, *second);
    }
    Ok(())
}

/// A voter's rows may come in any order, and those of 0 are not kept.
#[test]
fn prices_are_sorted_by_project_in_any_spelling(rt: HostRuntime) -> Result<(), Fail> {
    let election = Election::read(rt.alloc(), ELECTION.as_bytes())?;
    expect_read(&rt, rt.alloc(), &election, SAMPLES)
}
