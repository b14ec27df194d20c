//! The rows of a price certificate of the sample election. Those that are refused are tried from outside.
use pb_certificate::{PriceRow, Rows};
use pb_election::Election;
use pb_samples::files::ELECTION;
use std::alloc::Global;
use std::process::Abort;
use std::test::Fail;

/// The voter, the project and the payment of a row, or none.
type Want = Option<(u32, u32, u128)>;

/// The next row is to be this.
fn expect_next<'a>(rt: &impl Abort, rows: Rows<'a>, want: Want) -> Result<Rows<'a>, Fail> {
    let (rows, row) = rows.next()?;
    let found = row.map(|row: PriceRow| (row.voter, row.project, row.payment));
    assert_eq!(rt; found, want);
    Ok(rows)
}

/// A text is to have a denominator of 1, a budget of 4, and these rows.
fn expect_rows(
    rt: &impl Abort,
    alloc: Global,
    election: &Election,
    text: &str,
    wanted: &[Want],
) -> Result<(), Fail> {
    let mut rows = Rows::open(alloc, text.as_bytes(), election)?;
    assert_eq!(rt; (rows.denominator(), rows.budget()), (1, 4));
    for want in wanted {
        rows = expect_next(rt, rows, *want)?;
    }
    Ok(())
}

/// Rows of 0 are given. Numbers of up to eighteen digits in a plain line are read another way than longer ones and those
/// with blanks, quotes or more fields; and a plain line may follow any other.
#[test]
fn rows_are_given_in_order_and_then_none(rt: HostRuntime) -> Result<(), Fail> {
    let election = Election::read(rt.alloc(), ELECTION.as_bytes())?;
    let text = "\npb-prices,1\ndenominator,1\nvoter_budget,4\nvoter,project,payment\n\n ,,\n\
        1,a,999999999999999999\n1, b,1000000000000000000\n1,c,0000000000000000007\n\
        2 ,a,4\n2,b,0,\n\n2,\"c\",6\n3,a,8\n3,b ,1000000000000000000000";
    expect_rows(
        &rt,
        rt.alloc(),
        &election,
        text,
        &[
            Some((1, 1, 999_999_999_999_999_999)),
            Some((1, 2, 1_000_000_000_000_000_000)),
            Some((1, 3, 7)),
            Some((2, 1, 4)),
            Some((2, 2, 0)),
            Some((2, 3, 6)),
            Some((3, 1, 8)),
            Some((3, 2, 1_000_000_000_000_000_000_000)),
            None,
            None,
        ],
    )
}
