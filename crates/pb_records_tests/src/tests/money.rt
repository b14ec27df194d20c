//! Amounts, whole numbers and grains, of texts.
use pb_money::{
    Money, MoneyFault, WholeFault, cost_grains, leading_number, payment_grains, read_whole,
};

#[test]
fn reads_amounts(rt: HostRuntime) {
    let samples = [
        ("1,50", Ok(1_500_000)),
        ("1.500000", Ok(1_500_000)),
        ("1.0000000", Ok(1_000_000)),
        ("1000000000000", Ok(1_000_000_000_000_000_000)),
        ("1.0000001", Err(MoneyFault::TooFine)),
        ("1.", Err(MoneyFault::NotNumber)),
        (".5", Err(MoneyFault::NotNumber)),
        ("1 000", Err(MoneyFault::NotNumber)),
        ("", Err(MoneyFault::Empty)),
        ("1000000000000.000001", Err(MoneyFault::TooLarge)),
        ("10000000000000.0000001", Err(MoneyFault::TooFine)),
    ];
    for (text, want) in samples {
        let found = Money::read(text.as_bytes()).map(|amount| amount.millionths());
        assert_eq!(rt; found, want, "at {text}");
    }
}

#[test]
fn reads_whole_numbers(rt: HostRuntime) {
    let samples = [
        ("12", 12, Ok(12)),
        ("007", 7, Ok(7)),
        ("13", 12, Err(WholeFault::TooLarge)),
        ("1x", 12, Err(WholeFault::NotDigits)),
        ("", 12, Err(WholeFault::Empty)),
    ];
    for (text, most, want) in samples {
        assert_eq!(rt; read_whole(text.as_bytes(), most), want, "at {text}");
    }
}

#[test]
fn reads_a_number_in_front(rt: HostRuntime) {
    let samples = [
        ("12,a", Some((12, 2))),
        ("007", Some((7, 3))),
        ("999999999999999999", Some((999_999_999_999_999_999, 18))),
        ("1234567890123456789", Some((123_456_789_012_345_678, 18))),
        ("x1", None),
        ("", None),
    ];
    for (text, want) in samples {
        assert_eq!(rt; leading_number(text.as_bytes()), want, "at {text}");
    }
}

#[test]
fn counts_grains(rt: HostRuntime) {
    let samples = [
        ("1.5", 3, 4_500_000),
        (
            "1000000000000",
            1_000_000_000,
            1_000_000_000_000_000_000_000_000_000,
        ),
    ];
    for (text, denominator, want) in samples {
        let found = Money::read(text.as_bytes()).map(|cost| cost_grains(cost, denominator));
        assert_eq!(rt; found, Ok(want), "at {text}");
    }
    assert_eq!(rt; cost_grains(Money::default(), 3), 0);
    assert_eq!(rt; payment_grains(2), 2_000_000);
    assert_eq!(rt;
        payment_grains(1_000_000_000_000_000_000_000),
        1_000_000_000_000_000_000_000_000_000
    );
}
