//! As which kind of certificate some bytes are taken. More of them are tried from outside.
use pb_certificate::{Kind, kind_of};
use std::test::Fail;

#[test]
fn kind_is_told_by_the_first_record_alone(rt: HostRuntime) -> Result<(), Fail> {
    let samples: [(&[u8], Kind); 4] = [
        (b" , ,\n pb-violation , 2 ,,\n", Kind::Violation),
        (b"\"pb-refutation\",1\npb-prices,1\n", Kind::Refutation),
        (b"pb-prices,1\npb-violation,1\n", Kind::Prices),
        (b"", Kind::Prices),
    ];
    for (bytes, expected) in samples {
        assert_eq!(rt; kind_of(rt.alloc(), bytes)?, expected, "at {bytes:?}");
    }
    Ok(())
}
