//! Lines that are compared one by one.
use std::process::Abort;

/// The lines are to be these.
pub fn expect_lines(rt: &impl Abort, lines: &[String], want: &[&str]) {
    assert!(rt; lines.len() == want.len());
    for (number, line) in lines.iter().enumerate() {
        assert!(rt; want.get(number) == Some(&line.as_str()), "{line}");
    }
}
