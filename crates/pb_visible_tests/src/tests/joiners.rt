//! Joiners, which stay in words and emoji that are written with them, and nowhere else.
use pb_visible::visible;
use std::test::Fail;

/// Words that are written with a joiner: "I want" in Persian, a syllable with its letters apart and one with a half
/// letter in Hindi, "Sri" in Sinhala, an astronaut, and one with a darker skin.
const WRITTEN: [&str; 6] = [
    "\u{645}\u{6cc}\u{200c}\u{62e}\u{648}\u{627}\u{647}\u{645}",
    "\u{915}\u{94d}\u{200c}\u{937}",
    "\u{915}\u{94d}\u{200d}\u{937}",
    "\u{dc1}\u{dca}\u{200d}\u{dbb}\u{dd3}",
    "\u{1f469}\u{200d}\u{1f680}",
    "\u{1f469}\u{1f3fd}\u{200d}\u{1f680}",
];

/// Texts in which a joiner is no part of the spelling, with how they are shown: between letters that aren't joined, at
/// either end, doubled, of the other kind, behind a letter that is joined with none that follows, behind a sign alone,
/// and between a letter and an emoji.
const ELSEWHERE: [(&str, &str); 10] = [
    ("a\u{200d}b", "a\\u{200d}b"),
    ("a\u{200c}b", "a\\u{200c}b"),
    ("\u{200c}\u{645}", "\\u{200c}\u{645}"),
    ("\u{1f469}\u{200d}", "\u{1f469}\\u{200d}"),
    (
        "\u{1f469}\u{200d}\u{200d}\u{1f680}",
        "\u{1f469}\\u{200d}\\u{200d}\u{1f680}",
    ),
    ("\u{1f469}\u{200c}\u{1f680}", "\u{1f469}\\u{200c}\u{1f680}"),
    ("\u{6cc}\u{200d}\u{62e}", "\u{6cc}\\u{200d}\u{62e}"),
    ("\u{627}\u{200c}\u{628}", "\u{627}\\u{200c}\u{628}"),
    ("\u{94d}\u{200d}1", "\u{94d}\\u{200d}1"),
    ("\u{1f469}\u{200d}a", "\u{1f469}\\u{200d}a"),
];

#[test]
fn joiners_stay_where_they_are_written(rt: HostRuntime) -> Result<(), Fail> {
    for text in WRITTEN {
        let shown = visible(rt.alloc(), text.as_bytes())?;
        assert!(rt; shown.as_str() == text, "{shown}");
    }
    Ok(())
}

#[test]
fn joiners_elsewhere_are_shown(rt: HostRuntime) -> Result<(), Fail> {
    for (text, wanted) in ELSEWHERE {
        let shown = visible(rt.alloc(), text.as_bytes())?;
        assert!(rt; shown.as_str() == wanted, "{shown}");
    }
    Ok(())
}
