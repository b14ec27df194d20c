//! Which characters are hidden, and how they are shown.
use pb_visible::{is_hidden, push_number, visible};
use std::test::Fail;

/// One of each kind: a control, the ends of lines, spaces, marks that turn or join, fillers, selectors, tags, blanks,
/// and code points that are private or have no character.
const HIDDEN: [char; 32] = [
    '\0',
    '\t',
    '\u{7f}',
    '\u{85}',
    '\u{a0}',
    '\u{ad}',
    '\u{34f}',
    '\u{61c}',
    '\u{115f}',
    '\u{180b}',
    '\u{180e}',
    '\u{200b}',
    '\u{200c}',
    '\u{200d}',
    '\u{2028}',
    '\u{2029}',
    '\u{202e}',
    '\u{2069}',
    '\u{2800}',
    '\u{3000}',
    '\u{3164}',
    '\u{e000}',
    '\u{fe0f}',
    '\u{feff}',
    '\u{fff9}',
    '\u{fffc}',
    '\u{fffe}',
    '\u{1d159}',
    '\u{1d173}',
    '\u{e0001}',
    '\u{e01ef}',
    '\u{10ffff}',
];

#[test]
fn each_kind_is_hidden_and_shown_by_its_number(rt: HostRuntime) -> Result<(), Fail> {
    let alloc = rt.alloc();
    for c in HIDDEN {
        let given = format!(in alloc; "a{c}b")?;
        let wanted = format!(in alloc; "a\\u{{{:x}}}b", c as u32)?;
        let shown = visible(alloc, given.as_bytes())?;
        assert!(rt; is_hidden(c) && shown == wanted, "{wanted}: {shown}");
    }
    Ok(())
}

#[test]
fn what_can_be_seen_stays(rt: HostRuntime) -> Result<(), Fail> {
    let text =
        "Z'a \\u{202e} \u{141}\u{f3}d\u{17a} \u{df} e\u{301} \u{5d0}\u{5b1} \u{627}\u{644} \u{915}\u{93f} \u{4e2d} \u{1f600} \u{fffd}";
    let shown = visible(rt.alloc(), text.as_bytes())?;
    assert!(rt; shown.as_str() == text, "{shown}");
    for c in text.chars() {
        assert!(rt; !is_hidden(c), "{c}");
    }
    Ok(())
}

#[test]
fn bytes_that_are_no_text_are_replaced(rt: HostRuntime) -> Result<(), Fail> {
    let shown = visible(rt.alloc(), b"a\xffb\n\xe2\x80\x8e")?;
    assert!(rt; shown.as_str() == "a\u{fffd}b\\u{a}\\u{200e}", "{shown}");
    Ok(())
}

#[test]
fn number_is_added_behind_what_is_there(rt: HostRuntime) -> Result<(), Fail> {
    let mut text = String::from_str(rt.alloc(), "a")?;
    push_number(&mut text, '\u{10fffd}')?;
    assert!(rt; text.as_str() == "a\\u{10fffd}", "{text}");
    Ok(())
}
