//! Names on a page, also such as no file can have.
use super::page;
use pb_page::{Language, visible};
use pb_samples::files::{ELECTION, PRICES};
use std::test::Fail;

#[test]
fn markup_of_a_name_is_text(rt: HostRuntime) -> Result<(), Fail> {
    let alloc = rt.alloc();
    let election = ELECTION.replace(alloc, "Park", "<script>'x' & \"y\"</script>")?;
    let name = b"<prices> & \"more\".csv";
    let (text, _) = page(alloc, &election, name, PRICES, Language::English)?;
    assert!(rt; !text.contains("<script"));
    for shown in [
        "&lt;script&gt;&#39;x&#39; &amp; &quot;y&quot;&lt;/script&gt;",
        "&lt;prices&gt; &amp; &quot;more&quot;.csv",
    ] {
        assert!(rt; text.contains(shown), "{shown}");
    }
    Ok(())
}

/// A name of more than 255 bytes, one that is no text, and one that is empty.
#[test]
fn no_command_has_a_name_of_no_file(rt: HostRuntime) -> Result<(), Fail> {
    let long = "a".repeat(rt.alloc(), 256)?;
    for name in [long.as_bytes(), b"a\xffb.csv", b""] {
        let (text, _) = page(rt.alloc(), ELECTION, name, PRICES, Language::English)?;
        assert!(rt;
            text.contains("give these files to its command explain"),
            "{text}"
        );
        assert!(rt; !text.contains("pbaudit explain"), "{text}");
    }
    Ok(())
}

#[test]
fn bytes_that_are_no_text_are_replaced(rt: HostRuntime) -> Result<(), Fail> {
    let shown = visible(rt.alloc(), b"a\xffb\n\xe2\x80\x8e")?;
    assert!(rt; shown.as_str() == "a\u{fffd}b\\u{a}\\u{200e}", "{shown}");
    Ok(())
}
