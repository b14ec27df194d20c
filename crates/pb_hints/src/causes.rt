//! What the bytes of a file tell that isn't what it has to be: they aren't text, or are another file.
use crate::FileKind;
use crate::remark::Remark;
use std::alloc::{AllocError, Global};

/// How files begin that aren't plain text, and what to say of them.
const BEGINNINGS: [(&[u8], &str); 10] = [
    (b"\xFF\xFE", UTF_16),
    (b"\xFE\xFF", UTF_16),
    (b"\x1F\x8B", COMPRESSED),
    (b"BZh", COMPRESSED),
    (b"\xFD7zXZ", COMPRESSED),
    (b"\x28\xB5\x2F\xFD", COMPRESSED),
    (b"PK\x03\x04", ARCHIVE),
    (b"\xD0\xCF\x11\xE0", WORKBOOK),
    (b"<!", WEB_PAGE),
    (b"<html", WEB_PAGE),
];

const UTF_16: &str = "the file is UTF-16, as some Windows programs write it; save it as UTF-8";

const COMPRESSED: &str = "the file is compressed; unpack it first";

const ARCHIVE: &str =
    "the file is a ZIP archive, as a spreadsheet is; unpack it, or save it as text";

const WORKBOOK: &str = "the file is an older kind of spreadsheet; save it as text";

const WEB_PAGE: &str = "the file is a web page";

const OLDER: &str = "the text may be in an older encoding, such as Windows-1252; save it as UTF-8";

const PATH: &str = "this looks like the path of a file, and not like its contents";

/// No path is longer than so many bytes.
const MOST_OF_PATH: usize = 4_096;

/// What the first bytes tell of a file that isn't plain text.
fn beginning_of(bytes: &[u8]) -> Option<&'static str> {
    for (beginning, words) in BEGINNINGS {
        if bytes.starts_with(beginning) {
            return Some(words);
        }
    }
    // A letter of ASCII in UTF-16 has a byte 0 before or behind it.
    match bytes {
        [0, _, ..] | [_, 0, ..] => Some(UTF_16),
        _ => None,
    }
}

/// The cause of a field that isn't UTF-8.
pub(crate) fn encoding_cause(bytes: &[u8]) -> &'static str {
    beginning_of(bytes).unwrap_or(OLDER)
}

/// The cause of a first record, with this first field, that isn't that of the wanted file.
pub(crate) fn first_record_cause(
    alloc: Global,
    bytes: &[u8],
    field: &str,
    wanted: FileKind,
) -> Result<Option<Remark>, AllocError> {
    if let Some(words) = beginning_of(bytes) {
        return Ok(Some(Remark::new(alloc, None, words)?));
    }
    if is_path(bytes) {
        return Ok(Some(Remark::new(alloc, None, PATH)?));
    }
    match FileKind::of_first(field) {
        Some(kind) if !wanted.has(kind) => {
            let (found, wanted) = (kind.name(), wanted.name());
            let sentence = format!(in alloc; "this is {found}, not {wanted}")?;
            Ok(Some(Remark {
                line: None,
                sentence,
            }))
        }
        _ => Ok(None),
    }
}

/// Whether all bytes of a file look like the path of one.
fn is_path(bytes: &[u8]) -> bool {
    bytes.len() <= MOST_OF_PATH
        && (bytes.ends_with(b".pb") || bytes.ends_with(b".csv"))
        && bytes.iter().all(|byte| *byte >= b' ')
}
