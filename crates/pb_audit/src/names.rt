//! The names of elections in a folder.
ghost use Rattle.std.specs.Prelude.{◌≡◌};
ghost use Rattle.std.specs.List.{list_all};
ghost use Rattle.pb_audit.specs.Names as spec;

/// Whether a name is there and has no control character.
pub fn is_clean(name: &str) -> bool
    ensures { result ≡ spec.is_clean name.now }
{
    !name.is_empty() && are_seen(name.as_bytes())
}

/// Whether none of the bytes is a control character.
fn are_seen(bytes: &[u8]) -> bool
    ensures { result ≡ list_all spec.is_seen bytes.now }
{
    bytes.iter().all(|byte| *byte >= 32 && *byte != 127)
}
