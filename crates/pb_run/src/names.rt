//! The names of the files with an ending.
ghost use Rattle.std.specs.Prelude.{◌≡◌, ◌||◌, List, ℕ, IfOk, OnOk, false};
ghost use Rattle.std.specs.BTreeSet.{contains_text};
ghost use Rattle.std.specs.Option.{option_map_or};
ghost use Rattle.std.specs.Str.{bytes_eq};
ghost use Rattle.pb_run.specs.Listings.{has_file, is_file_of};

use crate::listed::Listed;
use pb_audit::names::is_clean;
use std::alloc::{AllocError, Global};
use std::collections::BTreeSet;

/// The names, without the ending, of the regular files that a folder lists with this ending. Those with a control
/// character aren't among them.
pub fn names_with(
    alloc: Global,
    listed: &[Listed],
    ending: &str,
) -> Result<BTreeSet<String>, AllocError>
    ensures { IfOk result (λ names. (name : List ℕ) → contains_text names name ≡ has_file listed.now ending.now name) }
{
    let mut names = BTreeSet::new(alloc);
    for entry in listed {
        add_name(alloc, &mut names, entry, ending)?;
    }
    Ok(names)
}

/// Adds the name of a file, if it has the ending.
fn add_name(
    alloc: Global,
    names: &mut BTreeSet<String>,
    entry: &Listed,
    ending: &str,
) -> Result<(), AllocError>
    ensures { OnOk result ((name : List ℕ) → contains_text names.new name ≡ (is_file_of ending.now name entry.now || contains_text names.old name)) }
{
    if let Some(name) = name_of(entry, ending) {
        names.insert(String::from_str(alloc, name)?)?;
    }
    Ok(())
}

/// Whether a name is among them.
pub fn has_name(names: &BTreeSet<String>, name: &str) -> bool
    ensures { result ≡ contains_text names.now name.now }
{
    names.contains(name)
}

/// The name of a regular file without this ending, where the file has it and the name is clean.
fn name_of<'n>(entry: &'n Listed, ending: &str) -> Option<&'n str>
    ensures { (name : List ℕ) → is_file_of ending.now name entry.now ≡ option_map_or (λ found. bytes_eq found.now name) result false }
{
    if !entry.is_file {
        return None;
    }
    let name = entry.name.strip_suffix(ending)?;
    match is_clean(name) {
        true => Some(name),
        false => None,
    }
}
