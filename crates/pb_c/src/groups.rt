//! What a yes to prices says of groups, as a number for C.
ghost use Rattle.std.specs.Prelude.{◌≡◌, ◌≤◌};
ghost use Rattle.pb_c.specs.Groups.{groups_code};

use crate::report::MEMORY_CODE;
use pb_audit::groups_on_yes;
use pb_price::OnGroups;
use std::alloc::Global;

/// What a yes to a price certificate says of groups, by its number, or that memory ran out.
pub(crate) fn groups_on(alloc: Global, election: &[u8], certificate: &[u8], exhaustive: bool) -> u8
    ensures { result ≤ 4 }
{
    match groups_on_yes(alloc, election, certificate, exhaustive) {
        Ok(said) => groups_code(said),
        Err(_) => MEMORY_CODE,
    }
}

fn groups_code(said: Option<OnGroups>) -> u8
    ensures { result ≡ groups_code said }
{
    match said {
        None => 0,
        Some(OnGroups::Little) => 1,
        Some(OnGroups::Weak) => 2,
        Some(OnGroups::Strict) => 3,
    }
}
