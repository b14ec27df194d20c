//! A caller of these crates, which docs/LIBRARY.md shows.

ghost use Rattle.std.specs.Prelude.{◌≡◌, Bool, List, Some, false, true};
ghost use Rattle.pb_election.specs.Instance.{Instance};
ghost use Rattle.pb_election.specs.Text.{IsTextOf};
ghost use Rattle.pb_certificate.specs.Faults.{certificate_records};
ghost use Rattle.pb_certificate.specs.Prices as spec;
ghost use Rattle.pb_certificate.specs.Prices.Text.{IsPriceText};
ghost use Rattle.pb_cohesion.specs.EveryGroup.{NoGroupHasMoreLeft};
ghost use Rattle.pb_price.specs.Supports.{Supports};

use pb_certificate::Prices;
use pb_election::{Election, Outcome};
use pb_price::{Mode, Verdict, check};
use std::alloc::Global;
use std::test::Fail;

/// The plain form, with Exhaustive and without Cover.
const PLAIN: Mode = Mode::PLAIN;

/// Whether the prices of a certificate support the outcome that an election's file states; nothing where a file is
/// refused, or memory runs out.
fn is_supported(alloc: Global, election: &[u8], certificate: &[u8]) -> Option<bool>
    // After a yes no group of an unfunded project's supporters has more left than it costs, by what the files state.
    ensures yes { result ≡ Some true → (e : Instance) × (w : List Bool) × (p : spec.Prices) × IsTextOf election.now e × (e.selected ≡ Some w) × IsPriceText (certificate_records certificate.now) e p × NoGroupHasMoreLeft e w p }
    // After a no the prices don't support the outcome by the plain conditions.
    ensures no { result ≡ Some false → (e : Instance) × (w : List Bool) × (p : spec.Prices) × IsTextOf election.now e × (e.selected ≡ Some w) × IsPriceText (certificate_records certificate.now) e p × (Supports PLAIN e w p → ⊥) }
{
    let Ok(election) = Election::read(alloc, election) else {
        return None;
    };
    let Ok(outcome) = Outcome::selected(alloc, &election) else {
        return None;
    };
    let Ok(prices) = Prices::read(alloc, certificate, &election) else {
        return None;
    };
    match check(alloc, &election, &outcome, &prices, PLAIN) {
        Ok(Verdict::Supported) => Some(true),
        Ok(Verdict::Failed(_)) => Some(false),
        Err(_) => None,
    }
}

#[test]
fn the_sample_is_supported_and_a_row_less_is_not(rt: HostRuntime) -> Result<(), Fail> {
    let election = pb_samples::files::ELECTION.as_bytes();
    let prices = pb_samples::files::PRICES.as_bytes();
    let cut = &prices[..prices.len() - 6];
    assert_eq!(rt; is_supported(rt.alloc(), election, prices), Some(true));
    assert_eq!(rt; is_supported(rt.alloc(), election, cut), Some(false));
    assert_eq!(rt; is_supported(rt.alloc(), prices, prices), None);
    Ok(())
}
