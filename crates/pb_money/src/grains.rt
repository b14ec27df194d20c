//! Grains: with the denominator D, a grain is 1/(10^6 D) of the currency.
ghost use Rattle.std.specs.Prelude.{◌≡◌, ◌≤◌, ◌^◌};
ghost use Rattle.pb_money.specs.Grains as spec;

use crate::Money;

/// A cost in grains, for the denominator `d`, which is from 1 to 10^9.
pub fn cost_grains(cost: Money, d: u32) -> u128
    requires low { 1 ≤ d }
    requires high { d ≤ 10 ^ 9 }
    ensures { result ≡ spec.cost_grains cost d }
{
    u128::from(cost.millionths()) * u128::from(d)
}

/// A payment in grains, from its numerator over the denominator, which is at most 10^21.
pub fn payment_grains(x: u128) -> u128
    requires { x ≤ 10 ^ 21 }
    ensures { result ≡ spec.payment_grains x }
{
    x * 1_000_000
}
