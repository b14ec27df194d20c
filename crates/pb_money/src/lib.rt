//! Amounts of money, whole numbers and grains.
//!
//! An amount is a whole number of millionths of the currency, and is read from text such as `1.50`, `1,50` or `007`.
//! Sums over payments and costs are in grains: with the denominator D, a grain is 1/(10^6 D) of the currency.
//! Nothing here takes memory.
#![tactic(auto)]

mod digits;
mod grains;
mod money;
mod whole;

pub use digits::leading_number;
pub use grains::{cost_grains, payment_grains};
pub use money::{Money, MoneyFault};
pub use whole::{WholeFault, read_whole};
