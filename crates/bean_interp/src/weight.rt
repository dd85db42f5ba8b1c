//! What legs weigh.
ghost use Rattle.std.specs.Prelude.{◌≡◌, ◌*ℤ◌, ◌<◌, ◌≤◌, ◌^◌, ℤ, MatchOption};
ghost use Rattle.std.specs.Int.RustNames.{unsigned_abs};
ghost use Rattle.bean_base.specs.Decimal.{scaled};

use crate::leg::{Whole, Worth};
use bean_base::{Amount, Currency, Num};
use thiserror::Error;

/// `10^28` counts or more, signs left off.
#[derive(Clone, Copy, Debug, Drop, PartialEq, Eq, Error)]
#[error("F17 too wide")]
pub struct TooWide;

/// A count of `10^-16` of a currency, below `10^28` without its sign.
#[derive(Drop, PartialEq, Eq)]
pub struct Weight<'a> {
    pub count: i128,
    pub currency: Currency<'a>,
    ghost bound: { unsigned_abs count < 10 ^ 28 },
}

/// The most that a weight may count, and one.
const MOST: u128 = 10_000_000_000_000_000_000_000_000_000;

/// The count of a number in `10^-16`.
fn at_16(number: Num) -> i128
    ensures value { result ≡ scaled number.count number.places 16 }
    ensures bound { unsigned_abs result < 10 ^ 28 }
{
    number.scaled(8) * 100_000_000
}

/// The product, where it is below `10^28` without its sign.
fn product(a: i128, b: i128) -> Option<i128>
    ensures { MatchOption result (10 ^ 28 ≤ unsigned_abs (a *ℤ b))
        (λ n. (n ≡ a *ℤ b) × (unsigned_abs n < 10 ^ 28)) }
{
    match a.checked_mul(b) {
        Some(product) if product.unsigned_abs() < MOST => Some(product),
        _ => None,
    }
}

impl<'a> Weight<'a> {
    ghost use Rattle.bean_base.specs.Counts.{at_16};

    /// What units weigh that are worth themselves.
    pub(crate) fn of_units(units: &Amount<'a>) -> Weight<'a>
        ensures count { result.count ≡ at_16 units.now.number }
        ensures currency { result.currency ≡ units.now.currency }
    {
        Weight {
            count: at_16(units.number),
            currency: units.currency.lend(),
        }
    }
}

impl<'a> Whole<'a> {
    ghost use Rattle.bean_interp.specs.Weight.{Weighs, with_sign_of};

    /// A count with the sign of the units, 0 for 0.
    fn with_sign(&self, count: i128) -> i128
        requires { unsigned_abs count < 10 ^ 28 }
        ensures value { result ≡ with_sign_of self.now.units.number.count count }
        ensures bound { unsigned_abs result < 10 ^ 28 }
    {
        match self.units.number.count.signum() {
            0 => 0,
            1 => count,
            _ => -count,
        }
    }

    /// What it weighs: units times cost; else, with a price for each unit, units times price; else,
    /// with a total price, the total with the sign of the units; else the units.
    pub fn weight(&self) -> Result<Weight<'a>, TooWide>
        ensures { Weighs self.now result }
    {
        let number = self.units.number;
        let (count, currency) = match &self.worth {
            Worth::Units => (Some(at_16(number)), &self.units.currency),
            Worth::Cost(cost) => (product(number.scaled(8), cost.count), &cost.currency),
            Worth::PerUnit(price) => (
                product(number.scaled(8), price.number.scaled(8)),
                &price.currency,
            ),
            Worth::Total(total) => (Some(self.with_sign(at_16(total.number))), &total.currency),
        };
        match count {
            Some(count) => Ok(Weight {
                count,
                currency: currency.lend(),
            }),
            None => Err(TooWide),
        }
    }
}
