//! Postings: the lines of a transaction that change an account.
ghost use Rattle.std.specs.Prelude.{◌≡◌};
ghost use Rattle.bean_postings.specs.Posting as rule;

use crate::cost::Cost;
use crate::details::DetailParts;
use crate::price::Price;
use bean_base::{Account, Amount, Currency};

/// What a posting adds to its account, as far as it is written.
#[derive(Drop)]
pub enum Units<'a> {
    Missing,
    /// A currency without a number.
    Currency(Currency<'a>),
    Amount(Amount<'a>),
    /// A number without a currency, which is outside the profile.
    NumberAlone,
}

impl<'a> Units<'a> {
    /// The same units once more.
    pub fn lend(&self) -> Units<'a>
        ensures { result ≡ self.now }
    {
        match self {
            Units::Missing => Units::Missing,
            Units::Currency(currency) => Units::Currency(currency.lend()),
            Units::Amount(amount) => Units::Amount(amount.lend()),
            Units::NumberAlone => Units::NumberAlone,
        }
    }
}

/// A line of a transaction that changes an account.
#[derive(Drop)]
pub struct Posting<'a> {
    pub units: Units<'a>,
    pub account: Account<'a>,
    /// Its line, its flag, its cost, its price and the entries that stand under it.
    pub details: DetailParts<'a>,
}

/// Whether the books have no posting of these units with these details: the units are a number without
/// a currency, or have no number before a cost or a price, or the cost or the price is outside the
/// profile.
pub(crate) fn are_outside_profile(units: &Units<'_>, details: &DetailParts<'_>) -> bool
    ensures { result ≡ rule.are_outside_profile units.now details.now }
{
    let is_left_out = matches!(details.cost, Cost::OutsideProfile)
        || matches!(details.price, Price::OutsideProfile);
    let is_written = !matches!(details.cost, Cost::Absent)
        || !matches!(details.price, Price::Absent);
    match units {
        Units::NumberAlone => true,
        Units::Amount(_) => is_left_out,
        Units::Missing | Units::Currency(_) => is_left_out || is_written,
    }
}
