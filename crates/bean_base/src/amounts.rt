//! Amounts: numbers of a currency.
ghost use Rattle.std.specs.Prelude.{◌≡◌};

use crate::names::Currency;
use crate::num::Num;

/// A number of a currency.
#[derive(Drop, PartialEq, Eq, Hash)]
pub struct Amount<'a> {
    pub number: Num,
    pub currency: Currency<'a>,
}

impl<'a> Amount<'a> {
    /// The same amount once more.
    pub fn lend(&self) -> Amount<'a>
        ensures { result ≡ self.now }
    {
        Amount {
            number: self.number,
            currency: self.currency.lend(),
        }
    }
}
