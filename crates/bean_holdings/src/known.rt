//! Currencies that were met before.
ghost use Rattle.std.specs.Prelude.{◌≡◌, IfSome};
ghost use Rattle.bean_holdings.specs.Held.{key_of};

use crate::posted::Posted;
use bean_base::Currency;
use bean_lots::Key;
use std::alloc::Global;

/// How many are kept.
const MOST: usize = 8;

/// The first currencies that were met. One that is met again is lent from where it stood first, so that
/// what is held under it names few places of memory, which are at hand where it is compared. Nothing
/// rests on it: all others are lent from where they stand.
#[derive(Drop)]
pub(crate) struct Known<'a> {
    currencies: Vec<Currency<'a>>,
}

/// The currency among those that were met.
fn met_before<'a>(currencies: &[Currency<'a>], currency: &Currency<'a>) -> Option<Currency<'a>>
    ensures { IfSome result (λ c. c ≡ currency.now) }
{
    for met in currencies {
        if *met == *currency {
            return Some(met.lend());
        }
    }
    None
}

impl<'a> Known<'a> {
    /// None was met. Takes no memory.
    pub(crate) fn new(alloc: Global) -> Known<'a> {
        Known {
            currencies: Vec::new(alloc),
        }
    }

    /// The currency once more.
    fn lend(&mut self, currency: &Currency<'a>) -> Currency<'a>
        ensures { result ≡ currency.now }
    {
        if let Some(met) = met_before(&self.currencies, currency) {
            return met;
        }
        if self.currencies.len() < MOST {
            // Where memory lacks for the list it isn't kept.
            let _ = self.currencies.push(currency.lend());
        }
        currency.lend()
    }

    /// What a posting is held under.
    pub(crate) fn key(&mut self, posted: &Posted<'a>) -> Key<'a>
        ensures { result ≡ key_of posted.now }
    {
        Key {
            currency: self.lend(&posted.units.currency),
            lot: posted.lend_lot(),
        }
    }
}
