//! Places by account and currency.
ghost use Rattle.std.specs.Prelude.{◌≡◌};

use bean_base::{Currency, Slice};

/// An account, or a name above one, and a currency.
#[derive(Drop, PartialEq, Eq, Hash)]
pub(crate) struct Slot<'a> {
    pub account: Slice<'a>,
    pub currency: Currency<'a>,
}

impl<'a> Slot<'a> {
    pub fn new(account: &'a str, currency: &Currency<'a>) -> Slot<'a>
        ensures account { result.account ≡ account.now }
        ensures currency { result.currency ≡ currency.now }
    {
        Slot {
            account: Slice::new(account),
            currency: currency.lend(),
        }
    }
}
