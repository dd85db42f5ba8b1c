//! What is known of an account.
ghost use Rattle.std.specs.Prelude.{◌≡◌, false, IfOk};
ghost use Rattle.bean_accounts.specs.Life as spec;

use crate::currencies::Currencies;
use bean_base::Currency;
use std::alloc::{AllocError, Global};

/// What is known of an account once it is opened.
#[derive(Drop)]
pub struct Life<'a> {
    /// The currencies that it may hold: all where none is listed.
    pub currencies: Currencies<'a>,
    pub is_closed: bool,
}

impl<'a> Life<'a> {
    /// An account that is opened with these currencies.
    pub(crate) fn new(alloc: Global, currencies: &[Currency<'a>]) -> Result<Life<'a>, AllocError>
        ensures { IfOk result (λ life. life ≡ spec.opened currencies.now) }
    {
        Ok(Life {
            currencies: Currencies::new(alloc, currencies)?,
            is_closed: false,
        })
    }

    /// Whether the account may hold a currency.
    pub fn allows(&self, currency: &Currency<'_>) -> bool
        ensures { result ≡ spec.allows self.now currency.now }
    {
        self.currencies.is_empty() || self.currencies.is_listed(currency)
    }
}
