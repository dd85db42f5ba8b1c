//! The currencies that an account may hold.
ghost use Rattle.std.specs.Prelude.{◌≡◌, IfOk, List as Items, ℕ};
ghost use Rattle.bean_accounts.specs.Currencies as spec;
ghost use Rattle.bean_accounts.specs.Currencies.{IsTableOf};

use bean_base::{Currency, List};
use indexmap::IndexSet;
use std::alloc::{AllocError, Global};
use std::marker::Model;

/// So few currencies are looked through one by one, with no table beside them.
const FEW: usize = 16;

/// A table of currencies, in which one is found at once.
#[derive(Drop)]
pub(crate) struct CurrencyTable<'a> {
    currencies: IndexSet<Currency<'a>>,
}

impl<'a> CurrencyTable<'a> {
    fn of(alloc: Global, currencies: &[Currency<'a>]) -> Result<CurrencyTable<'a>, AllocError>
        ensures { IfOk result (λ table. (c : Items ℕ)
            → spec.is_in table c ≡ spec.is_listed currencies.now c) }
    {
        let mut table = IndexSet::new(alloc);
        for currency in currencies {
            table.insert(currency.lend())?;
        }
        Ok(CurrencyTable { currencies: table })
    }

    fn has(&self, currency: &Currency<'_>) -> bool
        ensures { result ≡ spec.is_in self.now currency.now }
    {
        self.currencies.contains(currency)
    }
}

/// The currencies that an open lists, in its order.
pub struct Currencies<'a> {
    listed: List<Currency<'a>>,
    /// Which are listed, where these are many.
    table: Option<Box<CurrencyTable<'a>>>,
}

/// Written out, so that what gives one up needs to know nothing of what is in it.
impl Drop for Currencies<'_> {
    fn drop(self) {
        let Currencies {
            listed: _,
            table: _,
        } = self;
    }
}

impl<'a> Model for Currencies<'a> {
    ghost use Rattle.std.specs.Prelude.{List, ℕ};
    ghost use Rattle.bean_accounts.specs.Currencies.{IsTableOf};

    ghost Value = { List (List ℕ) };

    ghost view = { λ c. c.listed };

    ghost invariant = { λ c. IsTableOf c.table c.listed };
}

fn copied<'a>(alloc: Global, currencies: &[Currency<'a>]) -> Result<List<Currency<'a>>, AllocError>
    ensures { IfOk result (λ copied. copied ≡ currencies.now) }
{
    let mut copied = Vec::new(alloc);
    for currency in currencies {
        copied.push(currency.lend())?;
    }
    Ok(List::new(copied))
}

/// The table of currencies, where they are many.
fn table_of<'a>(
    alloc: Global,
    currencies: &[Currency<'a>],
) -> Result<Option<Box<CurrencyTable<'a>>>, AllocError>
    ensures { IfOk result (λ table. IsTableOf table currencies.now) }
{
    if currencies.len() <= FEW {
        return Ok(None);
    }
    let table = CurrencyTable::of(alloc, currencies)?;
    Ok(Some(Box::new(alloc, table)?))
}

fn is_among(currencies: &[Currency<'_>], currency: &Currency<'_>) -> bool
    ensures { result ≡ spec.is_listed currencies.now currency.now }
{
    currencies.iter().any(|listed| *listed == *currency)
}

impl<'a> Currencies<'a> {
    /// These currencies.
    pub(crate) fn new(
        alloc: Global,
        currencies: &[Currency<'a>],
    ) -> Result<Currencies<'a>, AllocError>
        ensures { IfOk result (λ listed. listed ≡ currencies.now) }
    {
        Ok(Currencies {
            listed: copied(alloc, currencies)?,
            table: table_of(alloc, currencies)?,
        })
    }

    /// Whether none is listed.
    pub(crate) fn is_empty(&self) -> bool
        ensures { result ≡ spec.is_empty self.now }
    {
        self.listed.as_slice().is_empty()
    }

    /// Whether a currency is listed.
    pub(crate) fn is_listed(&self, currency: &Currency<'_>) -> bool
        ensures { result ≡ spec.is_listed self.now currency.now }
    {
        match &self.table {
            Some(table) => table.has(currency),
            None => is_among(self.listed.as_slice(), currency),
        }
    }
}
