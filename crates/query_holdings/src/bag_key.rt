//! What units in a bag are held as.
ghost use Rattle.std.specs.Prelude.{◌≡◌, IsTrue};
ghost use Rattle.std.proofs.Common.{ap};
ghost use Rattle.std.specs.Cmp.{partial_equiv_from_equiv};
ghost use Rattle.std.specs.Option.{option_cmp, option_copied, option_eq};
ghost use Rattle.bean_lots.proofs.LotFacts.{same_key_Decides, same_key_equiv};
ghost use Rattle.bean_lots.specs.Lot.{key_order, lot_order, same_key, same_lot, text_order};
ghost use Rattle.query_holdings.specs.BagKey.{key_fed};
ghost use Rattle.query_holdings.specs.Total.{bare_key, cost_count, cost_currency, is_count};

use crate::lent::Lent;
use bean_base::Currency;
use bean_lots::{Key, Lot};
use key_counts::Lend;
use std::cmp::Ordering;
use std::hash::{Hash, Hasher};
use std::marker::Model;

/// What units in a bag are held as: a currency, in a lot or without one. Both are lent from where they
/// are kept, so that a bag is copied in few bytes. Contracts see the key itself.
#[derive(Drop)]
pub struct BagKey<'r> {
    currency: Lent<'r, Currency<'r>>,
    lot: Option<Lent<'r, Lot<'r>>>,
}

impl<'r> Model for BagKey<'r> {
    ghost use Rattle.bean_lots.specs.declared.lot.Key.{Key};

    ghost Value = { Key };

    ghost view = { λ k. record { currency = k.currency; lot = k.lot } };
}

/// Whether two lots are the same.
fn same_lots(a: &Option<Lent<'_, Lot<'_>>>, b: &Option<Lent<'_, Lot<'_>>>) -> bool
    ensures { result ≡ option_eq same_lot a.now b.now }
{
    match (a, b) {
        (None, None) => true,
        (Some(a), Some(b)) => a.get() == b.get(),
        _ => false,
    }
}

/// The order of two currencies. Most begin with different letters: these are looked at first.
#[inline(always)]
fn compare_currencies(a: &Currency<'_>, b: &Currency<'_>) -> Ordering
    ensures { result ≡ text_order a.now b.now }
{
    match (a.text().as_bytes(), b.text().as_bytes()) {
        ([x, ..], [y, ..]) if *x != *y => x.cmp(y),
        _ => a.cmp(b),
    }
}

/// The order of two lots, none first.
fn compare_lots(a: &Option<Lent<'_, Lot<'_>>>, b: &Option<Lent<'_, Lot<'_>>>) -> Ordering
    ensures { result ≡ option_cmp lot_order a.now b.now }
{
    match (a, b) {
        (None, None) => Ordering::Equal,
        (None, Some(_)) => Ordering::Less,
        (Some(_), None) => Ordering::Greater,
        (Some(a), Some(b)) => a.get().cmp(b.get()),
    }
}

impl<'r> BagKey<'r> {
    /// Units of a currency without a lot.
    pub fn bare(currency: Lent<'r, Currency<'r>>) -> BagKey<'r>
        ensures { result ≡ bare_key currency.entry }
    {
        BagKey {
            currency,
            lot: None,
        }
    }

    /// This key, lent.
    pub fn of(key: &'r Key<'r>) -> BagKey<'r>
        ensures { result ≡ key.now }
    {
        BagKey {
            currency: Lent::new(&key.currency),
            lot: match &key.lot {
                Some(lot) => Some(Lent::new(lot)),
                None => None,
            },
        }
    }

    /// The key itself.
    pub fn key(&self) -> Key<'r>
        ensures { result ≡ self.now }
    {
        Key {
            currency: self.currency.get().lend(),
            lot: match &self.lot {
                Some(lot) => Some(lot.get().lend()),
                None => None,
            },
        }
    }

    /// The currency.
    pub fn currency(&self) -> &'r Currency<'r>
        ensures { result.now ≡ self.now.currency }
    {
        self.currency.get()
    }

    /// The lot.
    pub fn lot(&self) -> Option<&'r Lot<'r>>
        ensures { option_copied result ≡ self.now.lot }
    {
        match &self.lot {
            Some(lot) => Some(lot.get()),
            None => None,
        }
    }

    /// The order of two keys: by currency, then by lot, none first.
    pub(crate) fn compare(&self, other: &BagKey<'_>) -> Ordering
        ensures { result ≡ key_order self.now other.now }
    {
        match compare_currencies(self.currency.get(), other.currency.get()) {
            Ordering::Equal => compare_lots(&self.lot, &other.lot),
            unequal => unequal,
        }
    }

    /// The currency of what its units cost; without a lot, their own.
    pub fn currency_at_cost(&self) -> &'r Currency<'r>
        ensures { result.now ≡ cost_currency self.now }
    {
        match &self.lot {
            Some(lot) => &lot.get().cost.currency,
            None => self.currency.get(),
        }
    }

    /// What so many of its units cost, with 8 decimals more; without a lot, the units themselves.
    pub fn count_at_cost(&self, count: i128) -> i128
        requires { IsTrue (is_count (cost_count self.now.lot count)) }
        ensures { result ≡ cost_count self.now.lot count }
    {
        match &self.lot {
            Some(lot) => count * lot.get().cost.count,
            None => count * 100_000_000,
        }
    }
}

impl Lend for BagKey<'_> {
    fn lend(&self) -> Self {
        BagKey {
            currency: self.currency.lend(),
            lot: match &self.lot {
                Some(lot) => Some(lot.lend()),
                None => None,
            },
        }
    }
}

impl PartialEq for BagKey<'_> {
    ghost eq = { same_key };

    ghost laws = { partial_equiv_from_equiv same_key_equiv };

    fn eq(&self, other: &Self) -> bool {
        self.currency.get() == other.currency.get() && same_lots(&self.lot, &other.lot)
    }
}

impl Eq for BagKey<'_> {
    ghost laws = { same_key_equiv };
}

/// Lots are told by their cost's number and their day, which few have in common.
impl Hash for BagKey<'_> {
    ghost hash_input = { key_fed };

    ghost respects_eq = { λ a b same. ap key_fed ((same_key_Decides a b).0 same) };

    fn hash<H: Hasher>(&self, state: &mut H) {
        self.currency.get().hash(state);
        if let Some(lot) = &self.lot {
            lot.get().cost.count.hash(state);
            lot.get().day.number().hash(state);
        }
    }
}
