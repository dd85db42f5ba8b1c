//! How many lots of each currency are held with a count above 0, and how many with one below.
ghost use Rattle.std.specs.Prelude.{◌≡◌, ◌+◌, ◌≤◌, ◌<◌, ◌^◌, List, ℕ, OnOk, OnErr, if◌then◌else◌, true};
ghost use Rattle.std.specs.Option.{is_some};
ghost use Rattle.bean_lots.specs.Inventory as inventory;
ghost use Rattle.bean_lots.specs.Lot.{same_text};
ghost use Rattle.bean_inventories.specs.Recount.{AreFew, IsCounted, IsRecounted};
ghost use Rattle.bean_inventories.specs.Signs as spec;
ghost use Rattle.bean_inventories.specs.Signs.{no_signs, signs_at};

use bean_base::Currency;
use bean_lots::Key;
use indexmap::IndexMap;
use std::alloc::{AllocError, Global};

/// How many lots of a currency are held with a count above 0, and how many with one below.
#[derive(Clone, Copy, Drop, PartialEq, Eq)]
pub struct Signs {
    pub long: usize,
    pub short: usize,
}

impl Signs {
    /// No lots.
    pub(crate) fn none() -> Signs
        ensures { result ≡ no_signs }
    {
        Signs { long: 0, short: 0 }
    }

    /// How many have the sign opposite to the want. None has where 0 is wanted.
    pub fn against(self, want: i128) -> usize
        ensures { result ≡ spec.against want self.long self.short }
    {
        if want < 0 {
            self.long
        } else if want > 0 {
            self.short
        } else {
            0
        }
    }

    /// What they are once the count of a lot becomes another.
    pub fn changed(self, before: i128, after: i128) -> Signs
        requires long { inventory.as_long before ≤ self.long }
        requires short { inventory.as_short before ≤ self.short }
        requires few_long { self.long < 2 ^ 63 }
        requires few_short { self.short < 2 ^ 63 }
        ensures long { result.long + inventory.as_long before
            ≡ self.long + inventory.as_long after }
        ensures short { result.short + inventory.as_short before
            ≡ self.short + inventory.as_short after }
    {
        Signs {
            long: self.long - as_long(before) + as_long(after),
            short: self.short - as_short(before) + as_short(after),
        }
    }
}

fn as_long(count: i128) -> usize
    ensures { result ≡ inventory.as_long count }
{
    if count > 0 { 1 } else { 0 }
}

fn as_short(count: i128) -> usize
    ensures { result ≡ inventory.as_short count }
{
    if count < 0 { 1 } else { 0 }
}

/// The key of a currency of which lots were held.
#[derive(Drop, PartialEq, Eq, Hash)]
pub(crate) struct LotCurrency<'a> {
    currency: Currency<'a>,
}

/// The signs of the lots of each currency. A currency that isn't there has no lots.
#[derive(Drop)]
pub(crate) struct SignTable<'a> {
    by_currency: IndexMap<LotCurrency<'a>, Signs>,
}

impl<'a> SignTable<'a> {
    /// No lots. Takes no memory.
    pub(crate) fn new(alloc: Global) -> SignTable<'a>
        ensures { (c : List ℕ) → signs_at result c ≡ no_signs }
    {
        SignTable {
            by_currency: IndexMap::new(alloc),
        }
    }

    /// The signs of the lots of a currency.
    pub(crate) fn of(&self, currency: &Currency<'_>) -> Signs
        ensures { result ≡ signs_at self.now currency.now }
    {
        let key = LotCurrency {
            currency: currency.lend(),
        };
        self.by_currency.get(&key).copied().unwrap_or(Signs::none())
    }

    fn set(&mut self, currency: Currency<'a>, signs: Signs) -> Result<(), AllocError>
        ensures ok { OnOk result ((c : List ℕ) → signs_at self.new c
            ≡ (if same_text currency.entry c then signs else signs_at self.old c)) }
        ensures err { OnErr result ((c : List ℕ) → signs_at self.new c ≡ signs_at self.old c) }
    {
        self.by_currency.insert(LotCurrency { currency }, signs)?;
        Ok(())
    }

    /// Counts the lot of a key, of which the count becomes another.
    pub(crate) fn recount(
        &mut self,
        key: &Key<'a>,
        before: i128,
        after: i128,
    ) -> Result<(), AllocError>
        requires lot { is_some key.now.lot ≡ true }
        requires counted { IsCounted (signs_at self.old) key.now before }
        requires few { AreFew (signs_at self.old) }
        ensures ok { OnOk result
            (IsRecounted (signs_at self.old) key.now before after (signs_at self.new)) }
        ensures err { OnErr result ((c : List ℕ) → signs_at self.new c ≡ signs_at self.old c) }
    {
        let signs = self.of(&key.currency).changed(before, after);
        self.set(key.currency.lend(), signs)
    }
}
