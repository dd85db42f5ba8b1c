//! The keys of positions, as a ledger holds them.
ghost use Rattle.std.specs.Prelude.{◌≡◌, IfOk, IfSome};
ghost use Rattle.posting_table.specs.Cells.{lot_cell};
ghost use Rattle.posting_table.specs.Plain.{without_lot};
ghost use Rattle.posting_table.specs.Row as spec;
ghost use Rattle.query_rows.specs.Row.{text_or_null};

use crate::cells::lot_cell;
use bean_base::{Currency, Slice};
use bean_lots::{Key, Lot};
use indexmap::IndexMap;
use posting_entries::{PlainText, Shared};
use query_terms::Column;
use query_values::Value;
use std::alloc::{AllocError, Global};
use std::marker::Model;

/// The key of a position, with what the label of its lot stands for.
#[derive(Drop)]
pub(crate) struct HeldKey<'a> {
    key: Key<'a>,
    label: Option<PlainText<'a>>,
}

impl<'a> Model for HeldKey<'a> {
    ghost use Rattle.std.specs.Prelude.{◌≡◌};
    ghost use Rattle.bean_lots.specs.declared.lot.Key.{Key};
    ghost use Rattle.posting_table.specs.Row as spec;

    ghost Value = { Key };

    ghost view = { λ h. h.key };

    ghost invariant = { λ h. h.label ≡ spec.label_of h.key.lot };
}

/// What the label of a lot stands for.
fn label_of<'a>(alloc: Global, lot: &Option<Lot<'a>>) -> Result<Option<PlainText<'a>>, AllocError>
    ensures { IfOk result (λ label. label ≡ spec.label_of lot.now) }
{
    match lot {
        Some(
            Lot {
                label: Some(label),
                ..
            },
        ) => Ok(Some(PlainText::of(alloc, label)?)),
        _ => Ok(None),
    }
}

impl<'a> HeldKey<'a> {
    /// The key, with its label made plain, held once so far.
    fn shared(alloc: Global, key: Key<'a>) -> Result<Shared<HeldKey<'a>>, AllocError>
        ensures { IfOk result (λ held. held ≡ key.entry) }
    {
        let label = label_of(alloc, &key.lot)?;
        Shared::new(alloc, HeldKey { key, label })
    }

    /// The key.
    pub(crate) fn key(&self) -> &Key<'a>
        ensures { result.now ≡ self.now }
    {
        &self.key
    }

    /// What a column of lots has of it.
    pub(crate) fn cost_cell(&self, column: Column) -> Value<'_>
        ensures { result ≡ spec.of_lot (λ lot. lot_cell lot column) self.now.lot }
    {
        match &self.key.lot {
            Some(lot) => lot_cell(lot, column),
            None => Value::Null,
        }
    }

    /// The label of its lot, or null.
    pub(crate) fn label_cell(&self) -> Value<'_>
        ensures { result ≡ text_or_null (spec.label_of self.now.lot) }
    {
        match &self.label {
            Some(label) => Value::Text(Slice::new(label.as_str())),
            None => Value::Null,
        }
    }
}

/// A key that is held, where it is that of a currency without a lot.
#[inline(always)]
fn of_currency<'s, 'a>(
    held: &'s Shared<HeldKey<'a>>,
    currency: &Currency<'_>,
) -> Option<&'s Shared<HeldKey<'a>>>
    ensures { IfSome result (λ held. held.now ≡ without_lot currency.now) }
{
    let key = held.get().key();
    if key.lot.is_none() && key.currency == *currency {
        return Some(held);
    }
    None
}

/// How many currencies are compared one by one before any is hashed: most ledgers have few.
const FEW: usize = 4;

/// The keys of currencies without a lot, each of which stands once for all rows of the currency.
#[derive(Drop)]
pub(crate) struct Keys<'a> {
    plain: IndexMap<Currency<'a>, Shared<HeldKey<'a>>>,
    /// The place of the one that was asked for last.
    near: usize,
}

impl<'a> Keys<'a> {
    /// No keys. Takes no memory.
    pub(crate) fn new(alloc: Global) -> Keys<'a> {
        Keys {
            plain: IndexMap::new(alloc),
            near: 0,
        }
    }

    /// The key of a currency, where it stands at that place.
    #[inline(always)]
    fn at(&self, place: usize, currency: &Currency<'_>) -> Option<&Shared<HeldKey<'a>>>
        ensures { IfSome result (λ held. held.now ≡ without_lot currency.now) }
    {
        let (_, held) = self.plain.get_index(place)?;
        of_currency(held, currency)
    }

    /// Where the key of a currency stands, if it does.
    fn place_of(&self, currency: &Currency<'a>) -> Option<usize> {
        for place in 0..FEW {
            if self.at(place, currency).is_some() {
                return Some(place);
            }
        }
        self.plain.get_index_of(currency)
    }

    /// Keeps the key of a currency for later rows.
    fn keep(
        &mut self,
        alloc: Global,
        currency: Currency<'a>,
    ) -> Result<Shared<HeldKey<'a>>, AllocError>
        ensures { IfOk result (λ held. held ≡ without_lot currency.entry) }
    {
        let key = Key {
            currency: currency.lend(),
            lot: None,
        };
        let held = HeldKey::shared(alloc, key)?;
        self.plain.insert(currency, held.share()?)?;
        Ok(held)
    }

    /// The key of a currency that wasn't the last one, as it is held.
    #[inline(never)]
    fn found(
        &mut self,
        alloc: Global,
        currency: Currency<'a>,
    ) -> Result<Shared<HeldKey<'a>>, AllocError>
        ensures { IfOk result (λ held. held ≡ without_lot currency.entry) }
    {
        let Some(place) = self.place_of(&currency) else {
            self.near = self.plain.len();
            return self.keep(alloc, currency);
        };
        self.near = place;
        if let Some(known) = self.at(place, &currency) {
            return known.share();
        }
        self.keep(alloc, currency)
    }

    /// The key of a currency without a lot, as it is held.
    pub(crate) fn plain(
        &mut self,
        alloc: Global,
        currency: Currency<'a>,
    ) -> Result<Shared<HeldKey<'a>>, AllocError>
        ensures { IfOk result (λ held. held ≡ without_lot currency.entry) }
    {
        // The postings of a transaction are mostly of one currency.
        if let Some(last) = self.at(self.near, &currency) {
            return last.share();
        }
        self.found(alloc, currency)
    }

    /// The key as it is held: one of a lot stands by itself.
    pub(crate) fn held(
        &mut self,
        alloc: Global,
        key: Key<'a>,
    ) -> Result<Shared<HeldKey<'a>>, AllocError>
        ensures { IfOk result (λ held. held ≡ key.entry) }
    {
        if key.lot.is_some() {
            return HeldKey::shared(alloc, key);
        }
        self.plain(alloc, key.currency)
    }
}
