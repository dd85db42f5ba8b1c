//! Rows as a ledger holds them.
ghost use Rattle.std.specs.Prelude.{◌≡◌, ◌<◌, ◌^◌, ◌*ℤ◌, IfOk, None, ℤ, pos};
ghost use Rattle.std.specs.Int.RustNames.{unsigned_abs};
ghost use Rattle.std.specs.Option.{option_copied};
ghost use Rattle.posting_table.specs.Held.{weight_in};
ghost use Rattle.posting_table.specs.Plain as plain;
ghost use Rattle.posting_table.specs.Rows.{row_of};
ghost use Rattle.query_rows.specs.Row.{text_under};
ghost use Rattle.posting_table.specs.Row as spec;

use crate::beside::{Beside, BesideParts};
use crate::cells::{flag_or_null, price_cell, whole};
use crate::keys::{HeldKey, Keys};
use crate::row::{PlainRow, Row, Weight};
use bean_base::{Account, Amount, Currency, Day, Slice};
use bean_lots::{Key, Position};
use posting_entries::{Entry, EntryFlag, Shared};
use query_terms::Column;
use query_values::{Lent, Value};
use std::alloc::{AllocError, Global};
use std::marker::Model;

/// A row in little memory: the key of its position stands elsewhere, and so does what few rows
/// have. Most postings weigh what their units are, so that a weight is seldom held. Contracts see the
/// row itself.
#[derive(Drop)]
pub struct HeldRow<'a> {
    account: Account<'a>,
    entry: Shared<Entry<'a>>,
    key: Shared<HeldKey<'a>>,
    beside: Beside<'a>,
}

impl<'a> Model for HeldRow<'a> {
    ghost use Rattle.std.specs.Prelude.{◌<◌, ◌^◌};
    ghost use Rattle.std.specs.Int.RustNames.{unsigned_abs};
    ghost use Rattle.posting_table.specs.Held.{weight_in};
    ghost use Rattle.posting_table.specs.declared.row.Row.{Row};

    ghost Value = { Row };

    ghost view = { λ h. record {
      entry = h.entry;
      account = h.account;
      position = record { key = h.key; count = h.beside.count };
      weight = weight_in h.key.currency h.beside.count h.beside.weight;
      price = h.beside.price;
      metadata = h.beside.metadata;
      line = h.beside.line;
      flag = h.beside.flag;
    } };

    ghost invariant = { λ h. unsigned_abs h.beside.count < 10 ^ 20 };
}

/// How much so many units weigh by themselves.
fn weight_by_itself(count: i128) -> i128
    requires { unsigned_abs count < 10 ^ 20 }
    ensures { result ≡ count *ℤ pos (10 ^ 8) }
{
    count * 100_000_000
}

/// What units weigh by themselves.
fn weight_by<'a>(key: &Key<'a>, count: i128) -> Weight<'a>
    requires { unsigned_abs count < 10 ^ 20 }
    ensures { result ≡ weight_in key.now.currency count None }
{
    Weight {
        count: weight_by_itself(count),
        currency: key.currency.lend(),
    }
}

/// The currency of a weight that is held; where none is, that of the units.
fn currency_in<'s, 'a>(weight: Option<&'s Weight<'a>>, key: &'s Key<'a>) -> &'s Currency<'a>
    ensures { (n : ℤ) → result.now
        ≡ (weight_in key.now.currency n (option_copied weight.entry)).currency }
{
    match weight {
        Some(weight) => &weight.currency,
        None => &key.currency,
    }
}

/// A weight, where it isn't that of the units by themselves.
fn weight_beside<'a>(position: &Position<'a>, weight: Weight<'a>) -> Option<Weight<'a>>
    requires { unsigned_abs position.now.count < 10 ^ 20 }
    ensures { weight_in position.now.key.currency position.now.count result ≡ weight.entry }
{
    if weight_by(&position.key, position.count) == weight {
        return None;
    }
    Some(weight)
}

impl<'a> HeldRow<'a> {
    /// The row, whose key is held as others are.
    pub(crate) fn new(
        alloc: Global,
        keys: &mut Keys<'a>,
        row: Row<'a>,
    ) -> Result<HeldRow<'a>, AllocError>
        requires { unsigned_abs row.position.count < 10 ^ 20 }
        ensures { IfOk result (λ held. held ≡ row.entry) }
    {
        let position = row.position;
        let beside = BesideParts {
            count: position.count,
            weight: weight_beside(&position, row.weight),
            price: row.price,
            metadata: row.metadata,
            line: row.line,
            flag: row.flag,
        };
        Ok(HeldRow {
            account: row.account,
            entry: row.entry,
            key: keys.held(alloc, position.key)?,
            beside: Beside::new(alloc, beside)?,
        })
    }

    /// The row, whose key is held as others are.
    pub(crate) fn plain(
        alloc: Global,
        keys: &mut Keys<'a>,
        row: PlainRow<'a>,
    ) -> Result<HeldRow<'a>, AllocError>
        requires { unsigned_abs row.count < 10 ^ 20 }
        ensures { IfOk result (λ held. held ≡ plain.row_of row.entry) }
    {
        Ok(HeldRow {
            account: row.account,
            entry: row.entry,
            key: keys.plain(alloc, row.currency)?,
            beside: Beside::plain(alloc, row.count, row.line)?,
        })
    }

    /// What the row has from its transaction.
    pub(crate) fn entry(&self) -> &Entry<'a>
        ensures { result.now ≡ self.now.entry }
    {
        self.entry.get()
    }

    /// What its own metadata has under a key: none where nothing stands behind it.
    pub fn meta(&self, key: &str) -> Option<&str>
        ensures { option_copied result ≡ text_under key.now (row_of self.now).posting_entries }
    {
        self.beside.text_under(key)
    }

    /// What the metadata of its transaction has under a key.
    pub fn entry_meta(&self, key: &str) -> Option<&str>
        ensures { option_copied result ≡ text_under key.now (row_of self.now).transaction_entries }
    {
        self.entry().metadata().text_under(key)
    }

    /// The day of its transaction.
    pub fn date(&self) -> Day
        ensures { result ≡ self.now.entry.date }
    {
        self.entry().date()
    }

    /// How its transaction is marked.
    pub fn flag(&self) -> EntryFlag
        ensures { result ≡ self.now.entry.flag }
    {
        self.entry().flag()
    }

    /// The account.
    pub fn account(&self) -> &Account<'a>
        ensures { result.now ≡ self.now.account }
    {
        &self.account
    }

    /// How many units the posting has, as a count of `10^-8`.
    pub fn count(&self) -> i128
        ensures { result ≡ self.now.position.count }
    {
        self.beside.count()
    }

    /// What its units are held as.
    pub fn key(&self) -> &Key<'a>
        ensures { result.now ≡ self.now.position.key }
    {
        self.key.get().key()
    }

    /// How much the posting weighs, as a count of `10^-16`.
    pub(crate) fn weight_count(&self) -> i128
        ensures { result ≡ self.now.weight.count }
    {
        match self.beside.weight() {
            Some(weight) => weight.count,
            None => weight_by_itself(self.count()),
        }
    }

    /// The currency of what the posting weighs.
    fn weight_currency(&self) -> &Currency<'a>
        ensures { result.now ≡ self.now.weight.currency }
    {
        currency_in(self.beside.weight(), self.key())
    }

    /// The row's weight as a cell.
    fn weight_cell(&self) -> Value<'_>
        ensures { result ≡ spec.cell_at self.now Column.Weight }
    {
        Value::Amount {
            places: 16,
            count: self.weight_count(),
            currency: Lent::new(self.weight_currency()),
        }
    }

    /// What a unit of the posting is priced at.
    pub(crate) fn price(&self) -> Option<&Amount<'a>>
        ensures { option_copied result ≡ self.now.price }
    {
        self.beside.price()
    }

    /// What the row has in a column, lent from it; of its balance it knows nothing.
    #[inline(always)]
    pub fn cell(&self, column: Column) -> Value<'_>
        ensures { result ≡ (row_of self.now).cell column }
    {
        match column {
            Column::Account => Value::Text(Slice::new(self.account.text())),
            Column::PostingFlag => flag_or_null(self.beside.flag()),
            Column::Number => Value::Number {
                places: 8,
                count: self.count(),
            },
            Column::Currency => Value::Text(Slice::new(self.key().currency.text())),
            Column::CostNumber | Column::CostCurrency | Column::CostDate => {
                self.key.get().cost_cell(column)
            }
            Column::CostLabel => self.key.get().label_cell(),
            Column::Position => Value::Position {
                key: Lent::new(self.key()),
                count: self.count(),
            },
            Column::Weight => self.weight_cell(),
            Column::Balance => Value::Null,
            Column::Lineno => whole(self.beside.line()),
            Column::Price => price_cell(self.price()),
            _ => self.entry().cell(column),
        }
    }
}
