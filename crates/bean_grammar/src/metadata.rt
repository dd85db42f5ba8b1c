//! Metadata: entries of a key and a value.
ghost use Rattle.std.specs.Prelude.{◌≡◌};

use crate::names::{MetaKey, Tag};
use bean_base::{Account, Amount, Currency, Day, Num, Text};

/// The value of a metadata entry, or of a custom directive, which has no `Nothing`.
#[derive(Drop)]
pub enum Value<'a> {
    Nothing,
    Text(Text<'a>),
    Account(Account<'a>),
    Day(Day),
    Currency(Currency<'a>),
    Tag(Tag<'a>),
    Truth(bool),
    Number(Num),
    Amount(Amount<'a>),
}

impl<'a> Value<'a> {
    /// The same value once more.
    pub fn lend(&self) -> Value<'a>
        ensures { result ≡ self.now }
    {
        match self {
            Value::Nothing => Value::Nothing,
            Value::Text(text) => Value::Text(text.lend()),
            Value::Account(account) => Value::Account(account.lend()),
            Value::Day(day) => Value::Day(*day),
            Value::Currency(currency) => Value::Currency(currency.lend()),
            Value::Tag(tag) => Value::Tag(tag.lend()),
            Value::Truth(truth) => Value::Truth(*truth),
            Value::Number(number) => Value::Number(*number),
            Value::Amount(amount) => Value::Amount(amount.lend()),
        }
    }
}

/// A metadata entry.
#[derive(Drop)]
pub struct MetaEntry<'a> {
    pub key: MetaKey<'a>,
    pub value: Value<'a>,
}

impl<'a> MetaEntry<'a> {
    /// The same entry once more.
    pub fn lend(&self) -> MetaEntry<'a>
        ensures { result ≡ self.now }
    {
        MetaEntry {
            key: self.key.lend(),
            value: self.value.lend(),
        }
    }
}
