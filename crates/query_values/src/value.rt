//! The values that queries compute and that stand in the cells of tables.
ghost use Rattle.std.specs.Prelude.{◌≡◌, IfOk, IsTrue};
ghost use Rattle.query_values.specs.Arithmetic.{negative_of};
ghost use Rattle.query_values.specs.Held.{is_held};

use crate::text_set::TextSet;
use bean_base::{Currency, Day, Slice};
use bean_lots::Key;
use query_bags::OwnBag;
use query_holdings::Lent;
use std::alloc::AllocError;

/// A value, in 32 bytes. Names, texts, sets and keys are lent from where they are kept.
///
/// Its numbers are `count * 10^-places`; those of positions count `10^-8`.
pub enum Value<'r> {
    Null,
    Truth(bool),
    Number {
        places: u8,
        count: i128,
    },
    Text(Slice<'r>),
    Day(Day),
    Set(Lent<'r, TextSet<'r>>),
    // Fields lie as they stand here: so this one takes no more than the others.
    Amount {
        places: u8,
        currency: Lent<'r, Currency<'r>>,
        count: i128,
    },
    Position {
        key: Lent<'r, Key<'r>>,
        count: i128,
    },
    Inventory(OwnBag<'r>),
}

/// Written out, so that what gives one up needs to know nothing of what is in it. Of all kinds an
/// inventory alone has memory to give back, and is a call.
impl Drop for Value<'_> {
    #[inline(always)]
    fn drop(self) {
        match self {
            Value::Null => {}
            Value::Truth(_) => {}
            Value::Number {
                places: _,
                count: _,
            } => {}
            Value::Text(_) => {}
            Value::Day(_) => {}
            Value::Set(_) => {}
            Value::Amount {
                places: _,
                currency: _,
                count: _,
            } => {}
            Value::Position { key: _, count: _ } => {}
            Value::Inventory(_) => {}
        }
    }
}

impl<'r> Value<'r> {
    /// The same value once more, where an inventory is only gone through and not compared with another.
    pub fn listed(&self) -> Result<Value<'r>, AllocError>
        ensures { IfOk result (λ copy. copy ≡ self.now) }
    {
        match self {
            Value::Inventory(bag) => Ok(Value::Inventory(bag.listed()?)),
            other => other.clone(),
        }
    }

    /// The value of the other sign; of null it is null.
    pub fn negated(self) -> Value<'r>
        requires { IsTrue (is_held (negative_of self)) }
        ensures { result ≡ negative_of self.entry }
    {
        match self {
            Value::Number { places, count } => Value::Number {
                places,
                count: -count,
            },
            Value::Amount {
                places,
                count,
                currency,
            } => Value::Amount {
                places,
                count: -count,
                currency,
            },
            Value::Position { key, count } => Value::Position { key, count: -count },
            Value::Inventory(bag) => Value::Inventory(bag.negated()),
            Value::Null => Value::Null,
            Value::Truth(_) => Value::Null,
            Value::Text(_) => Value::Null,
            Value::Day(_) => Value::Null,
            Value::Set(_) => Value::Null,
        }
    }
}

/// Null.
impl Default for Value<'_> {
    fn default() -> Self {
        Value::Null
    }
}

impl Clone for Value<'_> {
    ghost is_clone = { λ a b. b ≡ a };

    fn clone(&self) -> Result<Self, AllocError> {
        Ok(match self {
            Value::Null => Value::Null,
            Value::Truth(truth) => Value::Truth(*truth),
            Value::Number { places, count } => Value::Number {
                places: *places,
                count: *count,
            },
            Value::Text(text) => Value::Text(text.lend()),
            Value::Day(day) => Value::Day(*day),
            Value::Set(set) => Value::Set(set.lend()),
            Value::Amount {
                places,
                count,
                currency,
            } => Value::Amount {
                places: *places,
                count: *count,
                currency: currency.lend(),
            },
            Value::Position { key, count } => Value::Position {
                key: key.lend(),
                count: *count,
            },
            Value::Inventory(bag) => Value::Inventory(bag.clone()?),
        })
    }
}
