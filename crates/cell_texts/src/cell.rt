//! What stands in the cells of a table.
ghost use Rattle.std.specs.Prelude.{◌≡◌};
ghost use Rattle.query_values.specs.declared.value.Value.TheVariants as value;
ghost use Rattle.cell_texts.specs.Cell.{value_of};

use bean_base::{Currency, Day, Slice};
use bean_lots::Key;
use query_values::{Holdings, Lent, TextSet, Value};
use std::marker::Model;

/// A value whose parts are lent from where they are kept.
#[derive(Drop)]
pub enum Shown<'r> {
    Null,
    Truth(bool),
    Number {
        places: u8,
        count: i128,
    },
    Text(Slice<'r>),
    Day(Day),
    Set(Lent<'r, TextSet<'r>>),
    Amount {
        places: u8,
        count: i128,
        currency: Lent<'r, Currency<'r>>,
    },
    Position {
        key: Lent<'r, Key<'r>>,
        count: i128,
    },
    Inventory {
        places: u8,
        held: Holdings<'r, 'r>,
    },
}

/// What stands in a cell: a text, a day or a position, made when the cell is asked for, or any value
/// lent from where it is kept. A value may own an inventory; a cell lends it, so that nothing is
/// copied. Contracts see the value itself.
pub struct Cell<'r> {
    shown: Shown<'r>,
}

/// Written out, so that what gives one up needs to know nothing of what is in it.
impl Drop for Cell<'_> {
    fn drop(self) {
        let Cell { shown: _ } = self;
    }
}

impl<'r> Model for Cell<'r> {
    ghost use Rattle.cell_texts.specs.Cell.{CellValue, value_of};

    ghost Value = { CellValue };

    ghost view = { λ c. value_of c.shown };
}

impl<'r> Cell<'r> {
    /// A cell of this text.
    pub fn text(text: &'r str) -> Cell<'r>
        ensures { result ≡ value.Text text.now }
    {
        Cell {
            shown: Shown::Text(Slice::new(text)),
        }
    }

    /// A cell of this day.
    pub fn day(day: Day) -> Cell<'r>
        ensures { result ≡ value.Day day }
    {
        Cell {
            shown: Shown::Day(day),
        }
    }

    /// A cell of so many units of a key, as a count of `10^-8`.
    pub fn position(key: &'r Key<'r>, count: i128) -> Cell<'r>
        ensures { result ≡ value.Position key.now count }
    {
        Cell {
            shown: Shown::Position {
                key: Lent::new(key),
                count,
            },
        }
    }

    /// A cell of a value that is kept elsewhere.
    pub fn kept<'v>(value: &'r Value<'v>) -> Cell<'r>
        ensures { result ≡ value.now }
    {
        let shown = match value {
            Value::Null => Shown::Null,
            Value::Truth(truth) => Shown::Truth(*truth),
            Value::Number { places, count } => Shown::Number {
                places: *places,
                count: *count,
            },
            Value::Text(text) => Shown::Text(Slice::new(text.text())),
            Value::Day(day) => Shown::Day(*day),
            Value::Set(set) => Shown::Set(Lent::new(set.get())),
            Value::Amount {
                places,
                count,
                currency,
            } => Shown::Amount {
                places: *places,
                count: *count,
                currency: Lent::new(currency.get()),
            },
            Value::Position { key, count } => Shown::Position {
                key: Lent::new(key.get()),
                count: *count,
            },
            Value::Inventory(bag) => Shown::Inventory {
                places: bag.places(),
                held: bag.positions(),
            },
        };
        Cell { shown }
    }

    /// What is shown.
    pub(crate) fn shown(&self) -> &Shown<'r>
        ensures { value_of result.now ≡ self.now }
    {
        &self.shown
    }
}
