//! Cells, and what the parts of a row have in their columns.
ghost use Rattle.std.specs.Prelude.{◌≡◌};
ghost use Rattle.std.specs.Option.{option_copied};
ghost use Rattle.posting_table.specs.Cells as spec;
ghost use Rattle.posting_table.specs.Row as row_spec;
ghost use Rattle.posting_table.specs.Row.{price_or_null};
ghost use Rattle.query_values.specs.Operation as operation;

use bean_base::{Amount, Flag, Slice};
use bean_lots::Lot;
use query_terms::Column;
use query_values::{Lent, Value};

/// A whole number.
pub(crate) fn whole<'r>(number: usize) -> Value<'r>
    ensures { result ≡ operation.whole number }
{
    Value::Number {
        places: 0,
        count: number as i128,
    }
}

/// A flag, or null where there is none.
pub(crate) fn flag_or_null<'r>(flag: Option<Flag>) -> Value<'r>
    ensures { result ≡ row_spec.flag_or_null flag }
{
    match flag {
        Some(flag) => Value::Text(Slice::new(flag.spelling())),
        None => Value::Null,
    }
}

/// A price, or null where there is none.
pub(crate) fn price_cell<'r>(price: Option<&'r Amount<'_>>) -> Value<'r>
    ensures { result ≡ price_or_null (option_copied price.entry) }
{
    match price {
        Some(price) => Value::Amount {
            places: 8,
            count: price.number.scaled(8),
            currency: Lent::new(&price.currency),
        },
        None => Value::Null,
    }
}

/// What a lot has in one of its columns but that of its label; null in any other.
pub(crate) fn lot_cell<'r>(lot: &'r Lot<'_>, column: Column) -> Value<'r>
    ensures { result ≡ spec.lot_cell lot.now column }
{
    match column {
        Column::CostNumber => Value::Number {
            places: 8,
            count: lot.cost.count,
        },
        Column::CostCurrency => Value::Text(Slice::new(lot.cost.currency.text())),
        Column::CostDate => Value::Day(lot.day),
        _ => Value::Null,
    }
}
