//! The shapes of columns.
ghost use Rattle.std.specs.Prelude.{◌≡◌, ◌^◌, ◌-◌, ◌≤◌};
ghost use Rattle.query_rows.specs.ColumnShape as spec;

use crate::rules::whole;
use crate::shape::Shape;
use bean_base::power_of_ten;
use limits::{Bounds, LARGEST_TEXT};
use query_terms::Column;

/// The greatest number of so many digits.
fn most_of(digits: u8) -> u128
    requires { digits ≤ 38 }
    ensures { result ≡ 10 ^ digits - 1 }
{
    power_of_ten(digits).unsigned_abs() - 1
}

/// What is known of a column of each posting.
pub fn column_shape(bounds: &Bounds, column: Column) -> Shape
    requires { spec.AreBounds bounds.now }
    ensures { result ≡ spec.column_shape bounds.now column }
{
    let units = most_of(bounds.units_digits);
    let value = most_of(bounds.value_digits);
    let postings = bounds.postings as u128;
    match column {
        Column::Date | Column::CostDate => Shape::Day,
        Column::Year => whole(9999),
        Column::Month => whole(12),
        Column::Day => whole(31),
        Column::Flag
        | Column::Payee
        | Column::Narration
        | Column::Account
        | Column::PostingFlag
        | Column::Currency
        | Column::CostCurrency
        | Column::CostLabel => Shape::Text,
        Column::Tags | Column::Links | Column::Accounts => Shape::Set,
        Column::Number | Column::CostNumber => Shape::Number {
            places: 8,
            most: units,
        },
        Column::Position => Shape::Position { units, value },
        Column::Weight => Shape::Amount {
            places: 16,
            most: value,
        },
        Column::Balance => Shape::Inventory {
            places: 8,
            units: postings * units,
            value: postings * value,
        },
        Column::Lineno => whole(LARGEST_TEXT as u128),
        Column::Price => Shape::Amount {
            places: 8,
            most: units,
        },
    }
}
