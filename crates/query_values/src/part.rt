//! What a value has in it: the parts of days and accounts, lengths, numbers and currencies, units
//! and costs. Of null they are null.
ghost use Rattle.std.specs.Prelude.{◌≡◌, ◌<◌, IsTrue, IfOk};
ghost use Rattle.query_values.specs.Held.{is_held};
ghost use Rattle.query_values.specs.Operand.{has_cost, has_units};
ghost use Rattle.query_values.specs.Operation.{cost_of, currency_of, length_of, number_of};
ghost use Rattle.query_values.specs.Operation as operation;
ghost use Rattle.query_values.specs.Operation.{unary_value, units_of};
ghost use Rattle.query_holdings.specs.Total.{cost_count, cost_currency, is_count};
ghost use Rattle.query_values.specs.Unary as spec;
ghost use Rattle.query_values.specs.declared.value.Value.TheVariants.{Amount};

use crate::component::{leaf_of, parent_of, rank_of_root, root_of};
use crate::value::Value;
use bean_base::Slice;
use bean_lots::{COUNT_PLACES, Key};
use query_holdings::{BagKey, Lent};
use std::alloc::{AllocError, Global};

/// The decimals of a cost.
const COST_PLACES: u8 = 16;

/// A whole number.
fn whole<'r>(number: usize) -> Value<'r>
    ensures { result ≡ operation.whole number }
{
    Value::Number {
        places: 0,
        count: number as i128,
    }
}

/// The year of a day, a whole number; null of what is no day.
pub fn year<'r>(x: &Value<'_>) -> Value<'r>
    ensures { result ≡ unary_value spec.Year x.now }
{
    match x {
        Value::Day(day) => whole(day.year() as usize),
        _ => Value::Null,
    }
}

/// The month of a day, from 1; null of what is no day.
pub fn month<'r>(x: &Value<'_>) -> Value<'r>
    ensures { result ≡ unary_value spec.Month x.now }
{
    match x {
        Value::Day(day) => whole(day.month() as usize),
        _ => Value::Null,
    }
}

/// The day of its month, from 1; null of what is no day.
pub fn day<'r>(x: &Value<'_>) -> Value<'r>
    ensures { result ≡ unary_value spec.Day x.now }
{
    match x {
        Value::Day(day) => whole(day.day() as usize),
        _ => Value::Null,
    }
}

/// The first components of an account, so many.
pub fn root<'r>(x: &Value<'r>, components: u8) -> Value<'r>
    requires { 0 < components }
    ensures { result ≡ unary_value (spec.Root components) x.now }
{
    match x {
        Value::Text(name) => Value::Text(Slice::new(root_of(name.text(), components as usize))),
        _ => Value::Null,
    }
}

/// All components of an account but the last.
pub fn parent<'r>(x: &Value<'r>) -> Value<'r>
    ensures { result ≡ unary_value spec.Parent x.now }
{
    match x {
        Value::Text(name) => Value::Text(Slice::new(parent_of(name.text()))),
        _ => Value::Null,
    }
}

/// The last component of an account.
pub fn leaf<'r>(x: &Value<'r>) -> Value<'r>
    ensures { result ≡ unary_value spec.Leaf x.now }
{
    match x {
        Value::Text(name) => Value::Text(Slice::new(leaf_of(name.text()))),
        _ => Value::Null,
    }
}

/// The place of an account's root: Assets 0, Liabilities 1, Equity 2, Income 3, Expenses 4, and 5
/// for others.
pub fn root_rank<'r>(x: &Value<'_>) -> Value<'r>
    ensures { result ≡ unary_value spec.RootRank x.now }
{
    match x {
        Value::Text(name) => whole(rank_of_root(name.text()) as usize),
        _ => Value::Null,
    }
}

/// How many characters a text has, or members a set.
pub fn length<'r>(x: &Value<'_>) -> Value<'r>
    ensures { result ≡ length_of x.now }
{
    match x {
        Value::Text(text) => whole(text.text().chars().count()),
        Value::Set(texts) => whole(texts.get().as_slice().len()),
        _ => Value::Null,
    }
}

/// The number of an amount or of a position's units.
pub fn number<'r>(x: &Value<'_>) -> Value<'r>
    ensures { result ≡ number_of x.now }
{
    match x {
        Value::Amount { places, count, .. } => Value::Number {
            places: *places,
            count: *count,
        },
        Value::Position { count, .. } => Value::Number {
            places: COUNT_PLACES,
            count: *count,
        },
        _ => Value::Null,
    }
}

/// The currency of an amount or of a position's units.
pub fn currency<'r>(x: &Value<'r>) -> Value<'r>
    ensures { result ≡ currency_of x.now }
{
    match x {
        Value::Amount { currency, .. } => Value::Text(Slice::new(currency.get().text())),
        Value::Position { key, .. } => Value::Text(Slice::new(key.get().currency.text())),
        _ => Value::Null,
    }
}

/// A position or an inventory without its lots.
pub fn units<'r>(alloc: Global, x: &Value<'r>) -> Result<Value<'r>, AllocError>
    requires applies { IsTrue (has_units x.now) }
    ensures { IfOk result (λ y. y ≡ units_of x.now) }
{
    Ok(match x {
        Value::Position { key, count } => Value::Amount {
            places: COUNT_PLACES,
            count: *count,
            currency: Lent::new(&key.get().currency),
        },
        Value::Inventory(bag) => Value::Inventory(bag.units(alloc)?),
        _ => Value::Null,
    })
}

fn cost_of_units<'r>(key: &BagKey<'r>, count: i128) -> Value<'r>
    requires { IsTrue (is_count (cost_count key.now.lot count)) }
    ensures { result ≡ Amount 16 (cost_currency key.now) (cost_count key.now.lot count) }
{
    Value::Amount {
        places: COST_PLACES,
        count: key.count_at_cost(count),
        currency: Lent::new(key.currency_at_cost()),
    }
}

/// What a position or an inventory cost. Units without a lot are kept.
pub fn cost<'r>(alloc: Global, x: &Value<'r>) -> Result<Value<'r>, AllocError>
    requires applies { IsTrue (has_cost x.now) }
    requires held { IsTrue (is_held (cost_of x.now)) }
    ensures { IfOk result (λ y. y ≡ cost_of x.now) }
{
    Ok(match x {
        Value::Position { key, count } => cost_of_units(&BagKey::of(key.get()), *count),
        Value::Inventory(bag) => Value::Inventory(bag.cost(alloc)?),
        _ => Value::Null,
    })
}
