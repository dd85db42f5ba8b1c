//! Comparisons of values.
ghost use Rattle.std.specs.Prelude.{◌≡◌, ◌&&◌, ℤ};
ghost use Rattle.std.specs.Ordering.{int_eq};
ghost use Rattle.std.specs.Cmp.{IsEquivalence, IsTotalOrder};
ghost use Rattle.std.specs.Cmp.Lexicographic.{pointwise};
ghost use Rattle.std.specs.List.{list_all};
ghost use Rattle.bean_lots.specs.Lot.{same_key, same_text};
ghost use Rattle.query_values.specs.Equality.{same};
ghost use Rattle.query_values.specs.Equality as spec;
ghost use Rattle.query_values.specs.Order.{is_at_most, is_less, order_of};
ghost use Rattle.query_values.specs.Order as order_spec;
ghost use Rattle.query_values.specs.Operation as operation;

pub use crate::number::compare_numbers;
use crate::number::same_number;
use crate::value::Value;
use bean_base::Slice;
use bean_lots::Key;
use query_bags::OwnBag;
use query_holdings::{BagKey, Holdings};
use std::cmp::Ordering;

/// Whether it is null.
pub fn is_null(x: &Value<'_>) -> bool
    ensures { result ≡ order_spec.is_null x.now }
{
    matches!(x, Value::Null)
}

/// Whether it is the truth value that is true.
pub fn is_true(x: &Value<'_>) -> bool
    ensures { result ≡ operation.is_true x.now }
{
    matches!(x, Value::Truth(true))
}

/// Whether two lists have the same texts in the same order.
fn same_texts(a: &[Slice<'_>], b: &[Slice<'_>]) -> bool
    ensures { result ≡ pointwise same_text a.now b.now }
{
    a == b
}

/// Whether two inventories have the same count under a key.
fn agree_at(a: &OwnBag<'_>, b: &OwnBag<'_>, key: &BagKey<'_>) -> bool
    ensures { (n : ℤ) → result ≡ spec.agree_at a.now b.now (record { key = key.now; count = n }) }
{
    same_number(a.places(), a.get(key), b.places(), b.get(key))
}

/// Whether two inventories have the same count under each key of some positions.
fn agree_in(a: &OwnBag<'_>, b: &OwnBag<'_>, mut rest: Holdings<'_, '_>) -> bool
    ensures { result ≡ list_all (spec.agree_at a.now b.now) rest.entry }
{
    while let Some((key, _)) = rest.next_held() {
        if !agree_at(a, b, key) {
            return false;
        }
    }
    true
}

fn same_bag(a: &OwnBag<'_>, b: &OwnBag<'_>) -> bool
    ensures { result ≡ spec.same_bag a.now b.now }
{
    agree_in(a, b, a.positions()) && agree_in(a, b, b.positions())
}

/// Whether two positions are the same: so many units of one key.
fn same_position(j: &Key<'_>, m: i128, k: &Key<'_>, n: i128) -> bool
    ensures { result ≡ (same_key j.now k.now && int_eq m n) }
{
    j == k && m == n
}

/// Whether two values are the same. Null is the same as null; numbers, amounts and inventories are
/// told by value, whatever their decimals.
pub fn equal(a: &Value<'_>, b: &Value<'_>) -> bool
    ensures { result ≡ same a.now b.now }
{
    match (a, b) {
        (Value::Null, Value::Null) => true,
        (Value::Truth(a), Value::Truth(b)) => a == b,
        (
            Value::Number {
                places: p,
                count: m,
            },
            Value::Number {
                places: q,
                count: n,
            },
        ) => same_number(*p, *m, *q, *n),
        (Value::Text(a), Value::Text(b)) => a == b,
        (Value::Day(a), Value::Day(b)) => a == b,
        (Value::Set(a), Value::Set(b)) => same_texts(a.get().as_slice(), b.get().as_slice()),
        (
            Value::Amount {
                places: p,
                count: m,
                currency: c,
            },
            Value::Amount {
                places: q,
                count: n,
                currency: d,
            },
        ) => same_number(*p, *m, *q, *n) && c.get() == d.get(),
        (Value::Position { key: j, count: m }, Value::Position { key: k, count: n }) => {
            same_position(j.get(), *m, k.get(), *n)
        }
        (Value::Inventory(a), Value::Inventory(b)) => same_bag(a, b),
        _ => false,
    }
}

/// The place of a value's kind among the kinds.
fn kind_rank(x: &Value<'_>) -> u8
    ensures { result ≡ order_spec.kind_rank x.now }
{
    match x {
        Value::Null => 0,
        Value::Truth(_) => 1,
        Value::Number { .. } => 2,
        Value::Text(_) => 3,
        Value::Day(_) => 4,
        Value::Set(_) => 5,
        Value::Amount { .. } => 6,
        Value::Position { .. } => 7,
        Value::Inventory(_) => 8,
    }
}

/// The order of two values: null first, numbers by value, texts by their bytes, days by their
/// number. Values of other kinds stand in the order of their kinds.
pub fn compare(a: &Value<'_>, b: &Value<'_>) -> Ordering
    ensures { result ≡ order_of a.now b.now }
{
    match (a, b) {
        (
            Value::Number {
                places: p,
                count: m,
            },
            Value::Number {
                places: q,
                count: n,
            },
        ) => compare_numbers(*p, *m, *q, *n),
        (Value::Text(a), Value::Text(b)) => a.cmp(b),
        (Value::Day(a), Value::Day(b)) => a.cmp(b),
        _ => kind_rank(a).cmp(&kind_rank(b)),
    }
}

/// Whether neither is null, and `a` is less than `b`.
pub fn less(a: &Value<'_>, b: &Value<'_>) -> bool
    ensures { result ≡ is_less a.now b.now }
{
    !is_null(a) && !is_null(b) && compare(a, b) == Ordering::Less
}

/// Whether neither is null, and `a` is less than `b` or the same.
pub fn at_most(a: &Value<'_>, b: &Value<'_>) -> bool
    ensures { result ≡ is_at_most a.now b.now }
{
    !is_null(a) && !is_null(b) && compare(b, a) != Ordering::Less
}

/// The order of values is total.
pub fn values_are_in_order()
    ensures { IsTotalOrder order_of }
{}

/// Being the same is an equivalence.
pub fn being_the_same_is_an_equivalence()
    ensures { IsEquivalence same }
{}
