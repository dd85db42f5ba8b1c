//! What is gathered over the values of a group, one input after the other.
ghost use Rattle.std.specs.Prelude.{◌≡◌, [], ◌∷◌, ◌++◌, IfOk, IsTrue, OnOk, OnErr, List};
ghost use Rattle.query_values.specs.Aggregate.{aggregate_of, counted, gathered, summed, with_more};
ghost use Rattle.query_values.specs.Held.{is_held};
ghost use Rattle.query_values.specs.declared.operation.Aggregate.{Aggregate};
ghost use Rattle.query_values.specs.declared.value.Value.{Value};

use crate::comparison::{is_null, less};
use crate::operation::Aggregate;
use crate::value::Value;
use query_bags::{Bag, OwnBag};
use query_holdings::{BagKey, Holding};
use std::alloc::{AllocError, Global};

fn count_one(total: &mut Value<'_>)
    requires { IsTrue (is_held (counted total.old)) }
    ensures { total.new ≡ counted total.old }
{
    if let Value::Number { places, count } = &*total {
        *total = Value::Number {
            places: *places,
            count: *count + 1,
        };
    }
}

fn add_number(total: &mut Value<'_>, number: &Value<'_>)
    requires { IsTrue (is_held (summed total.old number.now)) }
    ensures { total.new ≡ summed total.old number.now }
{
    if let (Value::Number { places, count }, Value::Number { count: more, .. }) = (
        &*total, number,
    ) {
        *total = Value::Number {
            places: *places,
            count: *count + *more,
        };
    }
}

fn add_entry<'r>(total: &mut Value<'r>, entry: &Value<'r>) -> Result<(), AllocError>
    requires { IsTrue (is_held (gathered total.old entry.now)) }
    ensures ok { OnOk result (total.new ≡ gathered total.old entry.now) }
    ensures err { OnErr result (total.new ≡ total.old) }
{
    if let Value::Inventory(bag) = total {
        match entry {
            Value::Amount {
                count,
                currency,
                ..
            } => bag.add(BagKey::bare(currency.lend()), *count)?,
            Value::Position { key, count } => bag.add(BagKey::of(key.get()), *count)?,
            _ => {}
        }
    }
    Ok(())
}

/// Lets copies of an inventory that follow share their keys, where these are few.
pub fn share_keys(total: &mut Value<'_>) -> Result<(), AllocError>
    ensures { total.new ≡ total.old }
{
    match total {
        Value::Inventory(bag) => bag.share_keys(),
        _ => Ok(()),
    }
}

fn take_place<'r>(total: &mut Value<'r>, value: &Value<'r>) -> Result<(), AllocError>
    ensures ok { OnOk result (total.new ≡ value.now) }
    ensures err { OnErr result (total.new ≡ total.old) }
{
    *total = value.clone()?;
    Ok(())
}

/// The inventory of so many decimals that holds nothing.
fn empty_bag<'r>(alloc: Global, places: u8) -> Result<OwnBag<'r>, AllocError>
    ensures { IfOk result (λ b. b ≡ record { places = places; held = [] }) }
{
    let held = Holding::new(alloc);
    OwnBag::new(alloc, Bag { places, held })
}

impl Aggregate {
    /// What is gathered over no value. An inventory takes memory of its own.
    pub fn start<'r>(self, alloc: Global) -> Result<Value<'r>, AllocError>
        ensures { IfOk result (λ total. total ≡ aggregate_of self []) }
    {
        Ok(match self {
            Aggregate::CountRows | Aggregate::Count => Value::Number {
                places: 0,
                count: 0,
            },
            Aggregate::Sum(places) => Value::Number { places, count: 0 },
            Aggregate::SumInventory(places) => Value::Inventory(empty_bag(alloc, places)?),
            Aggregate::First | Aggregate::Last | Aggregate::Min | Aggregate::Max => Value::Null,
        })
    }

    /// Takes one value more. Null is left out, but where rows are counted.
    pub fn add<'r>(self, total: &mut Value<'r>, value: &Value<'r>) -> Result<(), AllocError>
        requires { IsTrue (is_held (with_more self total.old value.now)) }
        ensures ok { OnOk result (total.new ≡ with_more self total.old value.now) }
        ensures err { OnErr result (total.new ≡ total.old) }
    {
        let takes_place = match self {
            Aggregate::CountRows => {
                count_one(total);
                false
            }
            Aggregate::Count => {
                if !is_null(value) {
                    count_one(total);
                }
                false
            }
            Aggregate::Sum(_) => {
                add_number(total, value);
                false
            }
            Aggregate::SumInventory(_) => {
                add_entry(total, value)?;
                false
            }
            Aggregate::First => is_null(total),
            Aggregate::Last => !is_null(value),
            Aggregate::Min => is_null(total) || less(value, total),
            Aggregate::Max => is_null(total) || less(total, value),
        };
        if takes_place {
            take_place(total, value)?;
        }
        Ok(())
    }
}

/// What is gathered over a list of values is gathered one by one.
pub fn gathered_one_by_one()
    ensures { (a : Aggregate) (xs : List Value) (x : Value)
        → aggregate_of a (xs ++ x ∷ []) ≡ with_more a (aggregate_of a xs) x }
{}
