//! Which shape an operation gives.
ghost use Rattle.std.specs.Prelude.{◌≡◌, ◌+◌, ◌*◌, IsTrue, nat_le};
ghost use Rattle.limits.specs.declared.counts.TheConstants.{MOST_PLACES};
ghost use Rattle.query_rows.specs.Rules as spec;
ghost use Rattle.query_rows.specs.Shape.{is_most};

use crate::shape::{Misfit, Shape, fitting};
use bean_base::power_of_ten;
use limits::{LARGEST_TEXT, MOST_PLACES};
use query_values::{Aggregate, Binary};

/// A whole number of at most so many.
pub fn whole(most: u128) -> Shape
    ensures { result ≡ spec.whole most }
{
    Shape::Number { places: 0, most }
}

/// The sum of two bounds, or one as far beyond all that can be held.
fn sum_of_most(m: u128, n: u128) -> u128
    ensures same { is_most result ≡ is_most (m + n) }
    ensures sum { IsTrue (is_most result) → result ≡ m + n }
{
    m.saturating_add(n)
}

/// The product of two bounds, or one as far beyond all that can be held.
fn product_of_most(m: u128, n: u128) -> u128
    ensures same { is_most result ≡ is_most (m * n) }
    ensures product { IsTrue (is_most result) → result ≡ m * n }
{
    m.saturating_mul(n)
}

/// The decimals of a product, or some as far beyond all that can be held.
fn places_of_both(p: u8, q: u8) -> u8
    ensures same { nat_le result MOST_PLACES ≡ nat_le (p + q) MOST_PLACES }
    ensures sum { IsTrue (nat_le result MOST_PLACES) → result ≡ p + q }
{
    p.saturating_add(q)
}

/// What is given of a truth value.
pub fn of_truth(given: Shape, shape: Shape) -> Result<Shape, Misfit>
    ensures { result ≡ spec.of_truth given shape }
{
    match shape {
        Shape::Truth => Ok(given),
        _ => Err(Misfit::Kind),
    }
}

/// What is given of a text.
pub fn of_text(given: Shape, shape: Shape) -> Result<Shape, Misfit>
    ensures { result ≡ spec.of_text given shape }
{
    match shape {
        Shape::Text => Ok(given),
        _ => Err(Misfit::Kind),
    }
}

/// What is given of a set.
pub fn of_set(given: Shape, shape: Shape) -> Result<Shape, Misfit>
    ensures { result ≡ spec.of_set given shape }
{
    match shape {
        Shape::Set => Ok(given),
        _ => Err(Misfit::Kind),
    }
}

/// What is given of a day.
pub fn of_day(given: Shape, shape: Shape) -> Result<Shape, Misfit>
    ensures { result ≡ spec.of_day given shape }
{
    match shape {
        Shape::Day => Ok(given),
        _ => Err(Misfit::Kind),
    }
}

/// A number with so many decimals.
pub fn aligned(places: u8, shape: Shape) -> Result<Shape, Misfit>
    ensures { result ≡ spec.aligned places shape }
{
    match shape {
        Shape::Number { places: from, most } if from <= places => {
            if places > MOST_PLACES {
                return Err(Misfit::TooWide);
            }
            let unit = power_of_ten(places - from).unsigned_abs();
            let most = product_of_most(most, unit);
            fitting(Shape::Number { places, most })
        }
        _ => Err(Misfit::Kind),
    }
}

/// What has a sign, with the other.
pub fn negated(shape: Shape) -> Result<Shape, Misfit>
    ensures { result ≡ spec.negated shape }
{
    match shape {
        Shape::Number { .. }
        | Shape::Amount { .. }
        | Shape::Position { .. }
        | Shape::Inventory { .. } => fitting(shape),
        _ => Err(Misfit::Kind),
    }
}

/// A number without its sign.
pub fn magnitude_of(shape: Shape) -> Result<Shape, Misfit>
    ensures { result ≡ spec.magnitude_of shape }
{
    match shape {
        Shape::Number { .. } => fitting(shape),
        _ => Err(Misfit::Kind),
    }
}

/// How many characters a text has, or members a set.
pub fn length_of(shape: Shape) -> Result<Shape, Misfit>
    ensures { result ≡ spec.length_of shape }
{
    match shape {
        Shape::Text | Shape::Set => Ok(whole(LARGEST_TEXT as u128)),
        _ => Err(Misfit::Kind),
    }
}

/// Units without their lots.
pub fn units_of(shape: Shape) -> Result<Shape, Misfit>
    ensures { result ≡ spec.units_of shape }
{
    match shape {
        Shape::Position { units, .. } => fitting(Shape::Amount {
            places: 8,
            most: units,
        }),
        Shape::Inventory { places, units, .. } => fitting(Shape::Inventory {
            places,
            units,
            value: 0,
        }),
        _ => Err(Misfit::Kind),
    }
}

/// What units cost.
pub fn cost_of(shape: Shape) -> Result<Shape, Misfit>
    ensures { result ≡ spec.cost_of shape }
{
    match shape {
        Shape::Position { units, value } => {
            let bare = product_of_most(units, 100_000_000);
            fitting(Shape::Amount {
                places: 16,
                most: value.max(bare),
            })
        }
        Shape::Inventory {
            places,
            units,
            value,
        } => {
            let bare = product_of_most(units, 100_000_000);
            fitting(Shape::Inventory {
                places: places_of_both(places, 8),
                units: sum_of_most(value, bare),
                value: 0,
            })
        }
        _ => Err(Misfit::Kind),
    }
}

/// The number of an amount or of a position.
pub fn number_of(shape: Shape) -> Result<Shape, Misfit>
    ensures { result ≡ spec.number_of shape }
{
    match shape {
        Shape::Amount { places, most } => fitting(Shape::Number { places, most }),
        Shape::Position { units, .. } => fitting(Shape::Number {
            places: 8,
            most: units,
        }),
        _ => Err(Misfit::Kind),
    }
}

/// The currency of an amount or of a position.
pub fn currency_of(shape: Shape) -> Result<Shape, Misfit>
    ensures { result ≡ spec.currency_of shape }
{
    match shape {
        Shape::Amount { .. } | Shape::Position { .. } => Ok(Shape::Text),
        _ => Err(Misfit::Kind),
    }
}

/// The sum or the difference of two numbers of the same decimals.
fn sum_of(a: Shape, b: Shape) -> Result<Shape, Misfit>
    ensures { result ≡ spec.sum_of a b }
{
    match (a, b) {
        (Shape::Number { places: p, most: m }, Shape::Number { places: q, most: n }) if p == q => {
            fitting(Shape::Number {
                places: p,
                most: sum_of_most(m, n),
            })
        }
        _ => Err(Misfit::Kind),
    }
}

/// The product of two numbers.
fn product_of(a: Shape, b: Shape) -> Result<Shape, Misfit>
    ensures { result ≡ spec.product_of a b }
{
    match (a, b) {
        (Shape::Number { places: p, most: m }, Shape::Number { places: q, most: n }) => {
            fitting(Shape::Number {
                places: places_of_both(p, q),
                most: product_of_most(m, n),
            })
        }
        _ => Err(Misfit::Kind),
    }
}

/// Which of two is less; both are texts, days or numbers of the same decimals.
fn ordered(a: Shape, b: Shape) -> Result<Shape, Misfit>
    ensures { result ≡ spec.ordered a b }
{
    match (a, b) {
        (Shape::Text, Shape::Text) | (Shape::Day, Shape::Day) => Ok(Shape::Truth),
        (Shape::Number { places: p, .. }, Shape::Number { places: q, .. }) if p == q => {
            Ok(Shape::Truth)
        }
        _ => Err(Misfit::Kind),
    }
}

/// Whether two are the same; truth values too.
fn compared(a: Shape, b: Shape) -> Result<Shape, Misfit>
    ensures { result ≡ spec.compared a b }
{
    match (a, b) {
        (Shape::Truth, Shape::Truth) => Ok(Shape::Truth),
        _ => ordered(a, b),
    }
}

/// Whether a text is a member of a set.
fn member_of(a: Shape, b: Shape) -> Result<Shape, Misfit>
    ensures { result ≡ spec.member_of a b }
{
    match (a, b) {
        (Shape::Text, Shape::Set) => Ok(Shape::Truth),
        _ => Err(Misfit::Kind),
    }
}

/// The shape of what an operation gives on operands of these shapes.
pub fn binary_shape(op: Binary, a: Shape, b: Shape) -> Result<Shape, Misfit>
    ensures { result ≡ spec.binary_shape op a b }
{
    match op {
        Binary::Add | Binary::Sub => sum_of(a, b),
        Binary::Mul => product_of(a, b),
        Binary::Equal | Binary::NotEqual => compared(a, b),
        Binary::Less | Binary::AtMost | Binary::Greater | Binary::AtLeast => ordered(a, b),
        Binary::InSet => member_of(a, b),
    }
}

/// Whether values of the shape have an order: texts, days and numbers do.
pub fn is_ranked(shape: Shape) -> bool
    ensures { result ≡ spec.is_ranked shape }
{
    matches!(shape, Shape::Text | Shape::Day | Shape::Number { .. })
}

/// The sum of at most so many numbers of so many decimals.
fn summed(values: u32, places: u8, shape: Shape) -> Result<Shape, Misfit>
    ensures { result ≡ spec.summed values places shape }
{
    match shape {
        Shape::Number { places: from, most } if from == places => fitting(Shape::Number {
            places,
            most: product_of_most(values as u128, most),
        }),
        _ => Err(Misfit::Kind),
    }
}

/// The inventory of at most so many amounts of so many decimals, or positions where these are 8.
fn gathered(values: u32, places: u8, shape: Shape) -> Result<Shape, Misfit>
    ensures { result ≡ spec.gathered values places shape }
{
    match shape {
        Shape::Amount { places: from, most } if from == places => fitting(Shape::Inventory {
            places,
            units: product_of_most(values as u128, most),
            value: 0,
        }),
        Shape::Position { units, value } if places == 8 => fitting(Shape::Inventory {
            places: 8,
            units: product_of_most(values as u128, units),
            value: product_of_most(values as u128, value),
        }),
        _ => Err(Misfit::Kind),
    }
}

/// The least or the greatest of some that have an order.
fn ranked(shape: Shape) -> Result<Shape, Misfit>
    ensures { result ≡ spec.ranked shape }
{
    if is_ranked(shape) {
        fitting(shape)
    } else {
        Err(Misfit::Kind)
    }
}

/// The shape of what is gathered over at most so many values of a shape; rows are counted without
/// any.
pub fn aggregate_shape(
    values: u32,
    aggregate: Aggregate,
    shape: Option<Shape>,
) -> Result<Shape, Misfit>
    ensures { result ≡ spec.aggregate_shape values aggregate shape }
{
    match (aggregate, shape) {
        (Aggregate::CountRows, None) | (Aggregate::Count, Some(_)) => fitting(whole(
            values as u128,
        )),
        (Aggregate::Sum(places), Some(shape)) => summed(values, places, shape),
        (Aggregate::SumInventory(places), Some(shape)) => gathered(values, places, shape),
        (Aggregate::First | Aggregate::Last, Some(shape)) => fitting(shape),
        (Aggregate::Min | Aggregate::Max, Some(shape)) => ranked(shape),
        _ => Err(Misfit::Kind),
    }
}
