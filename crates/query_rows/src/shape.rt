//! Shapes: what is known of a value before it is computed.
ghost use Rattle.std.specs.Prelude.{◌≡◌};
ghost use Rattle.query_rows.specs.Shape as spec;

use limits::{COUNT_BOUND, LARGEST_TEXT, MOST_PLACES};

/// What is known of a value: its kind, its decimals, and the most that its counts may be, signs
/// left off. Null is of every shape.
#[derive(Clone, Copy, Drop, PartialEq, Eq)]
pub enum Shape {
    Truth,
    /// A text of at most [`LARGEST_TEXT`] bytes.
    Text,
    Day,
    /// At most [`LARGEST_TEXT`] such texts.
    Set,
    Number {
        places: u8,
        most: u128,
    },
    Amount {
        places: u8,
        most: u128,
    },
    /// Its count, and its count times its lot's cost.
    Position {
        units: u128,
        value: u128,
    },
    /// The sum of its counts, and that of its counts times their lots' costs.
    Inventory {
        places: u8,
        units: u128,
        value: u128,
    },
}

/// Why an operation gives no shape.
#[derive(Clone, Copy, Drop, PartialEq, Eq)]
pub enum Misfit {
    /// An operand is of another kind, or of other decimals, than the operation takes.
    Kind,
    /// A count could pass `2^127 - 1`, or decimals 32.
    TooWide,
}

/// Whether counts of so many may be held.
pub(crate) fn is_most(most: u128) -> bool
    ensures { result ≡ spec.is_most most }
{
    most < COUNT_BOUND
}

/// Whether each value of the shape can be held.
fn is_held(shape: Shape) -> bool
    ensures { result ≡ spec.is_held shape }
{
    match shape {
        Shape::Number { places, most } | Shape::Amount { places, most } => {
            places <= MOST_PLACES && is_most(most)
        }
        Shape::Position { units, value } => is_most(units) && is_most(value),
        Shape::Inventory {
            places,
            units,
            value,
        } => places <= MOST_PLACES && is_most(units) && is_most(value),
        Shape::Truth | Shape::Text | Shape::Day | Shape::Set => true,
    }
}

/// The shape, where each of its values can be held.
pub fn fitting(shape: Shape) -> Result<Shape, Misfit>
    ensures { result ≡ spec.fitting shape }
{
    if is_held(shape) {
        Ok(shape)
    } else {
        Err(Misfit::TooWide)
    }
}

/// The least shape that two values have together, where they are of one kind and of the same
/// decimals.
pub fn joined(a: Shape, b: Shape) -> Option<Shape>
    ensures { result ≡ spec.joined a b }
{
    match (a, b) {
        (Shape::Truth, Shape::Truth) => Some(Shape::Truth),
        (Shape::Text, Shape::Text) => Some(Shape::Text),
        (Shape::Day, Shape::Day) => Some(Shape::Day),
        (Shape::Set, Shape::Set) => Some(Shape::Set),
        (Shape::Number { places: p, most: m }, Shape::Number { places: q, most: n }) if p == q => {
            Some(Shape::Number {
                places: p,
                most: m.max(n),
            })
        }
        (Shape::Amount { places: p, most: m }, Shape::Amount { places: q, most: n }) if p == q => {
            Some(Shape::Amount {
                places: p,
                most: m.max(n),
            })
        }
        (Shape::Position { units: m, value: v }, Shape::Position { units: n, value: w }) => {
            Some(Shape::Position {
                units: m.max(n),
                value: v.max(w),
            })
        }
        (
            Shape::Inventory {
                places: p,
                units: m,
                value: v,
            },
            Shape::Inventory {
                places: q,
                units: n,
                value: w,
            },
        ) if p == q => Some(Shape::Inventory {
            places: p,
            units: m.max(n),
            value: v.max(w),
        }),
        _ => None,
    }
}
