//! The bounds that a query file may have.
ghost use Rattle.std.specs.Prelude.{MatchBool};
ghost use Rattle.query_rows.specs.ColumnShape.{AreBounds};

use limits::{Bounds, MOST_UNITS_DIGITS, MOST_VALUE_DIGITS};

/// Whether each bound is at least 1 and within its limit.
pub fn are_bounds(bounds: &Bounds) -> bool
    ensures { MatchBool result (AreBounds bounds.now) (AreBounds bounds.now → ⊥) }
{
    1 <= bounds.postings
        && bounds.postings as usize <= bounds.schema.most_postings()
        && 1 <= bounds.units_digits
        && bounds.units_digits <= MOST_UNITS_DIGITS
        && 1 <= bounds.value_digits
        && bounds.value_digits <= MOST_VALUE_DIGITS
}
