//! The shapes of expressions without parts.
ghost use Rattle.std.specs.Prelude.{◌≡◌};
ghost use Rattle.bql_rules.specs.Rules as rule;
ghost use Rattle.query_rows.specs.ColumnShape.{AreBounds};

use bql_tree::Leaf;
use limits::Bounds;
use query_rows::rules::whole;
use query_rows::{Misfit, Shape, column_shape};

/// The shape of an expression without parts. A NULL has none of its own, and neither has a column
/// that the schema doesn't know.
pub fn leaf_shape(bounds: &Bounds, leaf: &Leaf<'_>) -> Result<Shape, Misfit>
    requires { AreBounds bounds.now }
    ensures { result ≡ rule.leaf_shape bounds.now leaf.now }
{
    match leaf {
        Leaf::Column(column) if column.is_in(bounds.schema) => Ok(column_shape(bounds, *column)),
        Leaf::Column(_) | Leaf::Null => Err(Misfit::Kind),
        Leaf::Number(number) => Ok(Shape::Number {
            places: number.places,
            most: number.count.unsigned_abs(),
        }),
        Leaf::TooWide(_) => Err(Misfit::TooWide),
        Leaf::Text(_) | Leaf::Meta(_, _) => Ok(Shape::Text),
        Leaf::Day(_) => Ok(Shape::Day),
        Leaf::Truth(_) | Leaf::HasAccount(_) => Ok(Shape::Truth),
        Leaf::Rows => Ok(whole(bounds.postings as u128)),
    }
}
