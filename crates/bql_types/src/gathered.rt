//! Which aggregate an expression is.
ghost use Rattle.std.specs.Prelude.{◌≡◌, IfOk};
ghost use Rattle.bql_tree.specs.Tree.{tree_of};
ghost use Rattle.bql_types.specs.Gathered as rule;
ghost use Rattle.bql_types.specs.Seen.{list_of};
ghost use Rattle.query_rows.specs.ColumnShape.{AreBounds};

use crate::shaped::look_at_all;
use bql_rules::aggregate_for;
use bql_tree::{Expr, Function};
use limits::Bounds;
use query_rows::Shape;
use query_values::Aggregate;
use std::alloc::{AllocError, Global};

/// The shape of the one part; none where there are none or more, or one has no shape.
fn single(shapes: Option<Vec<Shape>>) -> Option<Shape>
    ensures { result ≡ rule.single (list_of shapes) }
{
    let Some(shapes) = shapes else {
        return None;
    };
    match shapes.as_slice() {
        [shape] => Some(*shape),
        _ => None,
    }
}

/// The aggregate that a function is, over parts of these shapes.
fn called_on(function: Function, shapes: Option<Vec<Shape>>) -> Aggregate
    ensures { result ≡ rule.of_call function (list_of shapes) }
{
    match aggregate_for(function, single(shapes)) {
        Some(aggregate) => aggregate,
        None => Aggregate::CountRows,
    }
}

/// The aggregate that an expression is: of sums the one that the shape of its part asks for. What
/// is no aggregate counts rows.
pub fn aggregate_in(alloc: Global, bounds: &Bounds, e: &Expr<'_>) -> Result<Aggregate, AllocError>
    requires { AreBounds bounds.now }
    ensures { IfOk result (λ r. r ≡ rule.aggregate_in bounds.now (tree_of e.now)) }
{
    match e {
        Expr::Call(_, function, arguments) => {
            let all = look_at_all(alloc, bounds, arguments, None)?;
            Ok(called_on(*function, all.shapes))
        }
        _ => Ok(Aggregate::CountRows),
    }
}
