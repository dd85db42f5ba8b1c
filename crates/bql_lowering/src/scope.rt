//! By what an expression is lowered.
ghost use Rattle.std.specs.Prelude.{◌≡◌, ◌<◌, true, false, length, IfOk, MatchOption};
ghost use Rattle.bql_lowering.specs.Lowered as rule;
ghost use Rattle.bql_plan.specs.Plan.{index_of};
ghost use Rattle.bql_tree.specs.Tree.{tree_of};
ghost use Rattle.bql_types.specs.Shaped.{shape_of};
ghost use Rattle.bql_types.specs.Keys.{lent_trees};
ghost use Rattle.bql_types.specs.Sought.{is_key};
ghost use Rattle.query_rows.specs.ColumnShape.{AreBounds};

use bql_rules::{Operation, operation_of};
use bql_tree::{BinaryOperator, Expr};
use bql_types::grouped::Key;
use bql_types::same::same;
use bql_types::shaped::shape_in;
use limits::Bounds;
use query_rows::Shape;
use std::alloc::{AllocError, Global};

/// The bounds by which expressions have their shapes, and what is there to be loaded besides the
/// cells of a row: the keys of a group and its aggregates.
#[derive(Clone, Copy)]
pub struct Scope<'k, 'q, 'a> {
    pub bounds: Bounds,
    pub keys: &'k [Key<'q, 'a>],
    pub aggregates: &'k [Key<'q, 'a>],
}

/// The index of the first expression that is the same.
pub(crate) fn position(keys: &[Key<'_, '_>], e: &Expr<'_>) -> Option<usize>
    ensures { MatchOption result (is_key (lent_trees keys.now) (tree_of e.now) ≡ false)
        (λ i. (i ≡ index_of (lent_trees keys.now) (tree_of e.now))
        × (is_key (lent_trees keys.now) (tree_of e.now) ≡ true) × (i < length keys.now)) }
{
    for i in 0..keys.len() {
        if same(e, keys[i].expr) {
            return Some(i);
        }
    }
    None
}

/// The decimals of a number.
fn places_in(shape: Option<Shape>) -> Option<u8>
    ensures { result ≡ rule.places_in shape }
{
    match shape {
        Some(Shape::Number { places, .. }) => Some(places),
        _ => None,
    }
}

/// The decimals of an expression, if it is a number.
pub(crate) fn places_of(
    alloc: Global,
    bounds: &Bounds,
    e: &Expr<'_>,
) -> Result<Option<u8>, AllocError>
    requires { AreBounds bounds.now }
    ensures { IfOk result (λ places. places ≡ rule.places_in (shape_of bounds.now (tree_of e.now))) }
{
    Ok(places_in(shape_in(alloc, bounds, e)?))
}

/// Whether an operation wants its operands at equal decimals, where they are numbers.
fn wants_places(op: BinaryOperator) -> bool
    ensures { result ≡ rule.wants_places op }
{
    matches!(operation_of(op), Operation::Aligned(_))
}

/// The decimals of an operand, where the operation asks for them. They are found by descending all
/// of it, so nothing is looked for beside the others.
pub(crate) fn places_beside(
    alloc: Global,
    bounds: &Bounds,
    op: BinaryOperator,
    e: &Expr<'_>,
) -> Result<Option<u8>, AllocError>
    requires { AreBounds bounds.now }
    ensures { IfOk result (λ places. rule.wants_places op ≡ true
        → places ≡ rule.places_in (shape_of bounds.now (tree_of e.now))) }
{
    if wants_places(op) {
        places_of(alloc, bounds, e)
    } else {
        Ok(None)
    }
}
