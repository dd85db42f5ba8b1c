//! Aggregates, and where they may not stand.
ghost use Rattle.std.specs.Prelude.{◌≡◌, IfOk};
ghost use Rattle.query_rows.specs.ColumnShape.{AreBounds};
ghost use Rattle.bql_tree.specs.Tree.{tree_of, trees_of, leaf_of, call_of};
ghost use Rattle.bql_types.specs.Cause.{told};
ghost use Rattle.bql_types.specs.Sought as rule;

use crate::cause::{TypeCause, TypeCauseKind, where_true};
use crate::shaped::look_at_all;
use bql_tree::{Expr, Function, Leaf};
use limits::Bounds;
use std::alloc::{AllocError, Global};

/// Whether a function gathers the values of a group.
pub fn is_aggregate_function(function: Function) -> bool
    ensures { result ≡ rule.is_aggregate_function function }
{
    matches!(
        function,
        Function::Count
            | Function::Sum
            | Function::First
            | Function::Last
            | Function::Min
            | Function::Max
    )
}

/// Whether it is the star of `COUNT(*)`.
pub fn is_rows(leaf: &Leaf<'_>) -> bool
    ensures { result ≡ rule.is_rows leaf.now }
{
    matches!(leaf, Leaf::Rows)
}

/// Whether it is an aggregate, or one stands in it.
#[cycle(aggregates)]
pub fn aggregates(e: &Expr<'_>) -> bool
    ensures { result ≡ rule.aggregates (tree_of e.now) }
{
    match e {
        Expr::Leaf(_, leaf) => is_rows(leaf),
        Expr::One(_, _, x) => aggregates(x),
        Expr::Two(_, _, x, y) => aggregates(x) || aggregates(y),
        Expr::Call(_, function, xs) => is_aggregate_function(*function) || one_aggregates(xs),
    }
}

#[cycle(aggregates)]
fn one_aggregates(es: &[Expr<'_>]) -> bool
    ensures { result ≡ rule.one_aggregates (trees_of es.now) }
{
    for e in es {
        if aggregates(e) {
            return true;
        }
    }
    false
}

/// Whether all of these have shapes.
fn have_shapes(alloc: Global, bounds: &Bounds, es: &[Expr<'_>]) -> Result<bool, AllocError>
    requires { AreBounds bounds.now }
    ensures { IfOk result (λ r. r ≡ rule.have_shapes bounds.now (trees_of es.now)) }
{
    let all = look_at_all(alloc, bounds, es, None)?;
    Ok(all.shapes.is_some())
}

/// Whether an aggregate of these is told, inside another or where none may be.
fn is_told(
    alloc: Global,
    bounds: &Bounds,
    is_misplaced: bool,
    es: &[Expr<'_>],
) -> Result<bool, AllocError>
    requires { AreBounds bounds.now }
    ensures { IfOk result (λ r. r ≡ rule.is_told bounds.now is_misplaced (trees_of es.now)) }
{
    if is_misplaced {
        have_shapes(alloc, bounds, es)
    } else {
        Ok(false)
    }
}

/// The least of the causes that were found before, and of aggregates inside others, or of all where
/// none may be.
#[cycle(misplaced)]
#[tactic(auto, using(crate::proofs::CauseFacts::told_append))]
pub(crate) fn misplaced(
    alloc: Global,
    bounds: &Bounds,
    is_inside: bool,
    e: &Expr<'_>,
    found: Option<TypeCause>,
) -> Result<Option<TypeCause>, AllocError>
    requires { AreBounds bounds.now }
    ensures { IfOk result (λ r. r
        ≡ told found (rule.misplaced bounds.now is_inside (tree_of e.now))) }
{
    match e {
        Expr::Leaf(place, leaf) => {
            let is_cause = is_rows(leaf) && is_inside;
            Ok(where_true(
                found,
                is_cause,
                TypeCause::at(TypeCauseKind::AggregateMisplaced, *place),
            ))
        }
        Expr::One(_, _, x) => misplaced(alloc, bounds, is_inside, x, found),
        Expr::Two(_, _, x, y) => {
            let found = misplaced(alloc, bounds, is_inside, x, found)?;
            misplaced(alloc, bounds, is_inside, y, found)
        }
        Expr::Call(place, function, xs) => {
            if !is_aggregate_function(*function) {
                return all_misplaced(alloc, bounds, is_inside, xs, found);
            }
            let is_cause = is_told(alloc, bounds, is_inside, xs)?;
            let cause = TypeCause::at(TypeCauseKind::AggregateMisplaced, *place);
            all_misplaced(alloc, bounds, true, xs, where_true(found, is_cause, cause))
        }
    }
}

#[cycle(misplaced)]
#[tactic(auto, using(crate::proofs::CauseFacts::told_append))]
fn all_misplaced(
    alloc: Global,
    bounds: &Bounds,
    is_inside: bool,
    es: &[Expr<'_>],
    found: Option<TypeCause>,
) -> Result<Option<TypeCause>, AllocError>
    requires { AreBounds bounds.now }
    ensures { IfOk result (λ r. r
        ≡ told found (rule.all_misplaced bounds.now is_inside (trees_of es.now))) }
{
    let mut found = found;
    for e in es {
        found = misplaced(alloc, bounds, is_inside, e, found)?;
    }
    Ok(found)
}
