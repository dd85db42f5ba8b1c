//! Expressions as the machine computes them.
ghost use Rattle.std.specs.Prelude.{◌≡◌, map, IfOk};
ghost use Rattle.std.specs.List.{AllByRecursion};
ghost use Rattle.bql_code.specs.Kept.{core_of, cores_of};
ghost use Rattle.bql_lowering.specs.Kept.{gathered_of, IsFew};
ghost use Rattle.bql_lowering.specs.Listed.{HasShape};
ghost use Rattle.bql_lowering.specs.Lowered as rule;
ghost use Rattle.bql_parser.specs.Small.{IsSmallTree, AreSmallTrees};
ghost use Rattle.bql_tree.specs.Tree.{node, call_of, tree_of, trees_of};
ghost use Rattle.bql_types.specs.Keys.{lent_trees};
ghost use Rattle.query_rows.specs.ColumnShape.{AreBounds};

use crate::leaves::{nothing, of_leaf};
use crate::lists::in_list;
use crate::operations::{of_binary, of_function, of_null, of_unary};
use crate::scope::{Scope, places_beside, places_of, position};
use bql_code::{Core, Load};
use bql_tree::{Expr, Function};
use bql_types::grouped::Key;
use bql_types::shaped::is_null;
use std::alloc::{AllocError, Global};

/// What the machine computes for an expression.
#[cycle(lower)]
pub fn lower<'a>(
    alloc: Global,
    scope: &Scope<'_, '_, '_>,
    e: &Expr<'a>,
) -> Result<Core<'a>, AllocError>
    requires bounds { AreBounds scope.now.bounds }
    requires few { IsFew scope.now }
    requires small { IsSmallTree (tree_of e.now) }
    requires shaped { HasShape scope.now.bounds (tree_of e.now) }
    ensures { IfOk result (λ r. core_of r
        ≡ rule.lowered scope.now.bounds (gathered_of scope.now) (tree_of e.now)) }
{
    if let Some(index) = position(scope.keys, e) {
        return Ok(Core::Load(Load::Key(index as u8)));
    }
    if let Some(index) = position(scope.aggregates, e) {
        return Ok(Core::Load(Load::Aggregate(index as u8)));
    }
    match e {
        Expr::Leaf(_, leaf) => of_leaf(alloc, leaf),
        Expr::One(_, op, x) => {
            let x = lower(alloc, scope, x)?;
            of_unary(alloc, op, x)
        }
        Expr::Two(_, op, x, y) => {
            if is_null(y) {
                let x = lower(alloc, scope, x)?;
                return of_null(alloc, *op, x);
            }
            if is_null(x) {
                let y = lower(alloc, scope, y)?;
                return of_null(alloc, *op, y);
            }
            let p = places_beside(alloc, &scope.bounds, *op, x)?;
            let q = places_beside(alloc, &scope.bounds, *op, y)?;
            let x = lower(alloc, scope, x)?;
            let y = lower(alloc, scope, y)?;
            of_binary(alloc, *op, (p, q), x, y)
        }
        Expr::Call(_, function, arguments) => lower_call(alloc, scope, *function, arguments),
    }
}

/// The same of a call.
#[cycle(lower)]
fn lower_call<'a>(
    alloc: Global,
    scope: &Scope<'_, '_, '_>,
    function: Function,
    arguments: &[Expr<'a>],
) -> Result<Core<'a>, AllocError>
    requires bounds { AreBounds scope.now.bounds }
    requires few { IsFew scope.now }
    requires small { IsSmallTree (node 0 (call_of function) (trees_of arguments.now)) }
    requires shaped { HasShape scope.now.bounds
        (node 0 (call_of function) (trees_of arguments.now)) }
    ensures { IfOk result (λ r. core_of r ≡ rule.by_operation scope.now.bounds
        (gathered_of scope.now) (call_of function) (trees_of arguments.now)) }
{
    if arguments.is_empty() {
        return Ok(nothing());
    }
    if function == Function::OneOf {
        let places = places_of(alloc, &scope.bounds, &arguments[0])?;
        let x = lower(alloc, scope, &arguments[0])?;
        return in_list(alloc, places, x, &arguments[1..]);
    }
    if arguments.len() > 1 {
        return Ok(nothing());
    }
    let x = lower(alloc, scope, &arguments[0])?;
    of_function(alloc, function, x)
}

/// What the machine computes for some expressions.
pub fn lower_all<'a>(
    alloc: Global,
    scope: &Scope<'_, '_, '_>,
    exprs: &[Key<'_, 'a>],
) -> Result<Vec<Core<'a>>, AllocError>
    requires bounds { AreBounds scope.now.bounds }
    requires few { IsFew scope.now }
    requires small { AllByRecursion IsSmallTree (lent_trees exprs.now) }
    requires shaped { AllByRecursion (HasShape scope.now.bounds) (lent_trees exprs.now) }
    ensures { IfOk result (λ r. cores_of r.items
        ≡ rule.all_lowered scope.now.bounds (gathered_of scope.now) (lent_trees exprs.now)) }
{
    let mut cores = Vec::new(alloc);
    for key in exprs {
        cores.push(lower(alloc, scope, key.expr)?)?;
    }
    Ok(cores)
}
