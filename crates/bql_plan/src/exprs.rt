//! The expressions of a query, each at its index.
ghost use Rattle.std.specs.Prelude.{◌≡◌, IfOk, [], map};
ghost use Rattle.theory.specs.Form.{steps};
ghost use Rattle.bql_parser.specs.View.{target_of, item_of, kind_of};
ghost use Rattle.bql_plan.specs.Kept.{lent_if};
ghost use Rattle.bql_plan.specs.Plan as rule;
ghost use Rattle.bql_tree.specs.Tree.{tree_of, trees_of};
ghost use Rattle.bql_types.specs.Keys.{lent_tree, lent_trees};
ghost use Rattle.bql_types.specs.Typing.{target_tree};

use bql_parser::{Item, ItemKind, Target};
use bql_tree::Expr;
use bql_types::aggregates::{is_aggregate_function, is_rows};
use bql_types::grouped::{Key, is_key};
use bql_types::same::same;
use std::alloc::{AllocError, Global};

/// One more expression, unless one that is the same stands before it.
fn added<'q, 'a>(
    exprs: Vec<Key<'q, 'a>>,
    expr: &'q Expr<'a>,
) -> Result<Vec<Key<'q, 'a>>, AllocError>
    ensures { IfOk result (λ r. lent_trees r.items
        ≡ rule.added (lent_trees exprs.entry.items) (tree_of expr.now)) }
{
    let mut exprs = exprs;
    if is_key(exprs.as_slice(), expr) {
        return Ok(exprs);
    }
    exprs.push(Key { expr })?;
    Ok(exprs)
}

/// The index of the first expression that is the same.
fn index_of(exprs: &[Key<'_, '_>], expr: &Expr<'_>) -> usize
    ensures { result ≡ rule.index_of (lent_trees exprs.now) (tree_of expr.now) }
{
    for i in 0..exprs.len() {
        if same(expr, exprs[i].expr) {
            return i;
        }
    }
    exprs.len()
}

/// The aggregates of an expression behind others, equal ones once.
#[cycle(gathered)]
fn gathered<'q, 'a>(
    e: &'q Expr<'a>,
    found: Vec<Key<'q, 'a>>,
) -> Result<Vec<Key<'q, 'a>>, AllocError>
    ensures { IfOk result (λ r. lent_trees r.items
        ≡ steps rule.added (lent_trees found.entry.items) (rule.aggregates_in (tree_of e.now))) }
{
    match e {
        Expr::Leaf(_, leaf) => {
            if is_rows(leaf) {
                added(found, e)
            } else {
                Ok(found)
            }
        }
        Expr::One(_, _, x) => gathered(x, found),
        Expr::Two(_, _, x, y) => {
            let found = gathered(x, found)?;
            gathered(y, found)
        }
        Expr::Call(_, function, arguments) => {
            if is_aggregate_function(*function) {
                added(found, e)
            } else {
                all_gathered(arguments, found)
            }
        }
    }
}

#[cycle(gathered)]
fn all_gathered<'q, 'a>(
    es: &'q [Expr<'a>],
    found: Vec<Key<'q, 'a>>,
) -> Result<Vec<Key<'q, 'a>>, AllocError>
    ensures { IfOk result (λ r. lent_trees r.items
        ≡ steps rule.added (lent_trees found.entry.items) (rule.all_aggregates (trees_of es.now))) }
{
    let mut found = found;
    for e in es {
        found = gathered(e, found)?;
    }
    Ok(found)
}

/// The aggregates of some expressions, equal ones once.
pub(crate) fn aggregates<'q, 'a>(
    alloc: Global,
    exprs: &[Key<'q, 'a>],
) -> Result<Vec<Key<'q, 'a>>, AllocError>
    ensures { IfOk result (λ r. lent_trees r.items
        ≡ steps rule.added [] (rule.aggregates_of (lent_trees exprs.now))) }
{
    let mut found = Vec::new(alloc);
    for key in exprs {
        found = gathered(key.expr, found)?;
    }
    Ok(found)
}

/// The first of some parts, if there are any.
fn first_of<'q, 'a>(es: &'q [Expr<'a>]) -> Option<Key<'q, 'a>>
    ensures { lent_if result ≡ rule.first_of (trees_of es.now) }
{
    match es.first() {
        Some(expr) => Some(Key { expr }),
        None => None,
    }
}

/// The first part of an expression, if it has any.
pub fn first_part<'q, 'a>(e: &'q Expr<'a>) -> Option<Key<'q, 'a>>
    ensures { lent_if result ≡ rule.first_part (tree_of e.now) }
{
    match e {
        Expr::Leaf(_, _) => None,
        Expr::One(_, _, x) => Some(Key { expr: x }),
        Expr::Two(_, _, x, _) => Some(Key { expr: x }),
        Expr::Call(_, _, arguments) => first_of(arguments),
    }
}

/// The expressions of the targets.
pub(crate) fn targets_shown<'q, 'a>(
    alloc: Global,
    targets: &'q [Target<'a>],
) -> Result<Vec<Key<'q, 'a>>, AllocError>
    ensures { IfOk result (λ r. lent_trees r.items
        ≡ map target_tree (map target_of targets.now)) }
{
    let mut shown = Vec::new(alloc);
    for target in targets {
        shown.push(Key { expr: &target.expr })?;
    }
    Ok(shown)
}

/// What an item orders rows by, behind what is shown.
fn with_item<'q, 'a>(
    shown: Vec<Key<'q, 'a>>,
    item: &'q Item<'a>,
) -> Result<Vec<Key<'q, 'a>>, AllocError>
    ensures { IfOk result (λ r. lent_trees r.items ≡ steps rule.added
        (lent_trees shown.entry.items) (rule.tree_by (kind_of item.now.kind))) }
{
    match &item.kind {
        ItemKind::Target(_) => Ok(shown),
        ItemKind::Expr(e) => added(shown, e),
    }
}

/// What is shown, and behind it what only orders rows.
pub(crate) fn with_items<'q, 'a>(
    shown: Vec<Key<'q, 'a>>,
    items: &'q [Item<'a>],
) -> Result<Vec<Key<'q, 'a>>, AllocError>
    ensures { IfOk result (λ r. lent_trees r.items ≡ steps rule.added
        (lent_trees shown.entry.items) (rule.own_trees (map item_of items.now))) }
{
    let mut shown = shown;
    for item in items {
        shown = with_item(shown, item)?;
    }
    Ok(shown)
}

/// The index of what an item orders rows by.
fn index_for(shown: &[Key<'_, '_>], item: &Item<'_>) -> usize
    ensures { result ≡ rule.index_for (lent_trees shown.now) (item_of item.now) }
{
    match &item.kind {
        ItemKind::Target(index) => *index,
        ItemKind::Expr(e) => index_of(shown, e),
    }
}

/// The indices of what orders rows.
pub(crate) fn order(
    alloc: Global,
    shown: &[Key<'_, '_>],
    items: &[Item<'_>],
) -> Result<Vec<usize>, AllocError>
    ensures { IfOk result (λ r. r.items
        ≡ map (rule.index_for (lent_trees shown.now)) (map item_of items.now)) }
{
    let mut order = Vec::new(alloc);
    for item in items {
        order.push(index_for(shown, item))?;
    }
    Ok(order)
}
