//! Filters and items of a query.
ghost use Rattle.std.specs.Prelude.{◌≡◌, IfOk, List, map};
ghost use Rattle.bql_parser.specs.View.{item_of, filter_of};
ghost use Rattle.bql_parser.specs.Asked.{Target};
ghost use Rattle.query_rows.specs.ColumnShape.{AreBounds};
ghost use Rattle.bql_tree.specs.Tree.{tree_of};
ghost use Rattle.bql_types.specs.Cause.{told};
ghost use Rattle.bql_types.specs.Keys as view;
ghost use Rattle.bql_types.specs.Named.{AreSeen};
ghost use Rattle.bql_types.specs.Seen as seen_rule;
ghost use Rattle.bql_types.specs.Typing as rule;

use crate::aggregates::misplaced;
use crate::balances::balances;
use crate::cause::{TypeCause, TypeCauseKind, where_true};
use crate::grouped::ungrouped;
use crate::grouping::Grouping;
use crate::shaped::{Seen, look};
use crate::targets::{SeenTarget, named_group, named_order};
use bql_parser::{Filters, Item, ItemKind};
use bql_tree::Expr;
use limits::Bounds;
use query_rows::Shape;
use std::alloc::{AllocError, Global};

/// The place of an expression's first byte.
fn place_of(e: &Expr<'_>) -> usize
    ensures { result ≡ rule.place_of (tree_of e.now) }
{
    match e {
        Expr::Leaf(place, _) => *place,
        Expr::One(place, _, _) => *place,
        Expr::Two(place, _, _, _) => *place,
        Expr::Call(place, _, _) => *place,
    }
}

/// What is at fault in the groups of a target or an order item.
#[tactic(auto, using(crate::proofs::CauseFacts::told_append))]
fn grouped(grouping: &Grouping<'_, '_>, e: &Expr<'_>, found: Option<TypeCause>) -> Option<TypeCause>
    ensures { result ≡ told found
        (rule.grouped_causes (view.grouping_of grouping.now) (tree_of e.now)) }
{
    if grouping.is_aggregating {
        balances(e, ungrouped(grouping.keys.as_slice(), e, found))
    } else {
        found
    }
}

/// What is at fault in a target or an order item, and its shape.
#[tactic(auto, using(crate::proofs::CauseFacts::told_append))]
pub(crate) fn shown(
    alloc: Global,
    bounds: &Bounds,
    grouping: &Grouping<'_, '_>,
    e: &Expr<'_>,
    found: Option<TypeCause>,
) -> Result<Seen, AllocError>
    requires { AreBounds bounds.now }
    ensures { IfOk result (λ r. r
        ≡ seen_rule.shown bounds.now (view.grouping_of grouping.now) found (tree_of e.now)) }
{
    let seen = look(alloc, bounds, e, found)?;
    let found = misplaced(alloc, bounds, !grouping.is_aggregating, e, seen.found)?;
    Ok(Seen {
        shape: seen.shape,
        found: grouped(grouping, e, found),
    })
}

/// What is at fault in a filter or a group item, and its shape.
#[tactic(auto, using(crate::proofs::CauseFacts::told_append))]
fn of_row(
    alloc: Global,
    bounds: &Bounds,
    e: &Expr<'_>,
    found: Option<TypeCause>,
) -> Result<Seen, AllocError>
    requires { AreBounds bounds.now }
    ensures { IfOk result (λ r. r ≡ seen_rule.of_row bounds.now found (tree_of e.now)) }
{
    let seen = look(alloc, bounds, e, found)?;
    let found = misplaced(alloc, bounds, true, e, seen.found)?;
    Ok(Seen {
        shape: seen.shape,
        found: balances(e, found),
    })
}

fn isnt_truth(shape: Option<Shape>) -> bool
    ensures { result ≡ rule.isnt_truth shape }
{
    match shape {
        Some(Shape::Truth) => false,
        Some(_) => true,
        None => false,
    }
}

/// What is at fault in a filter.
#[tactic(auto, using(crate::proofs::CauseFacts::told_append))]
pub(crate) fn filter(
    alloc: Global,
    bounds: &Bounds,
    filter: &Option<Box<Expr<'_>>>,
    found: Option<TypeCause>,
) -> Result<Option<TypeCause>, AllocError>
    requires { AreBounds bounds.now }
    ensures { IfOk result (λ r. r
        ≡ told found (rule.filter_causes bounds.now (filter_of filter.now))) }
{
    match filter {
        Some(e) => {
            let seen = of_row(alloc, bounds, e, found)?;
            let cause = TypeCause::at(TypeCauseKind::KindClash, place_of(e));
            Ok(where_true(seen.found, isnt_truth(seen.shape), cause))
        }
        None => Ok(found),
    }
}

/// What is at fault in FROM and WHERE.
#[tactic(auto, using(crate::proofs::CauseFacts::told_append))]
pub(crate) fn filters(
    alloc: Global,
    bounds: &Bounds,
    filters: &Filters<'_>,
    found: Option<TypeCause>,
) -> Result<Option<TypeCause>, AllocError>
    requires { AreBounds bounds.now }
    ensures { IfOk result (λ r. r
        ≡ told found (rule.filters_causes bounds.now (view.filters_of filters.now))) }
{
    let found = filter(alloc, bounds, &filters.from, found)?;
    filter(alloc, bounds, &filters.filter, found)
}

/// What is at fault in an item of GROUP BY.
fn group_item(
    alloc: Global,
    bounds: &Bounds,
    targets: &[SeenTarget],
    item: &Item<'_>,
    found: Option<TypeCause>,
) -> Result<Option<TypeCause>, AllocError>
    requires { AreBounds bounds.now }
    ensures { (ts : List Target) → AreSeen bounds.now ts targets.now → IfOk result (λ r. r
        ≡ told found (rule.group_item_causes bounds.now ts (item_of item.now))) }
{
    match &item.kind {
        ItemKind::Target(index) => Ok(named_group(targets, *index, item.place, found)),
        ItemKind::Expr(e) => Ok(of_row(alloc, bounds, e, found)?.found),
    }
}

/// What is at fault in the items of GROUP BY.
fn group(
    alloc: Global,
    bounds: &Bounds,
    targets: &[SeenTarget],
    items: &[Item<'_>],
    found: Option<TypeCause>,
) -> Result<Option<TypeCause>, AllocError>
    requires { AreBounds bounds.now }
    ensures { (ts : List Target) → AreSeen bounds.now ts targets.now → IfOk result (λ r. r
        ≡ told found (rule.each (rule.group_item_causes bounds.now ts) (map item_of items.now))) }
{
    let mut found = found;
    for item in items {
        found = group_item(alloc, bounds, targets, item, found)?;
    }
    Ok(found)
}

/// What is at fault in GROUP BY, if there is one.
pub(crate) fn groups(
    alloc: Global,
    bounds: &Bounds,
    targets: &[SeenTarget],
    items: &Option<Vec<Item<'_>>>,
    found: Option<TypeCause>,
) -> Result<Option<TypeCause>, AllocError>
    requires { AreBounds bounds.now }
    ensures { (ts : List Target) → AreSeen bounds.now ts targets.now → IfOk result (λ r. r
        ≡ told found (rule.group_causes bounds.now ts (view.group_of items.now))) }
{
    match items {
        Some(items) => group(alloc, bounds, targets, items.as_slice(), found),
        None => Ok(found),
    }
}

pub(crate) fn isnt_ordered(shape: Option<Shape>) -> bool
    ensures { result ≡ rule.isnt_ordered shape }
{
    match shape {
        Some(Shape::Number { .. } | Shape::Text | Shape::Day) => false,
        Some(_) => true,
        None => false,
    }
}

/// What is at fault in an order item of its own.
#[tactic(auto, using(crate::proofs::CauseFacts::told_append))]
fn own_order(
    alloc: Global,
    bounds: &Bounds,
    grouping: &Grouping<'_, '_>,
    e: &Expr<'_>,
    found: Option<TypeCause>,
) -> Result<Option<TypeCause>, AllocError>
    requires { AreBounds bounds.now }
    ensures { IfOk result (λ r. r ≡ told found
        (rule.own_order_causes bounds.now (view.grouping_of grouping.now) (tree_of e.now))) }
{
    let seen = shown(alloc, bounds, grouping, e, found)?;
    let cause = TypeCause::at(TypeCauseKind::NotOrderable, place_of(e));
    Ok(where_true(seen.found, isnt_ordered(seen.shape), cause))
}

/// What is at fault in an item of ORDER BY.
fn order_item(
    alloc: Global,
    bounds: &Bounds,
    grouping: &Grouping<'_, '_>,
    targets: &[SeenTarget],
    item: &Item<'_>,
    found: Option<TypeCause>,
) -> Result<Option<TypeCause>, AllocError>
    requires { AreBounds bounds.now }
    ensures { (ts : List Target) → AreSeen bounds.now ts targets.now → IfOk result (λ r. r
        ≡ told found (rule.order_item_causes bounds.now (view.grouping_of grouping.now) ts
        (item_of item.now))) }
{
    match &item.kind {
        ItemKind::Target(index) => Ok(named_order(targets, *index, item.place, found)),
        ItemKind::Expr(e) => own_order(alloc, bounds, grouping, e, found),
    }
}

/// What is at fault in the items of ORDER BY.
pub(crate) fn order(
    alloc: Global,
    bounds: &Bounds,
    grouping: &Grouping<'_, '_>,
    targets: &[SeenTarget],
    items: &[Item<'_>],
    found: Option<TypeCause>,
) -> Result<Option<TypeCause>, AllocError>
    requires { AreBounds bounds.now }
    ensures { (ts : List Target) → AreSeen bounds.now ts targets.now → IfOk result (λ r. r
        ≡ told found (rule.each (rule.order_item_causes bounds.now (view.grouping_of grouping.now)
        ts) (map item_of items.now))) }
{
    let mut found = found;
    for item in items {
        found = order_item(alloc, bounds, grouping, targets, item, found)?;
    }
    Ok(found)
}
