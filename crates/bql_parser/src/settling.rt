//! From clauses that were read to a query, or to the least cause for which it is refused.
ghost use Rattle.std.specs.Prelude.{◌≡◌, map, IfOk};
ghost use Rattle.std.specs.List.{slice_get, list_any};
ghost use Rattle.limits.specs.declared.counts.TheConstants.{MOST_ITEMS};
ghost use Rattle.bean_base.specs.Numeral.{is_point};
ghost use Rattle.bql_tree.specs.Part.{part_of, parts_in, parts_of, tree_found};
ghost use Rattle.bql_tree.specs.Tree.{tree_of};
ghost use Rattle.bql_grammar.specs.Read as views;
ghost use Rattle.bql_parser.specs.Settled as rule;
ghost use Rattle.bql_parser.specs.View as view;

use crate::query::{Filters, Item, ItemKind, Order, Target};
use bql_grammar::clauses::{FiltersRead, OrderRead, TargetRead};
use bql_tree::cause::both;
use bql_tree::part::not_null;
use bql_tree::{Alone, Expr, Leaf, Part, PartCause};
use limits::MOST_ITEMS;
use std::alloc::{AllocError, Global};

/// What is found, or its least cause, where something stands at a place that may not.
pub fn refused_at<T: Drop>(
    place: Option<usize>,
    found: Result<T, PartCause>,
) -> Result<T, PartCause>
    ensures { result ≡ rule.refused_at place found }
{
    match (place, found) {
        (None, found) => found,
        (Some(place), Ok(_found)) => Err(PartCause::outside_profile(place)),
        (Some(place), Err(cause)) => Err(cause.least(PartCause::outside_profile(place))),
    }
}

fn target<'a>(read: TargetRead<'a>) -> Result<Target<'a>, PartCause>
    ensures { rule.mapped view.target_of result ≡ rule.target (views.target_of read.entry) }
{
    match not_null(read.part.expr) {
        Ok(expr) => Ok(Target {
            name: read.name,
            expr,
        }),
        Err(cause) => Err(cause),
    }
}

/// One more target behind those that were found, or the least cause.
fn one_target<'a>(
    found: Result<Vec<Target<'a>>, PartCause>,
    read: TargetRead<'a>,
) -> Result<Result<Vec<Target<'a>>, PartCause>, AllocError>
    ensures { IfOk result (λ r. rule.mapped view.targets_of r
        ≡ rule.one_target (rule.mapped view.targets_of found.entry) (views.target_of read.entry)) }
{
    match both(found, target(read)) {
        Ok((mut targets, next)) => {
            targets.push(next)?;
            Ok(Ok(targets))
        }
        Err(cause) => Ok(Err(cause)),
    }
}

/// Where the first target stands that is too many.
fn target_beyond(reads: &[TargetRead<'_>]) -> Option<usize>
    ensures { result ≡ slice_get (map rule.target_start (views.targets_in reads.now)) MOST_ITEMS }
{
    match reads.get(MOST_ITEMS) {
        Some(read) => Some(read.part.start),
        None => None,
    }
}

/// The targets, but for their count.
fn each_target<'a>(
    alloc: Global,
    reads: Vec<TargetRead<'a>>,
) -> Result<Result<Vec<Target<'a>>, PartCause>, AllocError>
    ensures { IfOk result (λ r. rule.mapped view.targets_of r
        ≡ rule.each_target (views.targets_of reads.entry)) }
{
    let mut found = Ok(Vec::new(alloc));
    for read in reads {
        found = one_target(found, read)?;
    }
    Ok(found)
}

pub fn targets<'a>(
    alloc: Global,
    reads: Vec<TargetRead<'a>>,
) -> Result<Result<Vec<Target<'a>>, PartCause>, AllocError>
    ensures { IfOk result (λ r. rule.mapped view.targets_of r
        ≡ rule.targets (views.targets_of reads.entry)) }
{
    let beyond = target_beyond(reads.as_slice());
    let found = each_target(alloc, reads)?;
    Ok(refused_at(beyond, found))
}

pub fn filter<'a>(part: Option<Part<'a>>) -> Result<Option<Box<Expr<'a>>>, PartCause>
    ensures { rule.mapped view.filter_of result ≡ rule.filter (views.filter_of part.entry) }
{
    let Some(part) = part else {
        return Ok(None);
    };
    match not_null(part.expr) {
        Ok(expr) => Ok(Some(expr)),
        Err(cause) => Err(cause),
    }
}

pub fn filters<'a>(read: FiltersRead<'a>) -> Result<Filters<'a>, PartCause>
    ensures { rule.mapped view.filters_of result ≡ rule.filters (views.filters_of read.entry) }
{
    match both(filter(read.from), filter(read.filter)) {
        Ok((from, filter)) => Ok(Filters { from, filter }),
        Err(cause) => Err(cause),
    }
}

/// The place of the first target of a name among the others.
fn first_named(targets: &[TargetRead<'_>], name: &str) -> Option<usize>
    ensures { result ≡ views.first_named targets.now name.now }
{
    targets
        .iter()
        .position(|target| target.name.text().eq_ignore_ascii_case(name))
}

/// The first target of a name, in small or capital letters.
fn target_named(targets: &[TargetRead<'_>], name: &str) -> Option<usize>
    ensures { result ≡ rule.target_named (views.targets_in targets.now) name.now }
{
    first_named(targets, name)
}

/// The index of the target that a whole number from 1 is.
fn index_in(expr: &Expr<'_>) -> Option<u128>
    ensures { result ≡ rule.index_in (tree_of expr.now) }
{
    match expr {
        Expr::Leaf(_, Leaf::Number(n)) if n.places == 0 && n.count > 0 => {
            Some(n.count as u128 - 1)
        }
        _ => None,
    }
}

/// Whether it is a whole number that no machine holds.
fn is_great(expr: &Expr<'_>) -> bool
    ensures { result ≡ rule.is_great (tree_of expr.now) }
{
    match expr {
        Expr::Leaf(_, Leaf::TooWide(digits)) => !has_point(digits.text()),
        _ => false,
    }
}

fn has_point(digits: &str) -> bool
    ensures { result ≡ list_any is_point digits.now }
{
    digits.as_bytes().contains(&b'.')
}

/// A whole number from 1 is a target, and other numbers are themselves.
fn by_number<'a>(count: usize, place: usize, expr: Box<Expr<'a>>) -> Result<ItemKind<'a>, PartCause>
    ensures { rule.mapped view.kind_of result
        ≡ rule.by_number count place (tree_of expr.entry.value) }
{
    if is_great(&expr) {
        return Err(PartCause::unknown_name(place));
    }
    match index_in(&expr) {
        Some(index) if index < count as u128 => Ok(ItemKind::Target(index as usize)),
        Some(_) => Err(PartCause::unknown_name(place)),
        None => Ok(ItemKind::Expr(expr)),
    }
}

fn plain<'a>(found: Result<Box<Expr<'a>>, PartCause>) -> Result<ItemKind<'a>, PartCause>
    ensures { rule.mapped view.kind_of result ≡ rule.plain (tree_found found.entry) }
{
    match not_null(found) {
        Ok(expr) => Ok(ItemKind::Expr(expr)),
        Err(cause) => Err(cause),
    }
}

/// What an item stands for.
fn item_kind<'a>(
    targets: &[TargetRead<'_>],
    place: usize,
    alone: Alone<'a>,
    found: Result<Box<Expr<'a>>, PartCause>,
) -> Result<ItemKind<'a>, PartCause>
    ensures { rule.mapped view.kind_of result
        ≡ rule.kind_by (views.targets_in targets.now) place alone.entry (tree_found found.entry) }
{
    match alone {
        Alone::Name(name) => match target_named(targets, name.text()) {
            Some(index) => Ok(ItemKind::Target(index)),
            None => plain(found),
        },
        Alone::Number => match found {
            Ok(expr) => by_number(targets.len(), place, expr),
            Err(cause) => Err(cause),
        },
        Alone::No => plain(found),
    }
}

fn item<'a>(targets: &[TargetRead<'_>], part: Part<'a>) -> Result<Item<'a>, PartCause>
    ensures { rule.mapped view.item_of result
        ≡ rule.item (views.targets_in targets.now) (part_of part.entry) }
{
    let place = part.start;
    match item_kind(targets, place, part.alone, part.expr) {
        Ok(kind) => Ok(Item { place, kind }),
        Err(cause) => Err(cause),
    }
}

/// One more item behind those that were found, or the least cause.
fn one_item<'a>(
    targets: &[TargetRead<'_>],
    found: Result<Vec<Item<'a>>, PartCause>,
    part: Part<'a>,
) -> Result<Result<Vec<Item<'a>>, PartCause>, AllocError>
    ensures { IfOk result (λ r. rule.mapped view.items_of r
        ≡ rule.one_item (views.targets_in targets.now) (rule.mapped view.items_of found.entry)
        (part_of part.entry)) }
{
    match both(found, item(targets, part)) {
        Ok((mut items, next)) => {
            items.push(next)?;
            Ok(Ok(items))
        }
        Err(cause) => Ok(Err(cause)),
    }
}

/// The items, but for their count.
fn each_item<'a>(
    alloc: Global,
    targets: &[TargetRead<'_>],
    parts: Vec<Part<'a>>,
) -> Result<Result<Vec<Item<'a>>, PartCause>, AllocError>
    ensures { IfOk result (λ r. rule.mapped view.items_of r
        ≡ rule.each_item (views.targets_in targets.now) (parts_of parts.entry)) }
{
    let mut found = Ok(Vec::new(alloc));
    for part in parts {
        found = one_item(targets, found, part)?;
    }
    Ok(found)
}

/// Where the first part stands that is too many.
fn part_beyond(parts: &[Part<'_>]) -> Option<usize>
    ensures { result ≡ slice_get (map rule.part_start (parts_in parts.now)) MOST_ITEMS }
{
    match parts.get(MOST_ITEMS) {
        Some(part) => Some(part.start),
        None => None,
    }
}

fn items<'a>(
    alloc: Global,
    targets: &[TargetRead<'_>],
    parts: Vec<Part<'a>>,
) -> Result<Result<Vec<Item<'a>>, PartCause>, AllocError>
    ensures { IfOk result (λ r. rule.mapped view.items_of r
        ≡ rule.items (views.targets_in targets.now) (parts_of parts.entry)) }
{
    let beyond = part_beyond(parts.as_slice());
    let found = each_item(alloc, targets, parts)?;
    Ok(refused_at(beyond, found))
}

pub fn group<'a>(
    alloc: Global,
    targets: &[TargetRead<'_>],
    parts: Option<Vec<Part<'a>>>,
) -> Result<Result<Option<Vec<Item<'a>>>, PartCause>, AllocError>
    ensures { IfOk result (λ r. rule.mapped view.group_of r
        ≡ rule.group (views.targets_in targets.now) (views.group_of parts.entry)) }
{
    let Some(parts) = parts else {
        return Ok(Ok(None));
    };
    match items(alloc, targets, parts)? {
        Ok(items) => Ok(Ok(Some(items))),
        Err(cause) => Ok(Err(cause)),
    }
}

pub fn order<'a>(
    alloc: Global,
    targets: &[TargetRead<'_>],
    read: OrderRead<'a>,
) -> Result<Result<Order<'a>, PartCause>, AllocError>
    ensures { IfOk result (λ r. rule.mapped view.order_of r
        ≡ rule.order (views.targets_in targets.now) (views.order_of read.entry)) }
{
    let descending = read.descending;
    match items(alloc, targets, read.items)? {
        Ok(items) => Ok(Ok(Order { items, descending })),
        Err(cause) => Ok(Err(cause)),
    }
}
