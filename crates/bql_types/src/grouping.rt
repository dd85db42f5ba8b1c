//! How the rows of a query come to be.
ghost use Rattle.std.specs.Prelude.{◌≡◌, ◌++◌, IfOk, map};
ghost use Rattle.bql_parser.specs.View.{target_of, item_of};
ghost use Rattle.bql_types.specs.Keys as view;
ghost use Rattle.bql_types.specs.Typing as rule;

use crate::aggregates::aggregates;
use crate::grouped::Key;
use bql_parser::{Item, ItemKind, Target};
use std::alloc::{AllocError, Global};

/// How the rows of a query come to be: each of its own, or each of a group with these keys. There
/// are none where the query doesn't aggregate.
#[derive(Drop)]
pub struct Grouping<'q, 'a> {
    pub is_aggregating: bool,
    pub keys: Vec<Key<'q, 'a>>,
}

/// Whether an aggregate stands in a target.
fn one_aggregates(targets: &[Target<'_>]) -> bool
    ensures { result ≡ rule.one_target_aggregates (map target_of targets.now) }
{
    for target in targets {
        if aggregates(&target.expr) {
            return true;
        }
    }
    false
}

/// What an item of GROUP BY is, or the target that it names.
fn key_of<'q, 'a>(targets: &'q [Target<'a>], item: &'q Item<'a>) -> Option<Key<'q, 'a>>
    ensures { view.key_found result
        ≡ rule.key_of (map target_of targets.now) (item_of item.now) }
{
    match &item.kind {
        ItemKind::Target(index) => match targets.get(*index) {
            Some(target) => Some(Key { expr: &target.expr }),
            None => None,
        },
        ItemKind::Expr(e) => Some(Key { expr: e }),
    }
}

/// One more key, if there is one.
fn one_more<'q, 'a>(
    keys: Vec<Key<'q, 'a>>,
    key: Option<Key<'q, 'a>>,
) -> Result<Vec<Key<'q, 'a>>, AllocError>
    ensures { IfOk result (λ r. view.lent_trees r.items
        ≡ view.lent_trees keys.entry.items ++ view.key_found key.entry) }
{
    let mut keys = keys;
    if let Some(key) = key {
        keys.push(key)?;
    }
    Ok(keys)
}

/// The expressions of the items of GROUP BY.
fn group_keys<'q, 'a>(
    alloc: Global,
    targets: &'q [Target<'a>],
    items: &'q [Item<'a>],
) -> Result<Vec<Key<'q, 'a>>, AllocError>
    ensures { IfOk result (λ r. view.lent_trees r.items
        ≡ rule.keys_of (map target_of targets.now) (map item_of items.now)) }
{
    let mut keys = Vec::new(alloc);
    for item in items {
        keys = one_more(keys, key_of(targets, item))?;
    }
    Ok(keys)
}

/// A target that has no aggregate.
fn plain_target<'q, 'a>(target: &'q Target<'a>) -> Option<Key<'q, 'a>>
    ensures { view.key_found result ≡ rule.plain_target (target_of target.now) }
{
    if aggregates(&target.expr) {
        None
    } else {
        Some(Key { expr: &target.expr })
    }
}

/// The targets that have no aggregate.
fn plain_targets<'q, 'a>(
    alloc: Global,
    targets: &'q [Target<'a>],
) -> Result<Vec<Key<'q, 'a>>, AllocError>
    ensures { IfOk result (λ r. view.lent_trees r.items
        ≡ rule.plain_targets (map target_of targets.now)) }
{
    let mut keys = Vec::new(alloc);
    for target in targets {
        keys = one_more(keys, plain_target(target))?;
    }
    Ok(keys)
}

/// The keys of a query without GROUP BY.
fn keys_of_targets<'q, 'a>(
    alloc: Global,
    is_aggregating: bool,
    targets: &'q [Target<'a>],
) -> Result<Vec<Key<'q, 'a>>, AllocError>
    ensures { IfOk result (λ r. view.lent_trees r.items
        ≡ rule.keys_of_targets is_aggregating (map target_of targets.now)) }
{
    if is_aggregating {
        plain_targets(alloc, targets)
    } else {
        Ok(Vec::new(alloc))
    }
}

/// How the rows of a query come to be.
pub fn grouped_by<'q, 'a>(
    alloc: Global,
    targets: &'q [Target<'a>],
    group: &'q Option<Vec<Item<'a>>>,
) -> Result<Grouping<'q, 'a>, AllocError>
    ensures { IfOk result (λ r. view.grouping_of r
        ≡ rule.grouping_by (map target_of targets.now) (view.group_of group.now)) }
{
    match group {
        Some(items) => Ok(Grouping {
            is_aggregating: true,
            keys: group_keys(alloc, targets, items.as_slice())?,
        }),
        None => {
            let is_aggregating = one_aggregates(targets);
            let keys = keys_of_targets(alloc, is_aggregating, targets)?;
            Ok(Grouping {
                is_aggregating,
                keys,
            })
        }
    }
}
