//! Columns and metadata that stand outside aggregates and keys.
ghost use Rattle.std.specs.Prelude.{◌≡◌};
ghost use Rattle.bql_tree.specs.Tree.{tree_of, trees_of};
ghost use Rattle.bql_types.specs.Cause.{told};
ghost use Rattle.bql_types.specs.Keys.{lent_trees};
ghost use Rattle.bql_types.specs.Sought as rule;

use crate::aggregates::{is_aggregate_function, is_rows};
use crate::cause::{TypeCause, TypeCauseKind, where_true};
use crate::same::same;
use bql_tree::{Expr, Leaf};

/// An expression of a query, lent: a key by whose values rows are grouped, or another.
#[derive(Clone, Copy)]
pub struct Key<'q, 'a> {
    pub expr: &'q Expr<'a>,
}

fn is_of_row(leaf: &Leaf<'_>) -> bool
    ensures { result ≡ rule.is_of_row leaf.now }
{
    matches!(
        leaf,
        Leaf::Column(_) | Leaf::Meta(_, _) | Leaf::HasAccount(_)
    )
}

/// Whether an expression is the same as one of the keys.
pub fn is_key(keys: &[Key<'_, '_>], e: &Expr<'_>) -> bool
    ensures { result ≡ rule.is_key (lent_trees keys.now) (tree_of e.now) }
{
    for i in 0..keys.len() {
        if same(e, keys[i].expr) {
            return true;
        }
    }
    false
}

/// The least of the causes that were found before, and of what stands outside aggregates and keys.
#[cycle(ungrouped)]
#[tactic(auto, using(crate::proofs::CauseFacts::told_append))]
pub(crate) fn ungrouped(
    keys: &[Key<'_, '_>],
    e: &Expr<'_>,
    found: Option<TypeCause>,
) -> Option<TypeCause>
    ensures { result ≡ told found (rule.ungrouped (lent_trees keys.now) (tree_of e.now)) }
{
    if is_key(keys, e) {
        return found;
    }
    match e {
        Expr::Leaf(place, leaf) => {
            let cause = TypeCause::at(TypeCauseKind::NotGrouped, *place);
            where_true(found, is_of_row(leaf), cause)
        }
        Expr::One(_, _, x) => ungrouped(keys, x, found),
        Expr::Two(_, _, x, y) => ungrouped(keys, y, ungrouped(keys, x, found)),
        Expr::Call(_, function, xs) => {
            if is_aggregate_function(*function) {
                found
            } else {
                all_ungrouped(keys, xs, found)
            }
        }
    }
}

#[cycle(ungrouped)]
#[tactic(auto, using(crate::proofs::CauseFacts::told_append))]
fn all_ungrouped(
    keys: &[Key<'_, '_>],
    es: &[Expr<'_>],
    found: Option<TypeCause>,
) -> Option<TypeCause>
    ensures { result ≡ told found (rule.all_ungrouped (lent_trees keys.now) (trees_of es.now)) }
{
    let mut found = found;
    for e in es {
        found = ungrouped(keys, e, found);
    }
    found
}
