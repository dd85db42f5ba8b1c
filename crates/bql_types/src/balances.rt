//! Where the running balance stands.
ghost use Rattle.std.specs.Prelude.{◌≡◌};
ghost use Rattle.bql_tree.specs.Tree.{tree_of, trees_of};
ghost use Rattle.bql_types.specs.Cause.{told};
ghost use Rattle.bql_types.specs.Sought as rule;

use crate::cause::{TypeCause, TypeCauseKind, where_true};
use bql_tree::{Column, Expr, Leaf};

fn is_balance(leaf: &Leaf<'_>) -> bool
    ensures { result ≡ rule.is_balance_leaf leaf.now }
{
    matches!(leaf, Leaf::Column(Column::Balance))
}

/// The least of the causes that were found before, and of the places of the running balance.
#[cycle(balances)]
#[tactic(auto, using(crate::proofs::CauseFacts::told_append))]
pub(crate) fn balances(e: &Expr<'_>, found: Option<TypeCause>) -> Option<TypeCause>
    ensures { result ≡ told found (rule.balances (tree_of e.now)) }
{
    match e {
        Expr::Leaf(place, leaf) => {
            let cause = TypeCause::at(TypeCauseKind::BalanceMisplaced, *place);
            where_true(found, is_balance(leaf), cause)
        }
        Expr::One(_, _, x) => balances(x, found),
        Expr::Two(_, _, x, y) => balances(y, balances(x, found)),
        Expr::Call(_, _, xs) => all_balances(xs, found),
    }
}

#[cycle(balances)]
#[tactic(auto, using(crate::proofs::CauseFacts::told_append))]
fn all_balances(es: &[Expr<'_>], found: Option<TypeCause>) -> Option<TypeCause>
    ensures { result ≡ told found (rule.all_balances (trees_of es.now)) }
{
    let mut found = found;
    for e in es {
        found = balances(e, found);
    }
    found
}
