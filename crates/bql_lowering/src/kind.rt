//! Of which kind the members of a list are.
ghost use Rattle.std.specs.Prelude.{◌≡◌};
ghost use Rattle.bql_lowering.specs.Kind as rule;
ghost use Rattle.bql_tree.specs.Tree.{trees_of};

use bql_tree::{Expr, Leaf};

/// Of which kind the members of a list are.
#[derive(Clone, Copy, Drop, PartialEq, Eq)]
pub(crate) enum ListKind {
    Texts,
    Days,
    Numbers,
}

fn kind_of(first: &Leaf<'_>) -> ListKind
    ensures { result ≡ rule.kind_of first.now }
{
    match first {
        Leaf::Text(_) => ListKind::Texts,
        Leaf::Day(_) => ListKind::Days,
        _ => ListKind::Numbers,
    }
}

/// The kind of the first member.
pub(crate) fn first_kind(members: &[Expr<'_>]) -> ListKind
    ensures { result ≡ rule.first_kind (trees_of members.now) }
{
    if members.is_empty() {
        return ListKind::Numbers;
    }
    match &members[0] {
        Expr::Leaf(_, leaf) => kind_of(leaf),
        _ => ListKind::Numbers,
    }
}
