//! Expressions that are the same, wherever they stand.
ghost use Rattle.std.specs.Prelude.{◌≡◌};
ghost use Rattle.bql_tree.specs.Tree.{tree_of, trees_of};
ghost use Rattle.bql_types.specs.Same as rule;

use bql_tree::{Expr, Leaf, UnaryOperator};

fn same_leaf(a: &Leaf<'_>, b: &Leaf<'_>) -> bool
    ensures { result ≡ rule.same_leaf a.now b.now }
{
    match (a, b) {
        (Leaf::Column(c), Leaf::Column(d)) => c == d,
        (Leaf::Null, Leaf::Null) => true,
        (Leaf::Number(m), Leaf::Number(n)) => m.places == n.places && m.count == n.count,
        (Leaf::TooWide(s), Leaf::TooWide(t)) => s == t,
        (Leaf::Text(s), Leaf::Text(t)) => s == t,
        (Leaf::Day(d), Leaf::Day(e)) => d.number() == e.number(),
        (Leaf::Truth(s), Leaf::Truth(t)) => *s == *t,
        (Leaf::Rows, Leaf::Rows) => true,
        (Leaf::Meta(e, s), Leaf::Meta(f, t)) => e == f && s == t,
        (Leaf::HasAccount(s), Leaf::HasAccount(t)) => s == t,
        _ => false,
    }
}

fn same_unary(a: &UnaryOperator<'_>, b: &UnaryOperator<'_>) -> bool
    ensures { result ≡ rule.same_unary a.now b.now }
{
    match (a, b) {
        (UnaryOperator::Not, UnaryOperator::Not) => true,
        (UnaryOperator::Minus, UnaryOperator::Minus) => true,
        (UnaryOperator::Matches(s), UnaryOperator::Matches(t)) => s == t,
        (UnaryOperator::Root(m), UnaryOperator::Root(n)) => m == n,
        _ => false,
    }
}

/// Whether two expressions are the same, wherever they stand.
#[cycle(same)]
pub fn same(a: &Expr<'_>, b: &Expr<'_>) -> bool
    ensures { result ≡ rule.same (tree_of a.now) (tree_of b.now) }
{
    match (a, b) {
        (Expr::Leaf(_, l), Expr::Leaf(_, m)) => same_leaf(l, m),
        (Expr::One(_, f, x), Expr::One(_, g, y)) => same_unary(f, g) && same(x, y),
        (Expr::Two(_, f, x, y), Expr::Two(_, g, z, w)) => *f == *g && same(x, z) && same(y, w),
        (Expr::Call(_, f, xs), Expr::Call(_, g, ys)) => *f == *g && same_all(xs, ys),
        _ => false,
    }
}

#[cycle(same)]
fn same_all(xs: &[Expr<'_>], ys: &[Expr<'_>]) -> bool
    ensures { result ≡ rule.all_same (trees_of xs.now) (trees_of ys.now) }
{
    if xs.len() != ys.len() {
        return false;
    }
    for i in 0..xs.len() {
        if !same(&xs[i], &ys[i]) {
            return false;
        }
    }
    true
}
