//! The SELECT that a JOURNAL or a BALANCES stands for.
ghost use Rattle.std.specs.Prelude.{◌≡◌, ◌++◌, ◌∷◌, [], IfOk};
ghost use Rattle.bql_parser.specs.Standing as rule;
ghost use Rattle.bql_parser.specs.View as view;
ghost use Rattle.query_terms.specs.Column.{name};
ghost use Rattle.bql_tree.specs.Tree.{tree_of};

use crate::query::{Draft, Filters, Item, ItemKind, Order, Target};
use bean_base::Slice;
use bql_tree::{Column, Expr, Function, Leaf, UnaryOperator};
use std::alloc::{AllocError, Global};

/// What AT makes of positions.
#[derive(Clone, Copy, Drop, PartialEq, Eq)]
pub enum Valuation {
    Units,
    Cost,
}

fn of_column<'a>(alloc: Global, column: Column) -> Result<Box<Expr<'a>>, AllocError>
    ensures { IfOk result (λ e. tree_of e.value ≡ rule.of_column column) }
{
    Ok(Box::new(alloc, Expr::Leaf(0, Leaf::Column(column)))?)
}

/// A function of one argument.
fn applied<'a>(
    alloc: Global,
    function: Function,
    argument: Box<Expr<'a>>,
) -> Result<Box<Expr<'a>>, AllocError>
    ensures { IfOk result (λ e. tree_of e.value
        ≡ rule.applied function (tree_of argument.entry.value)) }
{
    let mut arguments = Vec::new(alloc);
    arguments.push(Box::into_inner(argument))?;
    Ok(Box::new(alloc, Expr::Call(0, function, arguments))?)
}

/// A column, and what AT makes of it.
fn valued<'a>(
    alloc: Global,
    at: Option<Valuation>,
    column: Column,
) -> Result<Box<Expr<'a>>, AllocError>
    ensures { IfOk result (λ e. tree_of e.value ≡ rule.valued at (rule.of_column column)) }
{
    let argument = of_column(alloc, column)?;
    match at {
        None => Ok(argument),
        Some(Valuation::Units) => applied(alloc, Function::Units, argument),
        Some(Valuation::Cost) => applied(alloc, Function::Cost, argument),
    }
}

/// The postings of accounts that match a pattern.
fn matching<'a>(
    alloc: Global,
    pattern: Option<Slice<'a>>,
) -> Result<Option<Box<Expr<'a>>>, AllocError>
    ensures { IfOk result (λ e. view.filter_of e ≡ rule.matching pattern.entry) }
{
    let Some(pattern) = pattern else {
        return Ok(None);
    };
    let account = of_column(alloc, Column::Account)?;
    Ok(Some(Box::new(
        alloc,
        Expr::One(0, UnaryOperator::Matches(pattern), account),
    )?))
}

/// One more target.
fn one_more<'a>(
    targets: Vec<Target<'a>>,
    name: &'static str,
    expr: Box<Expr<'a>>,
) -> Result<Vec<Target<'a>>, AllocError>
    ensures { IfOk result (λ r. view.targets_of r ≡ view.targets_of targets.entry
        ++ rule.named name.now (tree_of expr.entry.value) ∷ []) }
{
    let mut targets = targets;
    targets.push(Target {
        name: Slice::new(name),
        expr,
    })?;
    Ok(targets)
}

/// One more target, a column under its own name.
fn one_column<'a>(
    alloc: Global,
    targets: Vec<Target<'a>>,
    column: Column,
) -> Result<Vec<Target<'a>>, AllocError>
    ensures { IfOk result (λ r. view.targets_of r ≡ view.targets_of targets.entry
        ++ rule.named (name column) (rule.of_column column) ∷ []) }
{
    one_more(targets, column.name(), of_column(alloc, column)?)
}

fn journal_targets<'a>(alloc: Global, at: Option<Valuation>) -> Result<Vec<Target<'a>>, AllocError>
    ensures { IfOk result (λ r. view.targets_of r ≡ rule.journal_targets at) }
{
    let targets = one_column(alloc, Vec::new(alloc), Column::Date)?;
    let targets = one_column(alloc, targets, Column::Flag)?;
    let targets = one_column(alloc, targets, Column::Payee)?;
    let targets = one_column(alloc, targets, Column::Narration)?;
    let targets = one_column(alloc, targets, Column::Account)?;
    let targets = one_more(targets, "position", valued(alloc, at, Column::Position)?)?;
    one_more(targets, "balance", valued(alloc, at, Column::Balance)?)
}

/// The SELECT that a JOURNAL stands for.
pub fn journal<'a>(
    alloc: Global,
    pattern: Option<Slice<'a>>,
    at: Option<Valuation>,
    from: Option<Box<Expr<'a>>>,
) -> Result<Draft<'a>, AllocError>
    ensures { IfOk result (λ d. view.draft_of d
        ≡ rule.journal pattern.entry at (view.filter_of from.entry)) }
{
    let targets = journal_targets(alloc, at)?;
    let filter = matching(alloc, pattern)?;
    Ok(Draft {
        distinct: false,
        targets,
        filters: Filters { from, filter },
        group: None,
        order: Order {
            items: Vec::new(alloc),
            descending: false,
        },
        limit: None,
    })
}

fn balances_targets<'a>(alloc: Global, at: Option<Valuation>) -> Result<Vec<Target<'a>>, AllocError>
    ensures { IfOk result (λ r. view.targets_of r ≡ rule.balances_targets at) }
{
    let targets = one_column(alloc, Vec::new(alloc), Column::Account)?;
    let position = valued(alloc, at, Column::Position)?;
    one_more(targets, "balance", applied(alloc, Function::Sum, position)?)
}

/// What rows are grouped or ordered by, at the query's first byte.
fn item<'a>(kind: ItemKind<'a>) -> Item<'a>
    ensures { view.item_of result ≡ rule.item (view.kind_of kind.entry) }
{
    Item { place: 0, kind }
}

fn by_root_and_account<'a>(alloc: Global) -> Result<Order<'a>, AllocError>
    ensures { IfOk result (λ r. view.order_of r ≡ rule.by_root_and_account) }
{
    let account = of_column(alloc, Column::Account)?;
    let rank = applied(alloc, Function::RootRank, account)?;
    let mut items = Vec::new(alloc);
    items.push(item(ItemKind::Expr(rank)))?;
    items.push(item(ItemKind::Target(0)))?;
    Ok(Order {
        items,
        descending: false,
    })
}

/// The SELECT that a BALANCES stands for.
pub fn balances<'a>(
    alloc: Global,
    at: Option<Valuation>,
    filters: Filters<'a>,
) -> Result<Draft<'a>, AllocError>
    ensures { IfOk result (λ d. view.draft_of d ≡ rule.balances at (view.filters_of filters.entry)) }
{
    let targets = balances_targets(alloc, at)?;
    let mut group = Vec::new(alloc);
    group.push(item(ItemKind::Target(0)))?;
    Ok(Draft {
        distinct: false,
        targets,
        filters,
        group: Some(group),
        order: by_root_and_account(alloc)?,
        limit: None,
    })
}
