//! What was read of an expression.
ghost use Rattle.std.specs.Prelude.{◌≡◌, IfOk};
ghost use Rattle.bql_tree.specs.Part as rule;
ghost use Rattle.bql_tree.specs.Part.{part_of, tree_found};
ghost use Rattle.bql_tree.specs.Tree.{tree_of};

use crate::cause::{PartCause, both};
use crate::function::{Scope, is_left_out};
use crate::tree::{BinaryOperator, Expr, Leaf, UnaryOperator};
use bean_base::Slice;
use bql_lexer::Token;
use limits::GREATEST_HEIGHT;
use query_terms::Column;
use std::alloc::{AllocError, Global};

/// Whether an expression is one token, without parentheses.
#[derive(Drop)]
pub enum Alone<'a> {
    No,
    Name(Slice<'a>),
    Number,
}

/// What was read of an expression: from where to where it stands, how high it is, and its tree, in
/// which it may itself be a NULL, or else the least of the causes for which it is refused.
#[derive(Drop)]
pub struct Part<'a> {
    pub start: usize,
    pub end: usize,
    /// A leaf has the height 1, and each operation, sign and parenthesis is one above its parts. At
    /// most 201.
    pub height: usize,
    pub alone: Alone<'a>,
    pub expr: Result<Box<Expr<'a>>, PartCause>,
}

/// The height of what stands around something.
pub fn above(height: usize) -> usize
    ensures { result ≡ rule.above height }
{
    if height > GREATEST_HEIGHT {
        height
    } else {
        height + 1
    }
}

/// What is found, or its least cause, where it isn't too high.
pub fn not_too_high<T: Drop>(
    start: usize,
    height: usize,
    found: Result<T, PartCause>,
) -> Result<T, PartCause>
    ensures { result ≡ rule.not_too_high start height found }
{
    if height <= GREATEST_HEIGHT {
        return found;
    }
    match found {
        Ok(_found) => Err(PartCause::outside_profile(start)),
        Err(cause) => Err(cause.least(PartCause::outside_profile(start))),
    }
}

/// Where a NULL stands.
fn null_place(expr: &Expr<'_>) -> Option<usize>
    ensures { result ≡ rule.null_at (tree_of expr.now) }
{
    match expr {
        Expr::Leaf(place, Leaf::Null) => Some(*place),
        _ => None,
    }
}

/// An expression that may not be a NULL.
pub fn not_null<'a>(found: Result<Box<Expr<'a>>, PartCause>) -> Result<Box<Expr<'a>>, PartCause>
    ensures { tree_found result ≡ rule.not_null (tree_found found.entry) }
{
    match found {
        Ok(expr) => match null_place(&expr) {
            Some(place) => Err(PartCause::outside_profile(place)),
            None => Ok(expr),
        },
        Err(cause) => Err(cause),
    }
}

/// The sides of an equation, of which one may be NULL.
fn equated<'a>(
    left: Result<Box<Expr<'a>>, PartCause>,
    right: Result<Box<Expr<'a>>, PartCause>,
) -> Result<(Box<Expr<'a>>, Box<Expr<'a>>), PartCause>
    ensures { rule.pair_found result
        ≡ rule.equated (tree_found left.entry) (tree_found right.entry) }
{
    match (left, right) {
        (Ok(left), Ok(right)) => match (null_place(&left), null_place(&right)) {
            (Some(place), Some(_)) => Err(PartCause::outside_profile(place)),
            _ => Ok((left, right)),
        },
        (left, right) => both(left, right),
    }
}

/// A token that is an expression.
pub fn leaf<'a>(alloc: Global, token: &Token<'a>, leaf: Leaf<'a>) -> Result<Part<'a>, AllocError>
    ensures { IfOk result (λ p. part_of p ≡ rule.leaf token.now leaf.entry) }
{
    let alone = match leaf {
        Leaf::Number(_) | Leaf::TooWide(_) => Alone::Number,
        _ => Alone::No,
    };
    Ok(Part {
        start: token.start,
        end: token.end,
        height: 1,
        alone,
        expr: Ok(Box::new(alloc, Expr::Leaf(token.start, leaf))?),
    })
}

/// Why a name that stands for nothing is refused.
pub fn unknown(token: &Token<'_>) -> PartCause
    ensures { result ≡ rule.unknown token.now }
{
    if is_left_out(token.text.text()) {
        PartCause::outside_profile(token.start)
    } else {
        PartCause::unknown_name(token.start)
    }
}

fn column(token: &Token<'_>, scope: Scope) -> Option<Column>
    ensures { result ≡ rule.column scope token.now }
{
    match Column::named(token.text.text()) {
        Some(column) if scope == Scope::Postings || column.is_of_transaction() => Some(column),
        _ => None,
    }
}

/// A name that is an expression.
pub fn name<'a>(alloc: Global, token: &Token<'a>, scope: Scope) -> Result<Part<'a>, AllocError>
    ensures { IfOk result (λ p. part_of p ≡ rule.name scope token.now) }
{
    let expr = match column(token, scope) {
        Some(column) => Ok(Box::new(alloc, Expr::Leaf(token.start, Leaf::Column(column)))?),
        None => Err(unknown(token)),
    };
    Ok(Part {
        start: token.start,
        end: token.end,
        height: 1,
        alone: Alone::Name(token.text.lend()),
        expr,
    })
}

/// `COUNT(*)`
pub fn rows<'a>(alloc: Global, name: &Token<'a>, close: &Token<'a>) -> Result<Part<'a>, AllocError>
    ensures { IfOk result (λ p. part_of p ≡ rule.rows name.now close.now) }
{
    Ok(Part {
        start: name.start,
        end: close.end,
        height: 1,
        alone: Alone::No,
        expr: Ok(Box::new(alloc, Expr::Leaf(name.start, Leaf::Rows))?),
    })
}

/// An expression in parentheses.
pub fn group<'a>(opening: &Token<'a>, inner: Part<'a>, close: &Token<'a>) -> Part<'a>
    ensures { part_of result ≡ rule.group opening.now (part_of inner.entry) close.now }
{
    let height = above(inner.height);
    Part {
        start: opening.start,
        end: close.end,
        height,
        alone: Alone::No,
        expr: not_too_high(opening.start, height, inner.expr),
    }
}

/// One operation on an expression, from `start` to `end`.
fn one<'a>(
    alloc: Global,
    start: usize,
    end: usize,
    op: UnaryOperator<'a>,
    inner: Part<'a>,
) -> Result<Part<'a>, AllocError>
    ensures { IfOk result (λ p. part_of p
        ≡ rule.one start end op.entry (part_of inner.entry)) }
{
    let height = above(inner.height);
    let expr = match not_too_high(start, height, not_null(inner.expr)) {
        Ok(inner) => Ok(Box::new(alloc, Expr::One(start, op, inner))?),
        Err(cause) => Err(cause),
    };
    Ok(Part {
        start,
        end,
        height,
        alone: Alone::No,
        expr,
    })
}

/// `NOT` and an expression.
pub fn denied<'a>(alloc: Global, not: &Token<'a>, inner: Part<'a>) -> Result<Part<'a>, AllocError>
    ensures { IfOk result (λ p. part_of p ≡ rule.denied not.now (part_of inner.entry)) }
{
    let end = inner.end;
    one(alloc, not.start, end, UnaryOperator::Not, inner)
}

/// A sign and an expression; a plus changes nothing.
pub fn signed<'a>(
    alloc: Global,
    sign: &Token<'a>,
    is_minus: bool,
    inner: Part<'a>,
) -> Result<Part<'a>, AllocError>
    ensures { IfOk result (λ p. part_of p
        ≡ rule.signed sign.now is_minus (part_of inner.entry)) }
{
    let (start, end) = (sign.start, inner.end);
    if is_minus {
        return one(alloc, start, end, UnaryOperator::Minus, inner);
    }
    let height = above(inner.height);
    Ok(Part {
        start,
        end,
        height,
        alone: Alone::No,
        expr: not_too_high(start, height, inner.expr),
    })
}

/// An expression and a pattern.
pub fn matched<'a>(
    alloc: Global,
    inner: Part<'a>,
    pattern: &Token<'a>,
) -> Result<Part<'a>, AllocError>
    ensures { IfOk result (λ p. part_of p ≡ rule.matched (part_of inner.entry) pattern.now) }
{
    let start = inner.start;
    one(
        alloc,
        start,
        pattern.end,
        UnaryOperator::Matches(pattern.text.lend()),
        inner,
    )
}

/// The sides of an operation.
fn sides<'a>(
    op: BinaryOperator,
    left: Result<Box<Expr<'a>>, PartCause>,
    right: Result<Box<Expr<'a>>, PartCause>,
) -> Result<(Box<Expr<'a>>, Box<Expr<'a>>), PartCause>
    ensures { rule.pair_found result
        ≡ rule.sides op (tree_found left.entry) (tree_found right.entry) }
{
    match op {
        BinaryOperator::Equal | BinaryOperator::NotEqual => equated(left, right),
        _ => both(not_null(left), not_null(right)),
    }
}

/// An operation between two expressions.
pub fn two<'a>(
    alloc: Global,
    op: BinaryOperator,
    left: Part<'a>,
    right: Part<'a>,
) -> Result<Part<'a>, AllocError>
    ensures { IfOk result (λ p. part_of p
        ≡ rule.two op (part_of left.entry) (part_of right.entry)) }
{
    let (start, end) = (left.start, right.end);
    let height = above(left.height.max(right.height));
    let expr = match not_too_high(start, height, sides(op, left.expr, right.expr)) {
        Ok((left, right)) => Ok(Box::new(alloc, Expr::Two(start, op, left, right))?),
        Err(cause) => Err(cause),
    };
    Ok(Part {
        start,
        end,
        height,
        alone: Alone::No,
        expr,
    })
}
