//! What calls and lists stand for.
ghost use Rattle.std.specs.Prelude.{◌≡◌, ◌∷◌, IfOk};
ghost use Rattle.bql_tree.specs.Call as rule;
ghost use Rattle.bql_tree.specs.Part.{part_of, parts_in, parts_of, tree_found, trees_found};

use crate::cause::{PartCause, both};
use crate::function::{Function, Scope};
use crate::part::{Alone, Part, above, not_null, not_too_high, unknown};
use crate::tree::{Expr, Leaf, MetadataOwner, UnaryOperator};
use bean_base::Slice;
use bql_lexer::Token;
use limits::MOST_COMPONENTS;
use std::alloc::{AllocError, Global};

/// Whether a name is COUNT.
pub fn is_count(name: &Token<'_>) -> bool
    ensures { result ≡ rule.is_count name.now }
{
    name.text.text().eq_ignore_ascii_case("count")
}

fn greatest_height(parts: &[Part<'_>]) -> usize
    ensures { result ≡ rule.greatest_height (parts_in parts.now) }
{
    let mut height = 0;
    for part in parts {
        height = part.height.max(height);
    }
    height
}

/// One more expression behind those that were found, or the least cause.
fn one_more<'a>(
    found: Result<Vec<Expr<'a>>, PartCause>,
    part: Part<'a>,
) -> Result<Result<Vec<Expr<'a>>, PartCause>, AllocError>
    ensures { IfOk result (λ r. trees_found r
        ≡ rule.one_more (trees_found found.entry) (part_of part.entry)) }
{
    match both(found, not_null(part.expr)) {
        Ok((mut exprs, next)) => {
            exprs.push(Box::into_inner(next))?;
            Ok(Ok(exprs))
        }
        Err(cause) => Ok(Err(cause)),
    }
}

/// The expressions of some parts, none of which may be a NULL.
fn all_of<'a>(
    alloc: Global,
    parts: Vec<Part<'a>>,
) -> Result<Result<Vec<Expr<'a>>, PartCause>, AllocError>
    ensures { IfOk result (λ r. trees_found r ≡ rule.all_of (parts_of parts.entry)) }
{
    let mut found = Ok(Vec::new(alloc));
    for part in parts {
        found = one_more(found, part)?;
    }
    Ok(found)
}

/// A text literal, as a key or a pattern.
fn text_of<'a>(part: Part<'a>) -> Result<Slice<'a>, PartCause>
    ensures { result ≡ rule.text_of (part_of part.entry) }
{
    let outside = PartCause::outside_profile(part.start);
    match part.expr {
        Ok(expr) => match Box::into_inner(expr) {
            Expr::Leaf(_place, Leaf::Text(text)) => Ok(text),
            _other => Err(outside),
        },
        Err(cause) => Err(cause.least(outside)),
    }
}

/// What is looked up by a key, or matched with a pattern.
fn keyed<'a>(function: Function, key: Slice<'a>) -> Leaf<'a>
    ensures { result ≡ rule.keyed function key.entry }
{
    match function {
        Function::Meta => Leaf::Meta(MetadataOwner::Posting, key),
        Function::EntryMeta => Leaf::Meta(MetadataOwner::Transaction, key),
        Function::AnyMeta => Leaf::Meta(MetadataOwner::Any, key),
        _ => Leaf::HasAccount(key),
    }
}

fn takes_key(function: Function) -> bool
    ensures { result ≡ rule.takes_key function }
{
    matches!(
        function,
        Function::Meta | Function::EntryMeta | Function::AnyMeta | Function::HasAccount
    )
}

/// A literal that counts components.
fn components(part: Part<'_>) -> Result<u8, PartCause>
    ensures { result ≡ rule.components (part_of part.entry) }
{
    let outside = PartCause::outside_profile(part.start);
    match part.expr {
        Ok(expr) => match Box::into_inner(expr) {
            Expr::Leaf(_, Leaf::Number(n))
                if n.places == 0 && 1 <= n.count && n.count <= MOST_COMPONENTS as i128 => {
                Ok(n.count as u8)
            }
            _ => Err(outside),
        },
        Err(cause) => Err(cause.least(outside)),
    }
}

fn root<'a>(
    alloc: Global,
    start: usize,
    account: Part<'a>,
    count: Part<'a>,
) -> Result<Result<Box<Expr<'a>>, PartCause>, AllocError>
    ensures { IfOk result (λ r. tree_found r
        ≡ rule.root start (part_of account.entry) (part_of count.entry)) }
{
    match both(not_null(account.expr), components(count)) {
        Ok((account, count)) => {
            Ok(Ok(Box::new(alloc, Expr::One(start, UnaryOperator::Root(count), account))?))
        }
        Err(cause) => Ok(Err(cause)),
    }
}

/// A function of a key or a pattern.
fn of_text<'a>(
    alloc: Global,
    start: usize,
    function: Function,
    key: Part<'a>,
) -> Result<Result<Box<Expr<'a>>, PartCause>, AllocError>
    ensures { IfOk result (λ r. tree_found r
        ≡ rule.key_tree start function (rule.text_of (part_of key.entry))) }
{
    match text_of(key) {
        Ok(key) => Ok(Ok(Box::new(alloc, Expr::Leaf(start, keyed(function, key)))?)),
        Err(cause) => Ok(Err(cause)),
    }
}

/// A function of some parts.
fn plain<'a>(
    alloc: Global,
    start: usize,
    function: Function,
    parts: Vec<Part<'a>>,
) -> Result<Result<Box<Expr<'a>>, PartCause>, AllocError>
    ensures { IfOk result (λ r. tree_found r
        ≡ rule.plain start function (parts_of parts.entry)) }
{
    match all_of(alloc, parts)? {
        Ok(exprs) => Ok(Ok(Box::new(alloc, Expr::Call(start, function, exprs))?)),
        Err(cause) => Ok(Err(cause)),
    }
}

/// What stands from `start` to `end`, where it isn't too high.
fn high<'a>(
    start: usize,
    end: usize,
    height: usize,
    expr: Result<Box<Expr<'a>>, PartCause>,
) -> Part<'a>
    ensures { part_of result ≡ rule.high start end height (tree_found expr.entry) }
{
    Part {
        start,
        end,
        height,
        alone: Alone::No,
        expr: not_too_high(start, height, expr),
    }
}

/// A call of a function that is known.
fn applied<'a>(
    alloc: Global,
    start: usize,
    function: Function,
    parts: Vec<Part<'a>>,
) -> Result<Result<Box<Expr<'a>>, PartCause>, AllocError>
    ensures { IfOk result (λ r. tree_found r
        ≡ rule.applied start function (parts_of parts.entry)) }
{
    let mut parts = parts;
    if takes_key(function) && parts.len() == 1 {
        if let Some(key) = parts.pop() {
            return of_text(alloc, start, function, key);
        }
    }
    if function == Function::Root && parts.len() == 2 {
        if let (Some(count), Some(account)) = (parts.pop(), parts.pop()) {
            return root(alloc, start, account, count);
        }
    }
    plain(alloc, start, function, parts)
}

/// A call of a function that isn't known.
fn refused<'a>(
    alloc: Global,
    cause: PartCause,
    parts: Vec<Part<'a>>,
) -> Result<Result<Box<Expr<'a>>, PartCause>, AllocError>
    ensures { IfOk result (λ r. tree_found r ≡ rule.refused cause (parts_of parts.entry)) }
{
    match all_of(alloc, parts)? {
        Ok(_exprs) => Ok(Err(cause)),
        Err(other) => Ok(Err(other.least(cause))),
    }
}

/// A name with what it is called with.
pub fn called<'a>(
    alloc: Global,
    scope: Scope,
    name: &Token<'a>,
    parts: Vec<Part<'a>>,
    close: &Token<'a>,
) -> Result<Part<'a>, AllocError>
    ensures { IfOk result (λ p. part_of p
        ≡ rule.called scope name.now (parts_of parts.entry) close.now) }
{
    let height = above(greatest_height(parts.as_slice()));
    let expr = match Function::known(name.text.text(), scope) {
        Some(function) => applied(alloc, name.start, function, parts)?,
        None => refused(alloc, unknown(name), parts)?,
    };
    Ok(high(name.start, close.end, height, expr))
}

/// What is looked for in a list, before the list's items.
fn before<'a>(
    alloc: Global,
    left: Part<'a>,
    items: Vec<Part<'a>>,
) -> Result<Vec<Part<'a>>, AllocError>
    ensures { IfOk result (λ r. parts_of r ≡ part_of left.entry ∷ parts_of items.entry) }
{
    let mut items = items;
    items.insert(0, left)?;
    Ok(items)
}

/// Whether an expression is one of the items of a list.
pub fn listed<'a>(
    alloc: Global,
    left: Part<'a>,
    items: Vec<Part<'a>>,
    close: &Token<'a>,
) -> Result<Part<'a>, AllocError>
    ensures { IfOk result (λ p. part_of p
        ≡ rule.listed (part_of left.entry) (parts_of items.entry) close.now) }
{
    let start = left.start;
    let height = above(left.height);
    let parts = before(alloc, left, items)?;
    let expr = plain(alloc, start, Function::OneOf, parts)?;
    Ok(high(start, close.end, height, expr))
}
