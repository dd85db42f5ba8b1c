//! The clauses of queries at the front of some tokens.
ghost use Rattle.std.specs.Prelude.{◌≡◌, ◌<◌, ◌≤◌, None, Some, length, MatchOption, IfOk, IfSome};
ghost use Rattle.theory.specs.Form.{Reads};
ghost use Rattle.bql_grammar.specs.Front.{front};
ghost use Rattle.bql_tree.specs.Part.{part_of, parts_of};
ghost use Rattle.bql_grammar.specs.Piece as piece;
ghost use Rattle.bql_grammar.specs.Grammar as rule;
ghost use Rattle.bql_grammar.specs.Read as views;
ghost use Rattle.bql_grammar.specs.Stopping.{GivesFrom, IsFresh, IsClear, IsClearFor};

use crate::clauses::{
    BalancesRead, FiltersRead, JournalRead, NameRead, OrderRead, QueryRead, SelectRead, TargetRead,
};
use crate::front::after;
use crate::{Stuck, expression};
use bean_base::Slice;
use bql_lexer::{Kind, Token};
use bql_tree::number::number;
use bql_tree::part::leaf;
use bql_tree::{Column, Leaf, Part, Scope};
use std::alloc::{AllocError, Global};

/// Outside expressions nothing is deep.
pub const WIDE: usize = 1;

/// Whether a token of a kind stands at the front, and what stands behind it.
pub fn flag<'t, 'a>(tokens: &'t [Token<'a>], kind: Kind) -> (bool, &'t [Token<'a>])
    ensures { Reads (rule.flag kind) tokens.now result.0 result.1.now }
{
    match after(tokens, kind) {
        Some((_, rest)) => (true, rest),
        None => (false, tokens),
    }
}

/// A filter behind its word, if it is written.
pub fn filter<'t, 'a>(
    alloc: Global,
    tokens: &'t [Token<'a>],
    word: Kind,
    scope: Scope,
) -> Result<(Option<Part<'a>>, &'t [Token<'a>]), Stuck>
    ensures { GivesFrom (IsClearFor word) (rule.filter word scope) views.filter_of tokens.now result }
{
    let Some((_, behind)) = after(tokens, word) else {
        return Ok((None, tokens));
    };
    let found = match expression(alloc, behind, scope) {
        Ok(found) => found,
        Err(stuck) => return Err(stuck),
    };
    let (part, rest) = found;
    Ok((Some(part), rest))
}

/// FROM and WHERE, where they are written.
pub fn filters<'t, 'a>(
    alloc: Global,
    tokens: &'t [Token<'a>],
) -> Result<(FiltersRead<'a>, &'t [Token<'a>]), Stuck>
    ensures { GivesFrom IsClear rule.filters views.filters_of tokens.now result }
{
    let found = match filter(alloc, tokens, Kind::From, Scope::Transactions) {
        Ok(found) => found,
        Err(stuck) => return Err(stuck),
    };
    let (from, rest) = found;
    let found = match filter(alloc, rest, Kind::Where, Scope::Postings) {
        Ok(found) => found,
        Err(stuck) => return Err(stuck),
    };
    let (filter, rest) = found;
    Ok((FiltersRead { from, filter }, rest))
}

/// Expressions with commas between them.
fn items<'t, 'a>(
    alloc: Global,
    tokens: &'t [Token<'a>],
) -> Result<(Vec<Part<'a>>, &'t [Token<'a>]), Stuck>
    ensures { GivesFrom IsFresh rule.items parts_of tokens.now result }
{
    let mut parts = Vec::new(alloc);
    let found = match expression(alloc, tokens, Scope::Postings) {
        Ok(found) => found,
        Err(stuck) => return Err(stuck),
    };
    let (first, mut rest) = found;
    parts.push(first)?;
    while let Some((_, behind)) = after(rest, Kind::Comma) {
        let found = match expression(alloc, behind, Scope::Postings) {
            Ok(found) => found,
            Err(stuck) => return Err(stuck),
        };
        let (part, more) = found;
        parts.push(part)?;
        rest = more;
    }
    Ok((parts, rest))
}

/// BY and items.
fn by_items<'t, 'a>(
    alloc: Global,
    tokens: &'t [Token<'a>],
) -> Result<(Option<Vec<Part<'a>>>, &'t [Token<'a>]), Stuck>
    ensures { GivesFrom IsFresh rule.items_in views.group_of tokens.now result }
{
    let Some((_, behind)) = after(tokens, Kind::By) else {
        return Err(Stuck::before(tokens, WIDE));
    };
    let found = match items(alloc, behind) {
        Ok(found) => found,
        Err(stuck) => return Err(stuck),
    };
    let (parts, rest) = found;
    Ok((Some(parts), rest))
}

/// Items behind a word and BY, if they are written.
pub fn items_by<'t, 'a>(
    alloc: Global,
    tokens: &'t [Token<'a>],
    word: Kind,
) -> Result<(Option<Vec<Part<'a>>>, &'t [Token<'a>]), Stuck>
    ensures { GivesFrom (IsClearFor word) (rule.items_by word) views.group_of tokens.now result }
{
    match after(tokens, word) {
        Some((_, behind)) => by_items(alloc, behind),
        None => Ok((None, tokens)),
    }
}

/// Whether the place is a character's, or the text's end.
fn is_cut(text: &str, at: usize) -> bool
    ensures { result ≡ piece.is_cut text.now at }
{
    match text.as_bytes().get(at) {
        Some(b) => *b < 128 || 192 <= *b,
        None => at == text.len(),
    }
}

/// What stands between two places of a text.
fn piece(text: &str, start: usize, end: usize) -> &str
    ensures { result.now ≡ piece.piece text.now start end }
{
    if start <= end && is_cut(text, start) && is_cut(text, end) {
        &text[start..end]
    } else {
        ""
    }
}

/// An expression with its name: what follows AS, or else its own text.
fn with_name<'t, 'a>(
    text: &'a str,
    tokens: &'t [Token<'a>],
    part: Part<'a>,
) -> Result<(TargetRead<'a>, &'t [Token<'a>]), Stuck>
    ensures { GivesFrom IsClear (rule.with_name text.now (part_of part.entry)) views.target_of tokens.now
        result }
{
    let Some((_, behind)) = after(tokens, Kind::As) else {
        let name = Slice::new(piece(text, part.start, part.end));
        return Ok((TargetRead { name, part }, tokens));
    };
    let Some((name, rest)) = after(behind, Kind::Name) else {
        return Err(Stuck::before(behind, WIDE));
    };
    let name = name.text.lend();
    Ok((TargetRead { name, part }, rest))
}

/// A target.
fn target<'t, 'a>(
    alloc: Global,
    text: &'a str,
    tokens: &'t [Token<'a>],
) -> Result<(TargetRead<'a>, &'t [Token<'a>]), Stuck>
    ensures read { GivesFrom IsFresh (rule.target text.now) views.target_of tokens.now result }
    ensures shorter { IfOk result (λ r. length r.1.now < length tokens.now) }
{
    let found = match expression(alloc, tokens, Scope::Postings) {
        Ok(found) => found,
        Err(stuck) => return Err(stuck),
    };
    let (part, rest) = found;
    with_name(text, rest, part)
}

/// One or more targets.
fn targets<'t, 'a>(
    alloc: Global,
    text: &'a str,
    tokens: &'t [Token<'a>],
) -> Result<(Vec<TargetRead<'a>>, &'t [Token<'a>]), Stuck>
    ensures { GivesFrom IsFresh (rule.targets text.now) views.targets_of tokens.now result }
{
    let mut targets = Vec::new(alloc);
    let found = match target(alloc, text, tokens) {
        Ok(found) => found,
        Err(stuck) => return Err(stuck),
    };
    let (first, mut rest) = found;
    targets.push(first)?;
    while let Some((_, behind)) = after(rest, Kind::Comma) {
        let found = match target(alloc, text, behind) {
            Ok(found) => found,
            Err(stuck) => return Err(stuck),
        };
        let (next, more) = found;
        targets.push(next)?;
        rest = more;
    }
    Ok((targets, rest))
}

/// A column that a star stands for.
fn column_shown<'a>(
    alloc: Global,
    star: &Token<'a>,
    name: &'a str,
    column: Column,
) -> Result<TargetRead<'a>, AllocError>
    ensures { IfOk result (λ t. views.target_of t ≡ rule.column_shown star.now name.now column) }
{
    let part = leaf(alloc, star, Leaf::Column(column))?;
    let name = Slice::new(name);
    Ok(TargetRead { name, part })
}

/// What a star stands for.
fn starred<'a>(alloc: Global, star: &Token<'a>) -> Result<Vec<TargetRead<'a>>, AllocError>
    ensures { IfOk result (λ ts. views.targets_of ts ≡ rule.starred star.now) }
{
    let mut targets = Vec::new(alloc);
    targets.push(column_shown(alloc, star, "date", Column::Date)?)?;
    targets.push(column_shown(alloc, star, "flag", Column::Flag)?)?;
    targets.push(column_shown(alloc, star, "payee", Column::Payee)?)?;
    targets.push(column_shown(alloc, star, "narration", Column::Narration)?)?;
    targets.push(column_shown(alloc, star, "position", Column::Position)?)?;
    Ok(targets)
}

/// A star or targets.
pub fn shown<'t, 'a>(
    alloc: Global,
    text: &'a str,
    tokens: &'t [Token<'a>],
) -> Result<(Vec<TargetRead<'a>>, &'t [Token<'a>]), Stuck>
    ensures { GivesFrom IsFresh (rule.shown text.now) views.targets_of tokens.now result }
{
    let Some((star, rest)) = after(tokens, Kind::Star) else {
        return targets(alloc, text, tokens);
    };
    let shown = starred(alloc, star)?;
    Ok((shown, rest))
}

/// Whether the order descends.
fn direction<'t, 'a>(tokens: &'t [Token<'a>]) -> (bool, &'t [Token<'a>])
    ensures { Reads rule.direction tokens.now result.0 result.1.now }
{
    if let Some((_, rest)) = after(tokens, Kind::Desc) {
        return (true, rest);
    }
    let (_, rest) = flag(tokens, Kind::Asc);
    (false, rest)
}

/// The order of some items, if there are any.
fn ordered<'t, 'a>(
    alloc: Global,
    tokens: &'t [Token<'a>],
    items: Option<Vec<Part<'a>>>,
) -> (OrderRead<'a>, &'t [Token<'a>])
    ensures { Reads (rule.ordered (views.group_of items.entry)) tokens.now (views.order_of result.0)
        result.1.now }
{
    let Some(items) = items else {
        let items = Vec::new(alloc);
        let descending = false;
        return (OrderRead { items, descending }, tokens);
    };
    let (descending, rest) = direction(tokens);
    (OrderRead { items, descending }, rest)
}

/// ORDER BY, if it is written.
pub fn order<'t, 'a>(
    alloc: Global,
    tokens: &'t [Token<'a>],
) -> Result<(OrderRead<'a>, &'t [Token<'a>]), Stuck>
    ensures { GivesFrom IsClear rule.order views.order_of tokens.now result }
{
    let found = match items_by(alloc, tokens, Kind::Order) {
        Ok(found) => found,
        Err(stuck) => return Err(stuck),
    };
    let (items, rest) = found;
    Ok(ordered(alloc, rest, items))
}

/// A whole number that a count of rows can be.
fn whole_in(leaf: Leaf<'_>) -> Option<u32>
    ensures { result ≡ piece.whole_in leaf.entry }
{
    match leaf {
        Leaf::Number(n) if n.places == 0 && 0 <= n.count && n.count <= 4_294_967_295 => {
            Some(n.count as u32)
        }
        _ => None,
    }
}

/// The whole number at the front.
fn after_whole<'t, 'a>(tokens: &'t [Token<'a>]) -> Option<(u32, &'t [Token<'a>])>
    ensures { MatchOption result (front piece.whole tokens.now ≡ None)
        (λ r. front piece.whole tokens.now ≡ Some (r.0, r.1.now)) }
{
    let (first, rest) = after(tokens, Kind::Number)?;
    let whole = whole_in(number(first.text.text()))?;
    Some((whole, rest))
}

/// LIMIT, if it is written.
pub fn limit<'t, 'a>(tokens: &'t [Token<'a>]) -> Result<(Option<u32>, &'t [Token<'a>]), Stuck>
    ensures { GivesFrom IsClear rule.limit views.same tokens.now result }
{
    let Some((_, behind)) = after(tokens, Kind::Limit) else {
        return Ok((None, tokens));
    };
    let Some((limit, rest)) = after_whole(behind) else {
        return Err(Stuck::before(behind, WIDE));
    };
    Ok((Some(limit), rest))
}
