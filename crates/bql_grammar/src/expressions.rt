//! Expressions at the front of some tokens.
ghost use Rattle.std.specs.Prelude.{◌≡◌, ◌<◌, ◌≤◌, true, length, IfOk, IfErr};
ghost use Rattle.limits.specs.declared.counts.TheConstants.{MOST_NESTED};
ghost use Rattle.bql_grammar.specs.Expression as rule;
ghost use Rattle.bql_grammar.specs.Front.{begins_with_call};
ghost use Rattle.bql_grammar.specs.Beginning.{IsBegun};
ghost use Rattle.bql_grammar.specs.Gives.{Gives};
ghost use Rattle.bql_grammar.specs.Nesting as nesting;
ghost use Rattle.bql_grammar.specs.Nesting.{IsInside, IsInsideList};
ghost use Rattle.bql_tree.specs.Part.{part_of, parts_of};
ghost use Rattle.bql_tree.specs.declared.function.Scope.{Scope};
ghost use Rattle.bql_tree.specs.declared.level.Level.TheVariants as levels;

use crate::front::{
    after, after_comparison, after_literal, after_operator, after_sign, begins_with_call,
    begins_with_list,
};
use crate::stuck::Stuck;
use bql_lexer::{Kind, Token};
use bql_tree::call::{called, is_count, listed};
use bql_tree::level::Level;
use bql_tree::part::{denied, group, leaf, matched, name, rows, signed, two};
use bql_tree::{BinaryOperator, Part, Scope};
use limits::MOST_NESTED;
use std::alloc::Global;

/// A chain of operators of a level at the front, and what stands behind it.
#[cycle(expression)]
fn chain<'t, 'a>(
    alloc: Global,
    tokens: &'t [Token<'a>],
    level: Level,
    scope: Scope,
    room: usize,
) -> Result<(Part<'a>, &'t [Token<'a>]), Stuck>
    ensures read { Gives (rule.chain_at level scope room) part_of tokens.now result }
    ensures shorter { IfOk result (λ r. length r.1.now < length tokens.now) }
    ensures inside { IfErr result (λ e. IsInside (nesting.bound level) room tokens.now e) }
    ensures begun { IfErr result (λ e. IsBegun (rule.chain_at level scope room) tokens.now e) }
{
    let found = match operand(alloc, tokens, level, scope, room) {
        Ok(found) => found,
        Err(stuck) => return Err(stuck),
    };
    let (mut value, mut rest) = found;
    while let Some((operator, after)) = after_operator(rest, level) {
        let found = match operand(alloc, after, level, scope, room) {
            Ok(found) => found,
            Err(stuck) => return Err(stuck),
        };
        let (right, more) = found;
        value = two(alloc, operator, value, right)?;
        rest = more;
    }
    Ok((value, rest))
}

/// What a chain of a level is made of.
#[cycle(expression)]
fn operand<'t, 'a>(
    alloc: Global,
    tokens: &'t [Token<'a>],
    level: Level,
    scope: Scope,
    room: usize,
) -> Result<(Part<'a>, &'t [Token<'a>]), Stuck>
    ensures read { Gives (rule.operand level scope room) part_of tokens.now result }
    ensures shorter { IfOk result (λ r. length r.1.now < length tokens.now) }
    ensures inside { IfErr result (λ e. IsInside (nesting.bound level) room tokens.now e) }
    ensures begun { IfErr result (λ e. IsBegun (rule.operand level scope room) tokens.now e) }
{
    match level {
        Level::Or => chain(alloc, tokens, Level::And, scope, room),
        Level::And => negation(alloc, tokens, scope, room),
        Level::Sum => chain(alloc, tokens, Level::Product, scope, room),
        Level::Product => unary(alloc, tokens, scope, room),
    }
}

/// NOT before a negation, or else a comparison.
#[cycle(expression)]
fn negation<'t, 'a>(
    alloc: Global,
    tokens: &'t [Token<'a>],
    scope: Scope,
    room: usize,
) -> Result<(Part<'a>, &'t [Token<'a>]), Stuck>
    ensures read { Gives (rule.negation scope room) part_of tokens.now result }
    ensures shorter { IfOk result (λ r. length r.1.now < length tokens.now) }
    ensures inside { IfErr result (λ e. IsInside nesting.unsigned room tokens.now e) }
    ensures begun { IfErr result (λ e. IsBegun (rule.negation scope room) tokens.now e) }
{
    let Some((not, behind)) = after(tokens, Kind::Not) else {
        return comparison(alloc, tokens, scope, room);
    };
    if room == 0 {
        return Err(Stuck::before(tokens, room));
    }
    let found = match negation(alloc, behind, scope, room - 1) {
        Ok(found) => found,
        Err(stuck) => return Err(stuck),
    };
    let (inner, rest) = found;
    let value = denied(alloc, not, inner)?;
    Ok((value, rest))
}

/// A sum, and what it is compared with.
#[cycle(expression)]
fn comparison<'t, 'a>(
    alloc: Global,
    tokens: &'t [Token<'a>],
    scope: Scope,
    room: usize,
) -> Result<(Part<'a>, &'t [Token<'a>]), Stuck>
    ensures read { Gives (rule.comparison scope room) part_of tokens.now result }
    ensures shorter { IfOk result (λ r. length r.1.now < length tokens.now) }
    ensures inside { IfErr result (λ e. IsInside nesting.unsigned room tokens.now e) }
    ensures begun { IfErr result (λ e. IsBegun (rule.comparison scope room) tokens.now e) }
{
    let found = match chain(alloc, tokens, Level::Sum, scope, room) {
        Ok(found) => found,
        Err(stuck) => return Err(stuck),
    };
    let (left, rest) = found;
    if let Some((operator, behind)) = after_comparison(rest) {
        let found = match chain(alloc, behind, Level::Sum, scope, room) {
            Ok(found) => found,
            Err(stuck) => return Err(stuck),
        };
        let (right, rest) = found;
        let value = two(alloc, operator, left, right)?;
        return Ok((value, rest));
    }
    if let Some((_, behind)) = after(rest, Kind::Tilde) {
        let Some((pattern, rest)) = after(behind, Kind::Text) else {
            return Err(Stuck::before(behind, room));
        };
        let value = matched(alloc, left, pattern)?;
        return Ok((value, rest));
    }
    if begins_with_list(rest) {
        return list(alloc, left, rest, room);
    }
    if let Some((_, behind)) = after(rest, Kind::In) {
        let found = match chain(alloc, behind, Level::Sum, scope, room) {
            Ok(found) => found,
            Err(stuck) => return Err(stuck),
        };
        let (right, rest) = found;
        let value = two(alloc, BinaryOperator::In, left, right)?;
        return Ok((value, rest));
    }
    Ok((left, rest))
}

/// A sign before a unary expression, or else an atom.
#[cycle(expression)]
fn unary<'t, 'a>(
    alloc: Global,
    tokens: &'t [Token<'a>],
    scope: Scope,
    room: usize,
) -> Result<(Part<'a>, &'t [Token<'a>]), Stuck>
    ensures read { Gives (rule.unary scope room) part_of tokens.now result }
    ensures shorter { IfOk result (λ r. length r.1.now < length tokens.now) }
    ensures inside { IfErr result (λ e. IsInside nesting.all room tokens.now e) }
    ensures begun { IfErr result (λ e. IsBegun (rule.unary scope room) tokens.now e) }
{
    let Some((sign, is_minus, behind)) = after_sign(tokens) else {
        return atom(alloc, tokens, scope, room);
    };
    if room == 0 {
        return Err(Stuck::before(tokens, room));
    }
    let found = match unary(alloc, behind, scope, room - 1) {
        Ok(found) => found,
        Err(stuck) => return Err(stuck),
    };
    let (inner, rest) = found;
    let value = signed(alloc, sign, is_minus, inner)?;
    Ok((value, rest))
}

/// A literal, an expression in parentheses, a call or a name.
#[cycle(expression)]
fn atom<'t, 'a>(
    alloc: Global,
    tokens: &'t [Token<'a>],
    scope: Scope,
    room: usize,
) -> Result<(Part<'a>, &'t [Token<'a>]), Stuck>
    ensures read { Gives (rule.atom scope room) part_of tokens.now result }
    ensures shorter { IfOk result (λ r. length r.1.now < length tokens.now) }
    ensures inside { IfErr result (λ e. IsInside nesting.all room tokens.now e) }
    ensures begun { IfErr result (λ e. IsBegun (rule.atom scope room) tokens.now e) }
{
    if after_literal(tokens).is_some() {
        return literal(alloc, tokens, room);
    }
    if after(tokens, Kind::OpenParenthesis).is_some() {
        return grouped(alloc, tokens, scope, room);
    }
    if begins_with_call(tokens) {
        return call(alloc, tokens, scope, room);
    }
    let Some((token, rest)) = after(tokens, Kind::Name) else {
        return Err(Stuck::before(tokens, room));
    };
    let value = name(alloc, token, scope)?;
    Ok((value, rest))
}

/// An expression in parentheses.
#[cycle(expression)]
fn grouped<'t, 'a>(
    alloc: Global,
    tokens: &'t [Token<'a>],
    scope: Scope,
    room: usize,
) -> Result<(Part<'a>, &'t [Token<'a>]), Stuck>
    ensures read { Gives (rule.grouped scope room) part_of tokens.now result }
    ensures shorter { IfOk result (λ r. length r.1.now < length tokens.now) }
    ensures inside { IfErr result (λ e. IsInside nesting.all room tokens.now e) }
    ensures begun { IfErr result (λ e. IsBegun (rule.atom scope room) tokens.now e) }
{
    let Some((open, behind)) = after(tokens, Kind::OpenParenthesis) else {
        return Err(Stuck::before(tokens, room));
    };
    if room == 0 {
        return Err(Stuck::before(tokens, room));
    }
    let found = match chain(alloc, behind, Level::Or, scope, room - 1) {
        Ok(found) => found,
        Err(stuck) => return Err(stuck),
    };
    let (inner, rest) = found;
    let Some((close, rest)) = after(rest, Kind::CloseParenthesis) else {
        return Err(Stuck::before(rest, room - 1));
    };
    Ok((group(open, inner, close), rest))
}

/// A name, and what stands in parentheses behind it.
#[cycle(expression)]
fn call<'t, 'a>(
    alloc: Global,
    tokens: &'t [Token<'a>],
    scope: Scope,
    room: usize,
) -> Result<(Part<'a>, &'t [Token<'a>]), Stuck>
    ensures read { Gives (rule.call scope room) part_of tokens.now result }
    ensures shorter { IfOk result (λ r. length r.1.now < length tokens.now) }
    ensures inside { begins_with_call tokens.now ≡ true
        → IfErr result (λ e. IsInside nesting.all room tokens.now e) }
    ensures begun { IfErr result (λ e. IsBegun (rule.atom scope room) tokens.now e) }
{
    let Some((name, behind)) = after(tokens, Kind::Name) else {
        return Err(Stuck::before(tokens, room));
    };
    let Some((_, inside)) = after(behind, Kind::OpenParenthesis) else {
        return Err(Stuck::before(behind, room));
    };
    if room == 0 {
        return Err(Stuck::before(behind, room));
    }
    if begins_with_count(name, inside) {
        return counted(alloc, name, inside, room - 1);
    }
    let found = match arguments(alloc, inside, scope, room - 1) {
        Ok(found) => found,
        Err(stuck) => return Err(stuck),
    };
    let (parts, rest) = found;
    let Some((close, rest)) = after(rest, Kind::CloseParenthesis) else {
        return Err(Stuck::before(rest, room - 1));
    };
    let value = called(alloc, scope, name, parts, close)?;
    Ok((value, rest))
}

/// Whether what stands behind a name and its parenthesis is the star of COUNT.
fn begins_with_count(name: &Token<'_>, inside: &[Token<'_>]) -> bool
    ensures { result ≡ rule.begins_with_count name.now inside.now }
{
    is_count(name) && after(inside, Kind::Star).is_some()
}

/// What stands behind the name and the parenthesis of `COUNT(*)`.
fn counted<'t, 'a>(
    alloc: Global,
    name: &Token<'a>,
    tokens: &'t [Token<'a>],
    room: usize,
) -> Result<(Part<'a>, &'t [Token<'a>]), Stuck>
    ensures read { Gives (rule.counted name.now) part_of tokens.now result }
    ensures shorter { IfOk result (λ r. length r.1.now < length tokens.now) }
    ensures inside { IfErr result (λ e. IsInside nesting.enclosing room tokens.now e) }
    ensures begun { IfErr result (λ e. IsBegun (rule.counted name.now) tokens.now e) }
{
    let Some((_, rest)) = after(tokens, Kind::Star) else {
        return Err(Stuck::before(tokens, room));
    };
    let Some((close, rest)) = after(rest, Kind::CloseParenthesis) else {
        return Err(Stuck::before(rest, room));
    };
    let value = rows(alloc, name, close)?;
    Ok((value, rest))
}

/// What a function is called with, up to its parenthesis.
#[cycle(expression)]
fn arguments<'t, 'a>(
    alloc: Global,
    tokens: &'t [Token<'a>],
    scope: Scope,
    room: usize,
) -> Result<(Vec<Part<'a>>, &'t [Token<'a>]), Stuck>
    ensures read { Gives (rule.arguments scope room) parts_of tokens.now result }
    ensures no_longer { IfOk result (λ r. length r.1.now ≤ length tokens.now) }
    ensures inside { IfErr result (λ e. IsInside nesting.enclosing room tokens.now e) }
    ensures begun { IfErr result (λ e. IsBegun (rule.arguments scope room) tokens.now e) }
{
    let mut parts = Vec::new(alloc);
    if after(tokens, Kind::CloseParenthesis).is_some() {
        return Ok((parts, tokens));
    }
    let found = match chain(alloc, tokens, Level::Or, scope, room) {
        Ok(found) => found,
        Err(stuck) => return Err(stuck),
    };
    let (first, mut rest) = found;
    parts.push(first)?;
    while let Some((_, behind)) = after(rest, Kind::Comma) {
        let found = match chain(alloc, behind, Level::Or, scope, room) {
            Ok(found) => found,
            Err(stuck) => return Err(stuck),
        };
        let (part, more) = found;
        parts.push(part)?;
        rest = more;
    }
    Ok((parts, rest))
}

/// IN with a list behind what is looked for.
fn list<'t, 'a>(
    alloc: Global,
    left: Part<'a>,
    tokens: &'t [Token<'a>],
    room: usize,
) -> Result<(Part<'a>, &'t [Token<'a>]), Stuck>
    ensures read { Gives (rule.list room (part_of left.entry)) part_of tokens.now result }
    ensures shorter { IfOk result (λ r. length r.1.now < length tokens.now) }
    ensures inside { IfErr result (λ e. IsInsideList room tokens.now e) }
    ensures begun { (scope : Scope) → IfErr result (λ e. IsBegun (rule.compared_if_due room
        (rule.chain_at levels.Sum scope room) (part_of left.entry)) tokens.now e) }
{
    let Some((_, behind)) = after(tokens, Kind::In) else {
        return Err(Stuck::before(tokens, room));
    };
    let Some((_, inside)) = after(behind, Kind::OpenParenthesis) else {
        return Err(Stuck::before(behind, room));
    };
    if room == 0 {
        return Err(Stuck::before(behind, room));
    }
    let found = match literals(alloc, inside, room - 1) {
        Ok(found) => found,
        Err(stuck) => return Err(stuck),
    };
    let (items, rest) = found;
    let Some((close, rest)) = after(rest, Kind::CloseParenthesis) else {
        return Err(Stuck::before(rest, room - 1));
    };
    let value = listed(alloc, left, items, close)?;
    Ok((value, rest))
}

/// One or more literals with commas between them.
fn literals<'t, 'a>(
    alloc: Global,
    tokens: &'t [Token<'a>],
    room: usize,
) -> Result<(Vec<Part<'a>>, &'t [Token<'a>]), Stuck>
    ensures read { Gives rule.literals parts_of tokens.now result }
    ensures shorter { IfOk result (λ r. length r.1.now < length tokens.now) }
    ensures inside { IfErr result (λ e. IsInside nesting.enclosing room tokens.now e) }
    ensures begun { IfErr result (λ e. IsBegun rule.literals tokens.now e) }
{
    let mut parts = Vec::new(alloc);
    let found = match literal(alloc, tokens, room) {
        Ok(found) => found,
        Err(stuck) => return Err(stuck),
    };
    let (first, mut rest) = found;
    parts.push(first)?;
    while let Some((_, behind)) = after(rest, Kind::Comma) {
        let found = match literal(alloc, behind, room) {
            Ok(found) => found,
            Err(stuck) => return Err(stuck),
        };
        let (part, more) = found;
        parts.push(part)?;
        rest = more;
    }
    Ok((parts, rest))
}

/// A literal at the front.
fn literal<'t, 'a>(
    alloc: Global,
    tokens: &'t [Token<'a>],
    room: usize,
) -> Result<(Part<'a>, &'t [Token<'a>]), Stuck>
    ensures read { Gives rule.literal part_of tokens.now result }
    ensures shorter { IfOk result (λ r. length r.1.now < length tokens.now) }
    ensures inside { IfErr result (λ e. IsInside nesting.all room tokens.now e) }
    ensures begun { IfErr result (λ e. IsBegun rule.literal tokens.now e) }
{
    let Some(found) = after_literal(tokens) else {
        return Err(Stuck::before(tokens, room));
    };
    let (token, found, rest) = found;
    let value = leaf(alloc, token, found)?;
    Ok((value, rest))
}

/// The expression at the front, as far as it goes, and what stands behind it. At most 200
/// parentheses, signs and NOTs may stand in one another.
pub fn expression<'t, 'a>(
    alloc: Global,
    tokens: &'t [Token<'a>],
    scope: Scope,
) -> Result<(Part<'a>, &'t [Token<'a>]), Stuck>
    ensures read { Gives (rule.expression scope) part_of tokens.now result }
    ensures shorter { IfOk result (λ r. length r.1.now < length tokens.now) }
    ensures inside { IfErr result (λ e. IsInside nesting.enclosing MOST_NESTED tokens.now e) }
    ensures begun { IfErr result (λ e. IsBegun (rule.expression scope) tokens.now e) }
{
    chain(alloc, tokens, Level::Or, scope, MOST_NESTED)
}
