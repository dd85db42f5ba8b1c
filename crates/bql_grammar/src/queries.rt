//! Whole queries, from their tokens.
ghost use Rattle.std.specs.Prelude.{◌≡◌, [], Result, Ok, Err};
ghost use Rattle.theory.specs.Form.{Reads};
ghost use Rattle.bql_grammar.specs.Grammar as rule;
ghost use Rattle.bql_grammar.specs.Read as views;
ghost use Rattle.bql_grammar.specs.Stopping.{GivesFrom, IsFresh, IsClear};
ghost use Rattle.bql_grammar.specs.Whole.{IsRead};

use crate::Stuck;
use crate::clauses::{BalancesRead, JournalRead, NameRead, QueryRead, SelectRead, TargetRead};
use crate::front::after;
use crate::reading::{WIDE, filter, filters, flag, items_by, limit, order, shown};
use bean_base::Slice;
use bql_lexer::{Kind, Token};
use bql_tree::Scope;
use std::alloc::Global;

/// What stands behind the targets of a SELECT.
fn behind_targets<'t, 'a>(
    alloc: Global,
    tokens: &'t [Token<'a>],
    distinct: bool,
    targets: Vec<TargetRead<'a>>,
) -> Result<(SelectRead<'a>, &'t [Token<'a>]), Stuck>
    ensures { GivesFrom IsClear (rule.behind_targets distinct (views.targets_of targets.entry))
        views.select_of tokens.now result }
{
    let found = match filters(alloc, tokens) {
        Ok(found) => found,
        Err(stuck) => return Err(stuck),
    };
    let (filters, rest) = found;
    let found = match items_by(alloc, rest, Kind::Group) {
        Ok(found) => found,
        Err(stuck) => return Err(stuck),
    };
    let (group, rest) = found;
    let found = match order(alloc, rest) {
        Ok(found) => found,
        Err(stuck) => return Err(stuck),
    };
    let (order, rest) = found;
    let found = match limit(rest) {
        Ok(found) => found,
        Err(stuck) => return Err(stuck),
    };
    let (limit, rest) = found;
    let read = SelectRead {
        distinct,
        targets,
        filters,
        group,
        order,
        limit,
    };
    Ok((read, rest))
}

/// What stands behind SELECT.
fn select<'t, 'a>(
    alloc: Global,
    text: &'a str,
    tokens: &'t [Token<'a>],
) -> Result<(SelectRead<'a>, &'t [Token<'a>]), Stuck>
    ensures { GivesFrom IsFresh (rule.select text.now) views.select_of tokens.now result }
{
    let (distinct, rest) = flag(tokens, Kind::Distinct);
    let found = match shown(alloc, text, rest) {
        Ok(found) => found,
        Err(stuck) => return Err(stuck),
    };
    let (targets, rest) = found;
    behind_targets(alloc, rest, distinct, targets)
}

/// What AT names, if it is written.
fn at<'t, 'a>(tokens: &'t [Token<'a>]) -> Result<(Option<NameRead<'a>>, &'t [Token<'a>]), Stuck>
    ensures { GivesFrom IsClear rule.at views.same tokens.now result }
{
    let Some((_, behind)) = after(tokens, Kind::At) else {
        return Ok((None, tokens));
    };
    let Some((name, rest)) = after(behind, Kind::Name) else {
        return Err(Stuck::before(behind, WIDE));
    };
    let read = NameRead {
        start: name.start,
        text: name.text.lend(),
    };
    Ok((Some(read), rest))
}

/// The pattern of a JOURNAL, if it is written.
fn pattern<'t, 'a>(tokens: &'t [Token<'a>]) -> (Option<Slice<'a>>, &'t [Token<'a>])
    ensures { Reads rule.pattern tokens.now result.0 result.1.now }
{
    match after(tokens, Kind::Text) {
        Some((text, rest)) => (Some(text.text.lend()), rest),
        None => (None, tokens),
    }
}

/// What stands behind JOURNAL.
fn journal<'t, 'a>(
    alloc: Global,
    tokens: &'t [Token<'a>],
) -> Result<(JournalRead<'a>, &'t [Token<'a>]), Stuck>
    ensures { GivesFrom IsFresh rule.journal views.journal_of tokens.now result }
{
    let (pattern, rest) = pattern(tokens);
    let found = match at(rest) {
        Ok(found) => found,
        Err(stuck) => return Err(stuck),
    };
    let (at, rest) = found;
    let found = match filter(alloc, rest, Kind::From, Scope::Transactions) {
        Ok(found) => found,
        Err(stuck) => return Err(stuck),
    };
    let (from, rest) = found;
    Ok((JournalRead { pattern, at, from }, rest))
}

/// What stands behind BALANCES.
fn balances<'t, 'a>(
    alloc: Global,
    tokens: &'t [Token<'a>],
) -> Result<(BalancesRead<'a>, &'t [Token<'a>]), Stuck>
    ensures { GivesFrom IsClear rule.balances views.balances_of tokens.now result }
{
    let found = match at(tokens) {
        Ok(found) => found,
        Err(stuck) => return Err(stuck),
    };
    let (at, rest) = found;
    let found = match filters(alloc, rest) {
        Ok(found) => found,
        Err(stuck) => return Err(stuck),
    };
    let (filters, rest) = found;
    Ok((BalancesRead { at, filters }, rest))
}

/// A query that is no SELECT.
fn fixed_clauses<'t, 'a>(
    alloc: Global,
    tokens: &'t [Token<'a>],
) -> Result<(QueryRead<'a>, &'t [Token<'a>]), Stuck>
    ensures { GivesFrom IsFresh rule.fixed_clauses views.read_of tokens.now result }
{
    if let Some((_, behind)) = after(tokens, Kind::Journal) {
        let found = match journal(alloc, behind) {
            Ok(found) => found,
            Err(stuck) => return Err(stuck),
        };
        let (read, rest) = found;
        return Ok((QueryRead::Journal(read), rest));
    }
    let Some((_, behind)) = after(tokens, Kind::Balances) else {
        return Err(Stuck::before(tokens, WIDE));
    };
    let found = match balances(alloc, behind) {
        Ok(found) => found,
        Err(stuck) => return Err(stuck),
    };
    let (read, rest) = found;
    Ok((QueryRead::Balances(read), rest))
}

/// The clauses of a query.
fn clauses<'t, 'a>(
    alloc: Global,
    text: &'a str,
    tokens: &'t [Token<'a>],
) -> Result<(QueryRead<'a>, &'t [Token<'a>]), Stuck>
    ensures { GivesFrom IsFresh (rule.clauses text.now) views.read_of tokens.now result }
{
    let Some((_, behind)) = after(tokens, Kind::Select) else {
        return fixed_clauses(alloc, tokens);
    };
    let found = match select(alloc, text, behind) {
        Ok(found) => found,
        Err(stuck) => return Err(stuck),
    };
    let (read, rest) = found;
    Ok((QueryRead::Select(read), rest))
}

/// The query that all the tokens are.
pub fn query<'a>(alloc: Global, text: &'a str, tokens: &[Token<'a>]) -> Result<QueryRead<'a>, Stuck>
    ensures { IsRead text.now tokens.now result }
{
    let found = match clauses(alloc, text, tokens) {
        Ok(found) => found,
        Err(stuck) => return Err(stuck),
    };
    let (read, rest) = found;
    let (_, rest) = flag(rest, Kind::Semicolon);
    if rest.is_empty() {
        Ok(read)
    } else {
        Err(Stuck::before(rest, WIDE))
    }
}
