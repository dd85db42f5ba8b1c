//! Texts of queries.
ghost use Rattle.std.specs.Prelude.{◌≡◌, ◌≤◌, List, [], length};
ghost use Rattle.limits.specs.declared.counts.TheConstants.{LARGEST_QUERY};
ghost use Rattle.bql_grammar.specs.Beginning.{Before};
ghost use Rattle.bql_grammar.specs.Nesting as nesting;
ghost use Rattle.bql_lexer.specs.declared.token.Token.{Token};
ghost use Rattle.bql_parser.specs.Parse as rule;
ghost use Rattle.bql_parser.specs.Settled as settled;
ghost use Rattle.bql_parser.specs.Small.{IsSmallFound};
ghost use Rattle.bql_parser.specs.View.{draft_of};

use crate::asking::settled;
use crate::cause::QueryCause;
use crate::query::{Draft, Query};
use crate::settling::refused_at;
use bql_grammar::{Stuck, query};
use bql_lexer::{Kind, Token, tokens};
use bql_tree::PartCause;
use bql_tree::function::is_left_out;
use limits::LARGEST_QUERY;
use refusals::Refusal;
use std::alloc::Global;

/// Whether a token is a parenthesis, a sign or NOT.
fn nests(token: &Token<'_>) -> bool
    ensures { result ≡ rule.nests token.now }
{
    token.kind == Kind::OpenParenthesis
        || token.kind == Kind::Plus
        || token.kind == Kind::Minus
        || token.kind == Kind::Not
}

/// Whether a token that can't go on is left out by the profile, or stands too deep.
fn is_left(token: &Token<'_>, is_deep: bool) -> bool
    ensures { (before : List Token) → is_deep ≡ rule.is_deep before token.now
        → result ≡ rule.is_left before token.now }
{
    token.kind == Kind::Slash
        || token.kind == Kind::Name && is_left_out(token.text.text())
        || is_deep && nests(token)
}

/// Why a text is no query whose tokens can't go on there.
fn cause_at(text: &str, tokens: &[Token<'_>], left: usize, is_deep: bool) -> QueryCause
    ensures { nesting.Stops (nesting.wanting []) tokens.now left is_deep
        → Before rule.BeginsAQuery tokens.now left → rule.Stops text.now tokens.now result }
{
    match tokens.get(tokens.len().saturating_sub(left)) {
        Some(token) if is_left(token, is_deep) => QueryCause::Part(PartCause::outside_profile(
            token.start,
        )),
        Some(token) => QueryCause::Syntax(token.start),
        None => QueryCause::Syntax(text.len()),
    }
}

/// Why a text is no query that was read so far.
fn refusal_by(text: &str, tokens: &[Token<'_>], stuck: Stuck) -> Refusal<QueryCause>
    ensures { rule.IsRefusalBy text.now tokens.now stuck result }
{
    match stuck {
        Stuck::OutOfMemory => Refusal::OutOfMemory,
        Stuck::At { left, is_deep } => Refusal::Refused(cause_at(text, tokens, left, is_deep)),
    }
}

/// The first byte that is too many.
fn byte_beyond(text: &str) -> Option<usize>
    ensures { result ≡ settled.byte_beyond (length text.now) }
{
    if text.len() > LARGEST_QUERY {
        Some(LARGEST_QUERY)
    } else {
        None
    }
}

/// A query, unless its text is too long.
fn answered<'a>(
    text: &str,
    found: Result<Draft<'a>, PartCause>,
) -> Result<Query<'a>, Refusal<QueryCause>>
    requires { length text.now ≤ LARGEST_QUERY → IsSmallFound (settled.mapped draft_of found) }
    ensures { rule.IsAnswered (settled.refused_at (settled.byte_beyond (length text.now))
        (settled.mapped draft_of found.entry)) result }
{
    match refused_at(byte_beyond(text), found) {
        Ok(draft) => Ok(Query {
            distinct: draft.distinct,
            targets: draft.targets,
            filters: draft.filters,
            group: draft.group,
            order: draft.order,
            limit: draft.limit,
        }),
        Err(cause) => Err(Refusal::Refused(QueryCause::Part(cause))),
    }
}

/// The query that a text is.
pub fn parse_query<'a>(alloc: Global, text: &'a str) -> Result<Query<'a>, Refusal<QueryCause>>
    ensures { rule.Parses text.now result }
{
    let found = tokens(alloc, text)?;
    match query(alloc, text, found.as_slice()) {
        Ok(read) => answered(text, settled(alloc, read)?),
        Err(stuck) => Err(refusal_by(text, found.as_slice(), stuck)),
    }
}
