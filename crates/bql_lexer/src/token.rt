//! Tokens, and the tokens of a text in order.
ghost use Rattle.std.specs.Prelude.{◌≡◌, ◌<◌, ◌≤◌, List, [], ◌∷◌, length, MatchOption};
ghost use Rattle.std.specs.Prelude.{IfSome, IfOk};
ghost use Rattle.bql_lexer.specs.Tokens.{AreTokens, TokensFrom};
ghost use Rattle.bql_lexer.specs.Token as spec;
ghost use Rattle.bql_lexer.specs.declared.token.Token as token;

use crate::classes::White;
use crate::found::token_at;
use crate::kind::Kind;
use bean_base::Slice;
use byte_runs::end_of_run;
use std::alloc::{AllocError, Allocator};

/// A token of a query.
#[derive(Drop)]
pub struct Token<'a> {
    /// The token as it is written, but of a text what stands between its quotes.
    pub text: Slice<'a>,
    /// The place of its first byte in the query.
    pub start: usize,
    /// The place behind its last byte.
    pub end: usize,
    pub kind: Kind,
}

/// What stands behind white space at the front.
fn behind_white(text: &str) -> &str
    ensures { result.now ≡ spec.behind_white text.now }
{
    let (_, behind) = text.split_at(end_of_run::<White>(text.as_bytes(), 0));
    behind
}

/// The first token of what is left of a query that is `len` bytes long, and what stands behind it.
fn next_token<'a>(len: usize, rest: &'a str) -> Option<(Token<'a>, &'a str)>
    requires { length rest.now ≤ len }
    ensures tokens { MatchOption result (TokensFrom len rest.now [])
        (λ r. (ts : List token.Token) → TokensFrom len r.1.now ts
        → TokensFrom len rest.now (r.0 ∷ ts)) }
    ensures shorter { IfSome result (λ r. length r.1.now < length rest.now) }
{
    let behind = behind_white(rest);
    if behind.is_empty() {
        return None;
    }
    let found = token_at(behind);
    let rest = found.rest.text();
    let token = Token {
        text: found.text,
        start: len - behind.len(),
        end: len - rest.len(),
        kind: found.kind,
    };
    Some((token, rest))
}

/// What is still to be read.
#[derive(Clone, Copy)]
struct Unread<'a> {
    text: &'a str,
}

/// The tokens of a query, in order.
pub fn tokens<'a, A: Allocator>(alloc: A, text: &'a str) -> Result<Vec<Token<'a>, A>, AllocError>
    ensures { IfOk result (λ tokens. AreTokens text.now tokens.items) }
{
    let mut out = Vec::with_capacity(alloc, text.len() / 5)?;
    let mut unread = Unread { text };
    while let Some((token, rest)) = next_token(text.len(), unread.text) {
        out.push(token)?;
        unread = Unread { text: rest };
    }
    Ok(out)
}
