//! What happens to accounts: they are opened, closed and padded.
ghost use Rattle.std.specs.Prelude.{◌≡◌, MatchOption, IfOk};
ghost use Rattle.theory.specs.Form.{Reads, HasNone};
ghost use Rattle.bean_grammar.specs.Lexeme.{lexemes};
ghost use Rattle.bean_directives.specs.Head as rule;

use crate::directive::DirectiveKind;
use bean_base::{Account, Currency, List, Text};
use bean_grammar::Ranged;
use bean_grammar::front::{after_account, after_currency, after_sign};
use bean_grammar::literal::text_if_due;
use bean_lexer::{Sign, Token};
use std::alloc::{AllocError, Global};

/// The opening of an account.
#[derive(Drop)]
pub struct Open<'a> {
    pub account: Account<'a>,
    /// The currencies that it may hold; all where none is written.
    pub currencies: List<Currency<'a>>,
    /// The name of its booking method, known or not.
    pub method: Option<Text<'a>>,
}

/// The closing of an account.
#[derive(Drop)]
pub struct Close<'a> {
    pub account: Account<'a>,
}

/// The filling of an account from another, up to its next balance.
#[derive(Drop)]
pub struct Pad<'a> {
    pub account: Account<'a>,
    pub source: Account<'a>,
}

/// The tokens that are still to be read.
#[derive(Clone, Copy)]
struct Unread<'t, 'a> {
    tokens: &'t [Token<'a>],
}

/// The currencies at the front with commas between, if there are any, and what stands behind them.
fn currencies<'t, 'a>(
    alloc: Global,
    tokens: &'t [Token<'a>],
) -> Result<Option<(List<Currency<'a>>, &'t [Token<'a>])>, AllocError>
    ensures { IfOk result (λ o. MatchOption o (HasNone rule.currencies (lexemes tokens.now))
        (λ r. Reads rule.currencies (lexemes tokens.now) r.0 (lexemes r.1.now))) }
{
    let mut currencies = Vec::new(alloc);
    let Some(found) = after_currency(tokens) else {
        return Ok(Some((List::new(currencies), tokens)));
    };
    let (first, behind) = found;
    currencies.push(first)?;
    let mut rest = Unread { tokens: behind };
    while let Some(after) = after_sign(rest.tokens, Sign::Comma) {
        let Some(found) = after_currency(after) else {
            return Ok(None);
        };
        let (currency, more) = found;
        currencies.push(currency)?;
        rest = Unread { tokens: more };
    }
    Ok(Some((List::new(currencies), rest.tokens)))
}

/// What stands behind `open`, and what stands behind that.
pub fn open_line<'t, 'a>(
    alloc: Global,
    tokens: &'t [Token<'a>],
) -> Result<Option<(Ranged<DirectiveKind<'a>>, &'t [Token<'a>])>, AllocError>
    ensures { IfOk result (λ o. MatchOption o (HasNone rule.open_line (lexemes tokens.now))
        (λ r. Reads rule.open_line (lexemes tokens.now) r.0 (lexemes r.1.now))) }
{
    let Some(found) = after_account(tokens) else {
        return Ok(None);
    };
    let (account, rest) = found;
    let Some(found) = currencies(alloc, rest)? else {
        return Ok(None);
    };
    let (currencies, rest) = found;
    let (method, rest) = text_if_due(rest);
    let open = Open {
        account,
        currencies,
        method,
    };
    Ok(Some((Ranged::Within(DirectiveKind::Open(open)), rest)))
}

/// What stands behind `close`, and what stands behind that.
pub fn close_line<'t, 'a>(
    tokens: &'t [Token<'a>],
) -> Option<(Ranged<DirectiveKind<'a>>, &'t [Token<'a>])>
    ensures { MatchOption result (HasNone rule.close_line (lexemes tokens.now))
        (λ r. Reads rule.close_line (lexemes tokens.now) r.0 (lexemes r.1.now)) }
{
    let (account, rest) = after_account(tokens)?;
    let close = Close { account };
    Some((Ranged::Within(DirectiveKind::Close(close)), rest))
}

/// What stands behind `pad`, and what stands behind that.
pub fn pad_line<'t, 'a>(
    tokens: &'t [Token<'a>],
) -> Option<(Ranged<DirectiveKind<'a>>, &'t [Token<'a>])>
    ensures { MatchOption result (HasNone rule.pad_line (lexemes tokens.now))
        (λ r. Reads rule.pad_line (lexemes tokens.now) r.0 (lexemes r.1.now)) }
{
    let (account, rest) = after_account(tokens)?;
    let (source, rest) = after_account(rest)?;
    let pad = Pad { account, source };
    Some((Ranged::Within(DirectiveKind::Pad(pad)), rest))
}
