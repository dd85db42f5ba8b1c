//! What nearly all blocks begin with: a day, a sign and at most two texts, and under them lines that are an
//! account, with a number and a currency or without. Such postings are read as the lexer finds their tokens,
//! which are kept nowhere.
ghost use Rattle.std.specs.Prelude.{◌≡◌, ◌<◌, ◌≤◌, [], ◌∷◌, ◌++◌, List, IfOk, IfSome, MatchOption, length};
ghost use Rattle.bean_lexer.specs.ToCome.{EndsLines, ToCome};
ghost use Rattle.bean_lexer.specs.declared.kind.Kind.TheVariants as kinds;
ghost use Rattle.bean_lexer.specs.declared.kind.Place.TheVariants as places;
ghost use Rattle.bean_lexer.specs.declared.token.Token.{Token};
ghost use Rattle.bean_grammar.specs.Lexeme.{lexemes};
ghost use Rattle.bean_grammar.specs.declared.ranged.Ranged.TheVariants.{Within};
ghost use Rattle.bean_postings.specs.declared.posting.Posting.{Posting};
ghost use Rattle.bean_directives.specs.Head.{IsHead};
ghost use Rattle.bean_directives.specs.declared.directive.DirectiveKind.TheVariants as directives;
ghost use Rattle.bean_parser.specs.Plain.{IsFirstLine, IsPostingBehind, TakesPostings, TakesUnder};
ghost use Rattle.bean_parser.specs.Under.{said_posting};

use crate::block::{fault_line, is_in_column_one, kept_line};
use crate::part::first_line;
use bean_base::Day;
use bean_directives::head::{head, plain_head};
use bean_directives::{Directive, DirectiveKind, Transaction};
use bean_grammar::Ranged;
use bean_lexer::{Keyword, Kind, Lexer, Sign, Token};
use bean_postings::WrittenPosting;
use bean_postings::posting_line::plain_posting;
use expected_tokens::{
    is_before_column_one, next_account, next_currency, next_minus, next_number,
    next_past_column_one,
};
use given_items::WithGiven;
use std::alloc::{AllocError, Global};

/// The transaction that a first line is which isn't plain. It stays a call of its own, since nearly all are.
#[inline(never)]
fn other_head<'a>(
    alloc: Global,
    line: &[Token<'a>],
) -> Result<Option<(Day, Transaction<'a>)>, AllocError>
    ensures { IfOk result (λ found. IfSome found (λ r. IsHead (lexemes line.now) (Within r.0)
        (Within (directives.Transaction r.1)))) }
{
    match line.get(1) {
        Some(
            Token {
                kind: Kind::Sign(Sign::Star | Sign::Bang) | Kind::Keyword(Keyword::Txn),
                ..
            },
        ) => {}
        _ => return Ok(None),
    }
    match head(alloc, line)? {
        Some((Ranged::Within(day), Ranged::Within(kind))) => match kind.into_transaction() {
            Ok(transaction) => Ok(Some((day, transaction))),
            Err(_) => Ok(None),
        },
        _ => Ok(None),
    }
}

/// The directive that begins with a line, if that is the first of a transaction. It has no postings.
#[inline(always)]
pub fn head_of<'a>(alloc: Global, line: &[Token<'a>]) -> Result<Option<Directive<'a>>, AllocError>
    ensures { IfOk result (λ found. IfSome found (IsFirstLine line.now)) }
{
    if !is_in_column_one(line) {
        return Ok(None);
    }
    if let Some(_) = fault_line(line) {
        return Ok(None);
    }
    // What can fail comes first, so that no transaction that was read is given up for want of memory.
    let number = kept_line(first_line(line))?;
    let found = match plain_head(line) {
        Some(found) => Some(found),
        None => other_head(alloc, line)?,
    };
    match found {
        Some((day, transaction)) => Ok(Some(Directive {
            day,
            line: number,
            metadata: WithGiven::new(),
            kind: DirectiveKind::Transaction(transaction),
        })),
        None => Ok(None),
    }
}

/// Whether a line ends where a lexer is, which it tells of nearly all that do.
#[inline(always)]
fn ends_line(lexer: &Lexer<'_>) -> bool {
    let rest = lexer.rest.as_bytes();
    rest.is_empty() || rest[0] == b'\n'
}

/// The posting of an account that begins its line, with the number and the currency behind it, or
/// without.
#[inline(always)]
fn posting_behind<'a>(account: Token<'a>, lexer: &mut Lexer<'a>) -> Option<WrittenPosting<'a>>
    requires kind { account.kind ≡ kinds.Account }
    ensures posting { IfSome result (IsPostingBehind account.entry lexer.old lexer.new) }
    ensures shorter { IfSome result (λ _. length lexer.new.rest.now ≤ length lexer.old.rest.now) }
{
    let line = account.line;
    if let Some(minus) = next_minus(lexer) {
        let number = next_number(lexer)?;
        let currency = next_currency(lexer)?;
        if !ends_line(lexer) {
            return None;
        }
        return plain_posting(line, &[account, minus, number, currency]);
    }
    match next_number(lexer) {
        Some(number) => {
            let currency = next_currency(lexer)?;
            if !ends_line(lexer) {
                return None;
            }
            plain_posting(line, &[account, number, currency])
        }
        None if ends_line(lexer) => plain_posting(line, &[account]),
        None => None,
    }
}

/// The next token, if it begins no block. It stays a call of its own, since nearly all lines are plain.
#[inline(never)]
fn other_token<'a>(lexer: &mut Lexer<'a>) -> Option<Token<'a>>
    ensures tokens { MatchOption result (EndsLines lexer.old × (lexer.new ≡ lexer.old))
        (λ t. (ts : List Token) → ToCome lexer.new ts → ToCome lexer.old (t ∷ ts)) }
    ensures shorter { IfSome result (λ _. length lexer.new.rest.now < length lexer.old.rest.now) }
{
    next_past_column_one(lexer)
}

/// The posting that the next line is, if it is a plain one.
#[inline(always)]
fn next_posting<'a>(lexer: &mut Lexer<'a>) -> Option<WrittenPosting<'a>>
    ensures posting { IfSome result (λ p. TakesUnder lexer.old lexer.new (said_posting p ∷ [])) }
    ensures shorter { IfSome result (λ _. length lexer.new.rest.now < length lexer.old.rest.now) }
{
    let account = next_account(lexer)?;
    posting_behind(account, lexer)
}

/// Adds the postings that the next lines are, as far as they are plain, and takes the token behind them, if
/// that begins no block. It stays a call of its own, which nearly all blocks need but once.
#[inline(never)]
pub fn take_postings<'a>(
    lexer: &mut Lexer<'a>,
    postings: &mut Vec<WrittenPosting<'a>>,
) -> Result<Option<Token<'a>>, AllocError>
    ensures { (ps : List Posting) × (postings.new.items ≡ postings.old.items ++ ps)
        × IfOk result (λ next. TakesPostings next ps lexer.old lexer.new) }
{
    // What a lexer keeps lies in registers while it goes on from token to token, and is told at the end of a line.
    let mut at = *lexer;
    while let Some(posting) = next_posting(&mut at) {
        postings.push(posting)?;
        *lexer = at;
    }
    if is_before_column_one(lexer) {
        return Ok(None);
    }
    Ok(other_token(lexer))
}
