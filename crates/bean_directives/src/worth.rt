//! What number expressions are worth, in the range of a ledger or not.
ghost use Rattle.std.specs.Prelude.{◌≡◌, ◌<◌, ◌↔◌, true, false, length, IfOk, IfSome, MatchOption};
ghost use Rattle.theory.specs.Form.{HasNone, Reads};
ghost use Rattle.bean_lexer.specs.declared.kind.Sign.TheVariants.{Star};
ghost use Rattle.bean_grammar.specs.Exact as value;
ghost use Rattle.bean_grammar.specs.Expression as rule;
ghost use Rattle.bean_grammar.specs.Expression.{exactly};
ghost use Rattle.bean_grammar.specs.Lexeme.{lexemes, begins_with_sign};
ghost use Rattle.bean_directives.specs.Head.{IsBelowZero};

use bean_grammar::front::{after_number, after_plus_or_minus, after_sign};
use bean_lexer::{Sign, Token};
use exact_numbers::{ExactProduct, ExactSum};
use limits::MOST_NESTED;
use std::alloc::{AllocError, Global};

fn joined<'a>(
    alloc: Global,
    is_minus: bool,
    left: ExactSum<'a>,
    right: ExactProduct<'a>,
) -> Result<ExactSum<'a>, AllocError>
    ensures { IfOk result (λ n. n ≡ value.joined_exactly is_minus left.entry right.entry) }
{
    if is_minus {
        left.minus(alloc, right)
    } else {
        left.plus(alloc, right)
    }
}

fn signed<'a>(is_minus: bool, number: ExactProduct<'a>) -> ExactProduct<'a>
    ensures { result ≡ value.signed_exactly is_minus number.entry }
{
    if is_minus { number.opposite() } else { number }
}

/// What the longest sum at the front is worth, and what stands behind it.
#[cycle(worth)]
fn sum<'t, 'a>(
    alloc: Global,
    tokens: &'t [Token<'a>],
    room: usize,
) -> Result<Option<(ExactProduct<'a>, &'t [Token<'a>])>, AllocError>
    ensures ends { IfOk result (λ found. IfSome found
        (λ r. (rule.sum exactly room).goes_on (lexemes r.1.now) ≡ false)) }
    ensures read { IfOk result (λ found. MatchOption found
        (HasNone (rule.sum exactly room) (lexemes tokens.now))
        (λ r. Reads (rule.sum exactly room) (lexemes tokens.now) r.0 (lexemes r.1.now))) }
    ensures shorter { IfOk result (λ found. IfSome found
        (λ r. length r.1.now < length tokens.now)) }
{
    let Some(first) = product(alloc, tokens, room)? else {
        return Ok(None);
    };
    let (term, mut rest) = first;
    let mut value = ExactSum::of(alloc, term);
    while let Some((is_minus, after)) = after_plus_or_minus(rest) {
        let Some(next) = product(alloc, after, room)? else {
            return Ok(None);
        };
        let (right, more) = next;
        value = joined(alloc, is_minus, value, right)?;
        rest = more;
    }
    Ok(Some((value.into_product(alloc)?, rest)))
}

#[cycle(worth)]
fn product<'t, 'a>(
    alloc: Global,
    tokens: &'t [Token<'a>],
    room: usize,
) -> Result<Option<(ExactProduct<'a>, &'t [Token<'a>])>, AllocError>
    ensures ends { IfOk result (λ found. IfSome found
        (λ r. begins_with_sign Star (lexemes r.1.now) ≡ false)) }
    ensures read { IfOk result (λ found. MatchOption found
        (HasNone (rule.product exactly room) (lexemes tokens.now))
        (λ r. Reads (rule.product exactly room) (lexemes tokens.now) r.0 (lexemes r.1.now))) }
    ensures shorter { IfOk result (λ found. IfSome found
        (λ r. length r.1.now < length tokens.now)) }
{
    let Some(first) = factor(alloc, tokens, room)? else {
        return Ok(None);
    };
    let (mut value, mut rest) = first;
    while let Some(after) = after_sign(rest, Sign::Star) {
        let Some(next) = factor(alloc, after, room)? else {
            return Ok(None);
        };
        let (right, more) = next;
        value = value.times(right)?;
        rest = more;
    }
    Ok(Some((value, rest)))
}

#[cycle(worth)]
fn factor<'t, 'a>(
    alloc: Global,
    tokens: &'t [Token<'a>],
    room: usize,
) -> Result<Option<(ExactProduct<'a>, &'t [Token<'a>])>, AllocError>
    ensures read { IfOk result (λ found. MatchOption found
        (HasNone (rule.factor exactly room) (lexemes tokens.now))
        (λ r. Reads (rule.factor exactly room) (lexemes tokens.now) r.0 (lexemes r.1.now))) }
    ensures shorter { IfOk result (λ found. IfSome found
        (λ r. length r.1.now < length tokens.now)) }
{
    if let Some((is_minus, after)) = after_plus_or_minus(tokens) {
        if room == 0 {
            return Ok(None);
        }
        let Some(found) = factor(alloc, after, room - 1)? else {
            return Ok(None);
        };
        let (value, rest) = found;
        return Ok(Some((signed(is_minus, value), rest)));
    }
    if let Some(after) = after_sign(tokens, Sign::OpenParenthesis) {
        if room == 0 {
            return Ok(None);
        }
        let Some(inner) = sum(alloc, after, room - 1)? else {
            return Ok(None);
        };
        let (value, rest) = inner;
        let Some(behind) = after_sign(rest, Sign::CloseParenthesis) else {
            return Ok(None);
        };
        return Ok(Some((value, behind)));
    }
    let Some(numeral) = after_number(tokens) else {
        return Ok(None);
    };
    let (written, rest) = numeral;
    Ok(Some((ExactProduct::written(alloc, written)?, rest)))
}

/// Whether the expression at the front is worth less than 0, in range or not.
pub fn is_below_zero(alloc: Global, tokens: &[Token<'_>]) -> Result<bool, AllocError>
    ensures { IfOk result (λ is. (is ≡ true) ↔ IsBelowZero (lexemes tokens.now)) }
{
    match sum(alloc, tokens, MOST_NESTED)? {
        Some((value, _)) => Ok(value.is_negative()),
        None => Ok(false),
    }
}
