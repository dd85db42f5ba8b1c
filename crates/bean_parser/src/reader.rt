//! The blocks of a text, one after the other, as a lexer gives its tokens.
ghost use Rattle.std.specs.Prelude.{◌≡◌, ◌++◌, ◌∷◌, [], List, ◌<◌, ◌≤◌, length, IfOk, OnOk, IsTrue};
ghost use Rattle.std.specs.Prelude.{true, MatchOption, IfSome};
ghost use Rattle.bean_lexer.specs.ToCome.{ToCome};
ghost use Rattle.bean_lexer.specs.declared.token.Token.{Token};
ghost use Rattle.bean_parser.specs.Taking.{TakesBlock, TakesLine, TakesInside, TakesOthers};

use bean_lexer::{Lexer, Token};
use expected_tokens::{next_day, next_inside, next_past_column_one};
use std::alloc::AllocError;

/// Fills `block` with the tokens of the next block, if there is one, in place of what it held.
pub fn next_block<'a>(lexer: &mut Lexer<'a>, block: &mut Vec<Token<'a>>) -> Result<bool, AllocError>
    ensures block { IfOk result (λ some. TakesBlock some lexer.old block.new.items lexer.new) }
    ensures shorter { IfOk result (λ some. IsTrue some
        → length lexer.new.rest.now < length lexer.old.rest.now) }
{
    if !take_line(lexer, block)? {
        return Ok(false);
    }
    take_others(lexer, block)?;
    Ok(true)
}

/// Adds a token. Mostly there is room, since a block comes where others were.
#[inline(always)]
pub fn add_token<'a>(block: &mut Vec<Token<'a>>, token: Token<'a>) -> Result<(), AllocError>
    ensures { OnOk result (block.new.items ≡ block.old.items ++ token.entry ∷ []) }
{
    if block.len() < block.capacity() {
        block.push_reserved(token);
        return Ok(());
    }
    block.push(token)?;
    Ok(())
}

/// The next token, of whatever kind. It stays a call of its own, since most blocks begin with a day.
#[inline(never)]
fn any_token<'a>(lexer: &mut Lexer<'a>) -> Option<Token<'a>>
    ensures tokens { MatchOption result ((ToCome lexer.old []) × (lexer.new ≡ lexer.old))
        (λ t. (ts : List Token) → ToCome lexer.new ts → ToCome lexer.old (t ∷ ts)) }
    ensures shorter { IfSome result (λ _. length lexer.new.rest.now < length lexer.old.rest.now) }
{
    lexer.next_token()
}

/// The next token, which mostly is a day.
#[inline(always)]
fn first_token<'a>(lexer: &mut Lexer<'a>) -> Option<Token<'a>>
    ensures tokens { MatchOption result ((ToCome lexer.old []) × (lexer.new ≡ lexer.old))
        (λ t. (ts : List Token) → ToCome lexer.new ts → ToCome lexer.old (t ∷ ts)) }
    ensures shorter { IfSome result (λ _. length lexer.new.rest.now < length lexer.old.rest.now) }
{
    match next_day(lexer) {
        Some(day) => Some(day),
        None => any_token(lexer),
    }
}

/// Fills `block` with the next token, if there is one, and those behind it in its line, as far as spaces
/// alone stand between them.
#[inline(never)]
pub fn take_line<'a>(lexer: &mut Lexer<'a>, block: &mut Vec<Token<'a>>) -> Result<bool, AllocError>
    ensures { IfOk result (λ some. TakesLine some lexer.old block.new.items lexer.new) }
{
    block.clear();
    let Some(first) = first_token(lexer) else {
        return Ok(false);
    };
    add_token(block, first)?;
    take_inside(lexer, block)?;
    Ok(true)
}

/// Adds the tokens of a lexer that stand in the same line, as far as spaces alone stand between them.
#[inline(always)]
pub fn take_inside<'a>(lexer: &mut Lexer<'a>, block: &mut Vec<Token<'a>>) -> Result<(), AllocError>
    ensures { OnOk result (TakesInside lexer.old block.old.items lexer.new block.new.items) }
{
    // What a lexer keeps lies in registers while it goes on from token to token.
    let mut at = *lexer;
    while let Some(token) = next_inside(&mut at) {
        add_token(block, token)?;
    }
    *lexer = at;
    Ok(())
}

/// Adds the tokens of a lexer up to the next one that begins a block.
#[inline(never)]
pub fn take_others<'a>(lexer: &mut Lexer<'a>, block: &mut Vec<Token<'a>>) -> Result<(), AllocError>
    ensures { OnOk result (TakesOthers lexer.old block.old.items lexer.new block.new.items) }
{
    let mut at = *lexer;
    while let Some(token) = next_past_column_one(&mut at) {
        add_token(block, token)?;
    }
    *lexer = at;
    Ok(())
}
