//! Amounts at the front of a list of tokens, whole or with parts that aren't written.
ghost use Rattle.std.specs.Prelude.{◌≡◌, ◌<◌, ◌≤◌, length, MatchOption, IfSome};
ghost use Rattle.theory.specs.Form.{HasNone, Reads};
ghost use Rattle.bean_grammar.specs.Amount as rule;
ghost use Rattle.bean_grammar.specs.Lexeme.{lexemes};

use crate::expression::{expression, expression_if_due};
use crate::front::after_currency;
use crate::ranged::Ranged;
use bean_base::{Amount, Currency, Num};
use bean_lexer::Token;

/// An amount of which the number, the currency or both may not be written.
#[derive(Drop)]
pub struct AmountParts<'a> {
    pub number: Option<Ranged<Num>>,
    pub currency: Option<Currency<'a>>,
}

/// The amount of a number, in range where the number is.
pub fn amount_of<'a>(number: Ranged<Num>, currency: Currency<'a>) -> Ranged<Amount<'a>>
    ensures { result ≡ rule.amount_of number currency.entry }
{
    match number {
        Ranged::Within(number) => Ranged::Within(Amount { number, currency }),
        Ranged::Outside => Ranged::Outside,
    }
}

/// The amount at the front, and what stands behind it.
pub fn amount<'t, 'a>(tokens: &'t [Token<'a>]) -> Option<(Ranged<Amount<'a>>, &'t [Token<'a>])>
    ensures read { MatchOption result (HasNone rule.amount (lexemes tokens.now))
        (λ r. Reads rule.amount (lexemes tokens.now) r.0 (lexemes r.1.now)) }
    ensures shorter { IfSome result (λ r. length r.1.now < length tokens.now) }
{
    let (number, rest) = expression(tokens)?;
    let (currency, rest) = after_currency(rest)?;
    Some((amount_of(number, currency), rest))
}

/// The currency at the front, if there is one, and what stands behind it.
pub fn currency_if_due<'t, 'a>(tokens: &'t [Token<'a>]) -> (Option<Currency<'a>>, &'t [Token<'a>])
    ensures read { Reads rule.currency_if_due (lexemes tokens.now)
        result.0 (lexemes result.1.now) }
    ensures no_longer { length result.1.now ≤ length tokens.now }
{
    match after_currency(tokens) {
        Some(found) => {
            let (currency, rest) = found;
            (Some(currency), rest)
        }
        None => (None, tokens),
    }
}

/// What is written of an amount at the front, and what stands behind it.
pub fn amount_parts<'t, 'a>(tokens: &'t [Token<'a>]) -> Option<(AmountParts<'a>, &'t [Token<'a>])>
    ensures read { MatchOption result (HasNone rule.amount_parts (lexemes tokens.now))
        (λ r. Reads rule.amount_parts (lexemes tokens.now) r.0 (lexemes r.1.now)) }
    ensures no_longer { IfSome result (λ r. length r.1.now ≤ length tokens.now) }
{
    let (number, rest) = expression_if_due(tokens)?;
    let (currency, rest) = currency_if_due(rest);
    Some((AmountParts { number, currency }, rest))
}
