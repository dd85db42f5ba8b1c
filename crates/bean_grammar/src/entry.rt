//! Metadata entries and the values of custom directives, at the front of a list of tokens.
ghost use Rattle.std.specs.Prelude.{◌≡◌, [], ◌<◌, false, length, IsTrue, MatchOption, IfSome};
ghost use Rattle.std.specs.Prelude.{IfOk};
ghost use Rattle.theory.specs.Form.{HasNone, Reads};
ghost use Rattle.bean_base.specs.Day.{is_day_form};
ghost use Rattle.bean_lexer.specs.TokenForm.{is_text};
ghost use Rattle.bean_grammar.specs.Lexeme.{lexemes};
ghost use Rattle.bean_grammar.specs.Metadata as rule;
ghost use Rattle.bean_grammar.specs.Metadata.{begins_with_plain, is_more};
ghost use Rattle.bean_grammar.specs.Ranged.{ranged_map};

use crate::amount::currency_if_due;
use crate::expression::expression;
use crate::front::{after_key, behind_sign, next};
use crate::literal::{between_quotes, day_of};
use crate::metadata::{MetaEntry, Value};
use crate::names::{MetaKey, Tag};
use crate::ranged::Ranged;
use bean_base::{Account, Amount, Currency, Day, List, Num, Text};
use bean_lexer::{Keyword, Kind, Token};
use std::alloc::{AllocError, Global};

/// The tokens that are still to be read.
#[derive(Clone, Copy)]
struct Unread<'t, 'a> {
    tokens: &'t [Token<'a>],
}

fn day_value<'a>(day: Ranged<Day>) -> Ranged<Value<'a>>
    ensures { result ≡ ranged_map Value.Day day }
{
    match day {
        Ranged::Within(day) => Ranged::Within(Value::Day(day)),
        Ranged::Outside => Ranged::Outside,
    }
}

/// The truth value that a word is.
fn truth(word: Keyword) -> Option<bool>
    ensures { result ≡ rule.truth word }
{
    match word {
        Keyword::True => Some(true),
        Keyword::False => Some(false),
        _ => None,
    }
}

/// What the token at the front stands for by itself, and what stands behind it.
fn plain<'t, 'a>(tokens: &'t [Token<'a>]) -> Option<(Ranged<Value<'a>>, &'t [Token<'a>])>
    ensures read { MatchOption result (begins_with_plain (lexemes tokens.now) ≡ false)
        (λ r. Reads rule.plain (lexemes tokens.now) r.0 (lexemes r.1.now)) }
    ensures shorter { IfSome result (λ r. length r.1.now < length tokens.now) }
{
    let (token, rest) = next(tokens)?;
    let text = token.text.text();
    match token.kind {
        Kind::Text => {
            let text = Text::new(between_quotes(text));
            Some((Ranged::Within(Value::Text(text)), rest))
        }
        Kind::Account => Some((Ranged::Within(Value::Account(Account::new(text))), rest)),
        Kind::Day => Some((day_value(day_of(text)), rest)),
        Kind::Currency => Some((Ranged::Within(Value::Currency(Currency::new(text))), rest)),
        Kind::Tag => Some((
            Ranged::Within(Value::Tag(Tag::new(behind_sign(text)))),
            rest,
        )),
        Kind::Keyword(word) => Some((Ranged::Within(Value::Truth(truth(word)?)), rest)),
        _ => None,
    }
}

fn number_value<'a>(number: Ranged<Num>, currency: Option<Currency<'a>>) -> Ranged<Value<'a>>
    ensures { result ≡ rule.number_value number currency.entry }
{
    match (number, currency) {
        (Ranged::Outside, _) => Ranged::Outside,
        (Ranged::Within(number), None) => Ranged::Within(Value::Number(number)),
        (Ranged::Within(number), Some(currency)) => {
            Ranged::Within(Value::Amount(Amount { number, currency }))
        }
    }
}

/// The value at the front, as far as it goes, and what stands behind it.
pub fn value<'t, 'a>(tokens: &'t [Token<'a>]) -> Option<(Ranged<Value<'a>>, &'t [Token<'a>])>
    ensures read { MatchOption result (HasNone rule.value (lexemes tokens.now))
        (λ r. Reads rule.value (lexemes tokens.now) r.0 (lexemes r.1.now)) }
    ensures shorter { IfSome result (λ r. length r.1.now < length tokens.now) }
{
    if let Some(found) = plain(tokens) {
        return Some(found);
    }
    let (number, rest) = expression(tokens)?;
    let (currency, rest) = currency_if_due(rest);
    Some((number_value(number, currency), rest))
}

/// The values that all the tokens are, each the longest that fits.
pub fn all_values<'a>(
    alloc: Global,
    tokens: &[Token<'a>],
) -> Result<Option<Ranged<List<Value<'a>>>>, AllocError>
    ensures { IfOk result (λ found. MatchOption found (HasNone rule.all_values (lexemes tokens.now))
        (λ values. Reads rule.all_values (lexemes tokens.now) values [])) }
{
    let mut values = Vec::new(alloc);
    let mut are_in_range = true;
    let mut unread = Unread { tokens };
    while let Some(_) = next(unread.tokens) {
        let Some(found) = value(unread.tokens) else {
            return Ok(None);
        };
        let (found, rest) = found;
        match found {
            Ranged::Within(value) => values.push(value)?,
            Ranged::Outside => are_in_range = false,
        }
        unread = Unread { tokens: rest };
    }
    if are_in_range {
        Ok(Some(Ranged::Within(List::new(values))))
    } else {
        Ok(Some(Ranged::Outside))
    }
}

fn entry_of<'a>(key: MetaKey<'a>, value: Ranged<Value<'a>>) -> Ranged<MetaEntry<'a>>
    ensures { result ≡ ranged_map (rule.entry_with key.entry) value.entry }
{
    match value {
        Ranged::Within(value) => Ranged::Within(MetaEntry { key, value }),
        Ranged::Outside => Ranged::Outside,
    }
}

/// The entry at the front, whose value is nothing where no more stands behind its key, and what
/// stands behind it.
pub fn entry<'t, 'a>(tokens: &'t [Token<'a>]) -> Option<(Ranged<MetaEntry<'a>>, &'t [Token<'a>])>
    ensures read { MatchOption result (HasNone rule.entry (lexemes tokens.now))
        (λ r. Reads rule.entry (lexemes tokens.now) r.0 (lexemes r.1.now)) }
    ensures shorter { IfSome result (λ r. length r.1.now < length tokens.now) }
{
    let (key, rest) = after_key(tokens)?;
    let Some(_) = next(rest) else {
        let value = Value::Nothing;
        return Some((Ranged::Within(MetaEntry { key, value }), rest));
    };
    let (value, rest) = value(rest)?;
    Some((entry_of(key, value), rest))
}
