//! The prices of postings.
ghost use Rattle.std.specs.Prelude.{◌≡◌, ◌∷◌, ◌<◌, false, length, MatchOption, IfSome, IfOk};
ghost use Rattle.theory.specs.Form.{HasNone, Reads};
ghost use Rattle.bean_grammar.specs.Lexeme.{lexemes};
ghost use Rattle.bean_postings.specs.Price as rule;

use bean_base::{Amount, Apart};
use bean_grammar::amount::amount_parts;
use bean_grammar::front::next;
use bean_grammar::{AmountParts, Ranged};
use bean_lexer::{Kind, Sign, Token};
use std::alloc::{AllocError, Global};

/// The price that is written in a posting.
#[derive(Drop)]
pub enum Price<'a> {
    Absent,
    /// The price of one unit, behind `@`.
    PerUnit(Apart<Amount<'a>>),
    /// The price of all units, behind `@@`.
    Total(Apart<Amount<'a>>),
    /// A price without its number, its currency or both.
    OutsideProfile,
}

/// Whether the price whose sign is at the front is that of all units, and what stands behind it.
fn after_price_sign<'t, 'a>(tokens: &'t [Token<'a>]) -> Option<(bool, &'t [Token<'a>])>
    ensures front { MatchOption result (rule.begins_with_price (lexemes tokens.now) ≡ false)
        (λ r. lexemes tokens.now ≡ rule.price_sign r.0 ∷ lexemes r.1.now) }
    ensures shorter { IfSome result (λ r. length r.1.now < length tokens.now) }
{
    let (token, rest) = next(tokens)?;
    match token.kind {
        Kind::Sign(Sign::At) => Some((false, rest)),
        Kind::Sign(Sign::AtAt) => Some((true, rest)),
        _ => None,
    }
}

fn priced<'a>(alloc: Global, is_total: bool, amount: Amount<'a>) -> Result<Price<'a>, AllocError>
    ensures { IfOk result (λ price. price ≡ rule.priced is_total amount.entry) }
{
    let amount = Apart::new(alloc, amount)?;
    if is_total {
        Ok(Price::Total(amount))
    } else {
        Ok(Price::PerUnit(amount))
    }
}

fn price_of<'a>(
    alloc: Global,
    is_total: bool,
    parts: AmountParts<'a>,
) -> Result<Ranged<Price<'a>>, AllocError>
    ensures { IfOk result (λ price. price ≡ rule.price_of is_total parts.entry) }
{
    match (parts.number, parts.currency) {
        (Some(Ranged::Outside), _) => Ok(Ranged::Outside),
        (Some(Ranged::Within(number)), Some(currency)) => {
            let price = priced(alloc, is_total, Amount { number, currency })?;
            Ok(Ranged::Within(price))
        }
        (_, _) => Ok(Ranged::Within(Price::OutsideProfile)),
    }
}

/// The price at the front, which is absent where none begins there, and what stands behind it.
pub fn price_if_due<'t, 'a>(
    alloc: Global,
    tokens: &'t [Token<'a>],
) -> Result<Option<(Ranged<Price<'a>>, &'t [Token<'a>])>, AllocError>
    ensures { IfOk result (λ found.
        MatchOption found (HasNone rule.price_if_due (lexemes tokens.now))
        (λ r. Reads rule.price_if_due (lexemes tokens.now) r.0 (lexemes r.1.now))) }
{
    let Some((is_total, after)) = after_price_sign(tokens) else {
        return Ok(Some((Ranged::Within(Price::Absent), tokens)));
    };
    let Some(found) = amount_parts(after) else {
        return Ok(None);
    };
    let (parts, rest) = found;
    let price = price_of(alloc, is_total, parts)?;
    Ok(Some((price, rest)))
}
