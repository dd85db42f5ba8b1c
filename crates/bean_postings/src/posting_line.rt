//! Lines that are postings.
ghost use Rattle.std.specs.Prelude.{◌≡◌, ◌∷◌, ◌<◌, ◌≤◌, false, length, MatchOption, IfSome, IfOk};
ghost use Rattle.std.specs.Prelude.{ℕ};
ghost use Rattle.theory.specs.Form.{HasNone, Reads, Is, IsNone};
ghost use Rattle.bean_grammar.specs.Lexeme.{lexemes};
ghost use Rattle.bean_grammar.specs.declared.ranged.Ranged.TheVariants.{Within};
ghost use Rattle.bean_postings.specs.Posting as rule;
ghost use Rattle.bean_postings.specs.declared.cost.Cost.TheVariants as costs;
ghost use Rattle.bean_postings.specs.declared.price.Price.TheVariants as prices;

use crate::cost::{Cost, cost_if_due};
use crate::details::DetailParts;
use crate::posting::{Posting, Units};
use crate::price::{Price, price_if_due};
use crate::written_posting::WrittenPosting;
use bean_base::{Account, Amount, Few, Flag};
use bean_grammar::amount::amount_parts;
use bean_grammar::front::{after_account, after_currency, next};
use bean_grammar::number::small_number;
use bean_grammar::{AmountParts, Ranged, expression};
use bean_lexer::{Kind, Sign, Token};
use std::alloc::{AllocError, Global};

/// The flag that a sign at the front is, and what stands behind it.
pub fn after_flag_sign<'t, 'a>(tokens: &'t [Token<'a>]) -> Option<(Flag, &'t [Token<'a>])>
    ensures front { MatchOption result (rule.begins_with_flag_sign (lexemes tokens.now) ≡ false)
        (λ r. lexemes tokens.now ≡ rule.flag_sign r.0 ∷ lexemes r.1.now) }
    ensures shorter { IfSome result (λ r. length r.1.now < length tokens.now) }
{
    let (token, rest) = next(tokens)?;
    match token.kind {
        Kind::Sign(Sign::Star) => Some((Flag::Complete, rest)),
        Kind::Sign(Sign::Bang) => Some((Flag::Incomplete, rest)),
        _ => None,
    }
}

/// The flag of a posting at the front, if there is one, and what stands behind it.
fn flag_if_due<'t, 'a>(tokens: &'t [Token<'a>]) -> (Option<Flag>, &'t [Token<'a>])
    ensures { Reads rule.flag_if_due (lexemes tokens.now) result.0 (lexemes result.1.now) }
{
    match after_flag_sign(tokens) {
        Some((flag, rest)) => (Some(flag), rest),
        None => (None, tokens),
    }
}

fn units_of<'a>(parts: AmountParts<'a>) -> Ranged<Units<'a>>
    ensures { result ≡ rule.units_of parts.entry }
{
    match (parts.number, parts.currency) {
        (None, None) => Ranged::Within(Units::Missing),
        (None, Some(currency)) => Ranged::Within(Units::Currency(currency)),
        (Some(Ranged::Outside), _) => Ranged::Outside,
        (Some(Ranged::Within(_)), None) => Ranged::Within(Units::NumberAlone),
        (Some(Ranged::Within(number)), Some(currency)) => {
            Ranged::Within(Units::Amount(Amount { number, currency }))
        }
    }
}

/// The units at the front, and what stands behind them.
fn units<'t, 'a>(tokens: &'t [Token<'a>]) -> Option<(Ranged<Units<'a>>, &'t [Token<'a>])>
    ensures { MatchOption result (HasNone rule.units (lexemes tokens.now))
        (λ r. Reads rule.units (lexemes tokens.now) r.0 (lexemes r.1.now)) }
{
    let (parts, rest) = amount_parts(tokens)?;
    Some((units_of(parts), rest))
}

/// A posting that needs no memory: it has nothing beside its account, its units and its line.
fn few_of<'a>(
    line: usize,
    flag: Option<Flag>,
    account: &Account<'a>,
    units: &Units<'a>,
    cost: &Cost<'a>,
    price: &Price<'a>,
) -> Option<WrittenPosting<'a>>
    ensures { IfSome result (λ p. Within p ≡ rule.posting_of line flag account.now
        (Within units.now) (Within cost.now) (Within price.now)) }
{
    let (None, Cost::Absent, Price::Absent) = (flag, cost, price) else {
        return None;
    };
    match units {
        Units::Amount(amount) => WrittenPosting::of_amount(
            line,
            account.lend(),
            amount.number,
            amount.currency.lend(),
        ),
        Units::Missing => WrittenPosting::without_amount(line, account.lend()),
        Units::Currency(_) | Units::NumberAlone => None,
    }
}

fn posting_of<'a>(
    alloc: Global,
    line: usize,
    flag: Option<Flag>,
    account: Account<'a>,
    units: Ranged<Units<'a>>,
    cost: Ranged<Cost<'a>>,
    price: Ranged<Price<'a>>,
) -> Result<Ranged<WrittenPosting<'a>>, AllocError>
    ensures { IfOk result (λ p. p
        ≡ rule.posting_of line flag account.entry units.entry cost.entry price.entry) }
{
    let (Ranged::Within(units), Ranged::Within(cost), Ranged::Within(price)) = (units, cost, price)
    else {
        return Ok(Ranged::Outside);
    };
    if let Some(few) = few_of(line, flag, &account, &units, &cost, &price) {
        return Ok(Ranged::Within(few));
    }
    let posting = Posting {
        units,
        account,
        details: DetailParts {
            cost,
            price,
            metadata: Few::new(),
            line,
            flag,
        },
    };
    Ok(Ranged::Within(WrittenPosting::whole(alloc, posting)?))
}

/// The flag, the account and the units at the front, and what stands behind them.
fn posted<'t, 'a>(
    tokens: &'t [Token<'a>],
) -> Option<
    (
        Option<Flag>,
        Account<'a>,
        Ranged<Units<'a>>,
        &'t [Token<'a>],
    ),
>
    ensures { (line : ℕ) → MatchOption result (IsNone (rule.posting line) (lexemes tokens.now))
        (λ r. Reads (rule.posted_to line) (lexemes tokens.now)
        (rule.posting_of line r.0 r.1 r.2) (lexemes r.3.now)) }
{
    let (flag, rest) = flag_if_due(tokens);
    let (account, rest) = after_account(rest)?;
    let (units, rest) = units(rest)?;
    Some((flag, account, units, rest))
}

/// The posting that a line is which has an account, and a number, alone or behind a sign, with a
/// currency, or neither, where it can be kept without memory. Nearly every posting is one of these, and
/// they are read without a look at what others may have.
#[inline(always)]
pub fn plain_posting<'a>(line: usize, tokens: &[Token<'a>]) -> Option<WrittenPosting<'a>>
    ensures { IfSome result (λ p. Is (rule.posting line) (lexemes tokens.now) (Within p)) }
{
    let (account, rest) = after_account(tokens)?;
    let Some(_) = next(rest) else {
        return WrittenPosting::without_amount(line, account);
    };
    let (is_minus, written, rest) = expression::plain(rest)?;
    let (currency, rest) = after_currency(rest)?;
    match next(rest) {
        Some(_) => None,
        None => {
            let number = small_number(is_minus, written)?;
            WrittenPosting::of_small(line, account, number, currency)
        }
    }
}

/// The posting that a line of that number is. It takes memory where it has more than an account, an
/// amount that isn't seldom as large, and its line.
pub fn posting<'a>(
    alloc: Global,
    line: usize,
    tokens: &[Token<'a>],
) -> Result<Option<Ranged<WrittenPosting<'a>>>, AllocError>
    ensures { IfOk result (λ found.
        MatchOption found (IsNone (rule.posting line) (lexemes tokens.now))
        (Is (rule.posting line) (lexemes tokens.now))) }
{
    if let Some(posting) = plain_posting(line, tokens) {
        return Ok(Some(Ranged::Within(posting)));
    }
    let Some(found) = posted(tokens) else {
        return Ok(None);
    };
    let (flag, account, units, rest) = found;
    let Some(found) = cost_if_due(alloc, rest)? else {
        return Ok(None);
    };
    let (cost, rest) = found;
    let Some(found) = price_if_due(alloc, rest)? else {
        return Ok(None);
    };
    let (price, rest) = found;
    match next(rest) {
        Some(_) => Ok(None),
        None => {
            let posting = posting_of(alloc, line, flag, account, units, cost, price)?;
            Ok(Some(posting))
        }
    }
}
