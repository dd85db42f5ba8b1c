//! Directives on currencies and their numbers: commodities, balances and prices.
ghost use Rattle.std.specs.Prelude.{◌≡◌, IfOk, MatchOption};
ghost use Rattle.theory.specs.Form.{Reads, HasNone, due};
ghost use Rattle.bean_grammar.specs.Lexeme.{lexemes};
ghost use Rattle.bean_directives.specs.Head as rule;

use crate::directive::DirectiveKind;
use crate::worth::is_below_zero;
use bean_base::{Account, Amount, Apart, Currency, Num};
use bean_grammar::Ranged;
use bean_grammar::expression::expression;
use bean_grammar::front::{after_account, after_currency, after_sign};
use bean_lexer::{Sign, Token};
use std::alloc::{AllocError, Global};

/// The naming of a currency.
#[derive(Drop)]
pub struct Commodity<'a> {
    pub currency: Currency<'a>,
}

/// What an account and those below it hold of a currency when the day begins.
#[derive(Drop)]
pub struct Balance<'a> {
    pub account: Account<'a>,
    pub number: Num,
    /// How far the account may be off, where that is written.
    pub tolerance: Option<Num>,
    pub currency: Currency<'a>,
}

/// What a unit of a currency costs.
#[derive(Drop)]
pub struct Price<'a> {
    pub currency: Currency<'a>,
    pub amount: Amount<'a>,
}

/// What stands behind `commodity`, and what stands behind that.
pub fn commodity_line<'t, 'a>(
    tokens: &'t [Token<'a>],
) -> Option<(Ranged<DirectiveKind<'a>>, &'t [Token<'a>])>
    ensures { MatchOption result (HasNone rule.commodity_line (lexemes tokens.now))
        (λ r. Reads rule.commodity_line (lexemes tokens.now) r.0 (lexemes r.1.now)) }
{
    let (currency, rest) = after_currency(tokens)?;
    let commodity = Commodity { currency };
    Some((Ranged::Within(DirectiveKind::Commodity(commodity)), rest))
}

/// The tolerance behind a tilde at the front, if there is one, and what stands behind it.
fn tolerance_if_due<'t, 'a>(
    alloc: Global,
    tokens: &'t [Token<'a>],
) -> Result<Option<(Option<Ranged<Num>>, &'t [Token<'a>])>, AllocError>
    ensures { IfOk result (λ found. MatchOption found
        (HasNone (due rule.begins_with_tilde rule.tolerance) (lexemes tokens.now))
        (λ r. Reads (due rule.begins_with_tilde rule.tolerance) (lexemes tokens.now)
        r.0 (lexemes r.1.now))) }
{
    let Some(behind) = after_sign(tokens, Sign::Tilde) else {
        return Ok(Some((None, tokens)));
    };
    let Some(found) = expression(behind) else {
        return Ok(None);
    };
    if is_below_zero(alloc, behind)? {
        return Ok(None);
    }
    let (tolerance, rest) = found;
    Ok(Some((Some(tolerance), rest)))
}

/// A tolerance that is written, in range or not, or none.
fn ranged_option(tolerance: Option<Ranged<Num>>) -> Ranged<Option<Num>>
    ensures { result ≡ rule.ranged_option tolerance }
{
    match tolerance {
        Some(Ranged::Within(tolerance)) => Ranged::Within(Some(tolerance)),
        Some(Ranged::Outside) => Ranged::Outside,
        None => Ranged::Within(None),
    }
}

fn balance_of<'a>(
    alloc: Global,
    account: Account<'a>,
    number: Ranged<Num>,
    tolerance: Option<Ranged<Num>>,
    currency: Currency<'a>,
) -> Result<Ranged<DirectiveKind<'a>>, AllocError>
    ensures { IfOk result
        (λ kind. kind ≡ rule.balance_of account.entry number tolerance currency.entry) }
{
    let (Ranged::Within(number), Ranged::Within(tolerance)) = (number, ranged_option(tolerance))
    else {
        return Ok(Ranged::Outside);
    };
    let balance = Balance {
        account,
        number,
        tolerance,
        currency,
    };
    let balance = Apart::new(alloc, balance)?;
    Ok(Ranged::Within(DirectiveKind::Balance(balance)))
}

/// What stands behind `balance`, and what stands behind that.
pub fn balance_line<'t, 'a>(
    alloc: Global,
    tokens: &'t [Token<'a>],
) -> Result<Option<(Ranged<DirectiveKind<'a>>, &'t [Token<'a>])>, AllocError>
    ensures { IfOk result (λ found. MatchOption found
        (HasNone rule.balance_line (lexemes tokens.now))
        (λ r. Reads rule.balance_line (lexemes tokens.now) r.0 (lexemes r.1.now))) }
{
    let Some(named) = after_account(tokens) else {
        return Ok(None);
    };
    let (account, rest) = named;
    let Some(numbered) = expression(rest) else {
        return Ok(None);
    };
    let (number, rest) = numbered;
    let Some(tolerated) = tolerance_if_due(alloc, rest)? else {
        return Ok(None);
    };
    let (tolerance, rest) = tolerated;
    let Some(found) = after_currency(rest) else {
        return Ok(None);
    };
    let (currency, rest) = found;
    let balance = balance_of(alloc, account, number, tolerance, currency)?;
    Ok(Some((balance, rest)))
}

fn price_of<'a>(
    alloc: Global,
    currency: Currency<'a>,
    number: Ranged<Num>,
    other: Currency<'a>,
) -> Result<Ranged<DirectiveKind<'a>>, AllocError>
    ensures { IfOk result (λ kind. kind ≡ rule.price_of currency.entry number other.entry) }
{
    let Ranged::Within(number) = number else {
        return Ok(Ranged::Outside);
    };
    let amount = Amount {
        number,
        currency: other,
    };
    let price = Apart::new(alloc, Price { currency, amount })?;
    Ok(Ranged::Within(DirectiveKind::Price(price)))
}

/// What stands behind `price`, and what stands behind that.
pub fn price_line<'t, 'a>(
    alloc: Global,
    tokens: &'t [Token<'a>],
) -> Result<Option<(Ranged<DirectiveKind<'a>>, &'t [Token<'a>])>, AllocError>
    ensures { IfOk result (λ found. MatchOption found
        (HasNone rule.price_line (lexemes tokens.now))
        (λ r. Reads rule.price_line (lexemes tokens.now) r.0 (lexemes r.1.now))) }
{
    let Some(named) = after_currency(tokens) else {
        return Ok(None);
    };
    let (currency, rest) = named;
    let Some(numbered) = expression(rest) else {
        return Ok(None);
    };
    let (number, rest) = numbered;
    let Some(found) = after_currency(rest) else {
        return Ok(None);
    };
    let (other, rest) = found;
    let price = price_of(alloc, currency, number, other)?;
    Ok(Some((price, rest)))
}
