//! The parts of a cost, in any order, each form of a part at most once.
ghost use Rattle.std.specs.Prelude.{◌≡◌, Some, ◌≤◌, length, MatchOption, IfSome};
ghost use Rattle.theory.specs.Form.{HasNone, Reads};
ghost use Rattle.bean_postings.specs.CostPart as rule;
ghost use Rattle.bean_grammar.specs.Lexeme.{lexemes};
ghost use Rattle.bean_grammar.specs.Ranged as ranges;

use bean_base::{Amount, Currency, Day, Num, Text};
use bean_grammar::Ranged;
use bean_grammar::amount::{amount_of, currency_if_due};
use bean_grammar::expression::expression_if_due;
use bean_grammar::front::after_sign;
use bean_grammar::literal::{day, text};
use bean_lexer::{Sign, Token};

/// A part of a cost. Of the forms outside the profile is kept whether their numbers are in range.
#[derive(Drop)]
pub enum CostPart<'a> {
    Amount(Ranged<Amount<'a>>),
    Day(Ranged<Day>),
    Label(Text<'a>),
    NumberAlone(bool),
    CurrencyAlone,
    /// `*`
    Merge,
    /// A part with a `#`.
    Compound(bool),
}

/// The parts of a cost, as far as they are written.
#[derive(Drop)]
pub struct CostParts<'a> {
    pub amount: Option<Ranged<Amount<'a>>>,
    pub day: Option<Ranged<Day>>,
    pub label: Option<Text<'a>>,
    /// Whether a number alone is in range.
    pub number: Option<bool>,
    pub currency: Option<bool>,
    pub merge: Option<bool>,
    /// Whether the numbers before and behind a `#` are in range.
    pub compound: Option<bool>,
}

impl<'a> CostParts<'a> {
    /// None of them is written.
    pub fn none() -> CostParts<'a>
        ensures { result ≡ rule.no_parts }
    {
        CostParts {
            amount: None,
            day: None,
            label: None,
            number: None,
            currency: None,
            merge: None,
            compound: None,
        }
    }
}

/// The parts with one more, if no part of its form stands among them.
fn put<'a>(parts: CostParts<'a>, part: CostPart<'a>) -> Option<CostParts<'a>>
    ensures { result ≡ rule.put (Some parts.entry) part.entry }
{
    let mut parts = parts;
    let is_new = match part {
        CostPart::Amount(amount) => parts.amount.replace(amount).is_none(),
        CostPart::Day(day) => parts.day.replace(day).is_none(),
        CostPart::Label(label) => parts.label.replace(label).is_none(),
        CostPart::NumberAlone(fits) => parts.number.replace(fits).is_none(),
        CostPart::CurrencyAlone => parts.currency.replace(true).is_none(),
        CostPart::Merge => parts.merge.replace(true).is_none(),
        CostPart::Compound(fits) => parts.compound.replace(fits).is_none(),
    };
    if is_new { Some(parts) } else { None }
}

fn none_outside(number: &Option<Ranged<Num>>) -> bool
    ensures { result ≡ ranges.none_outside number.now }
{
    !matches!(number, Some(Ranged::Outside))
}

fn number_part_of<'a>(
    number: Option<Ranged<Num>>,
    compound: Option<Option<Ranged<Num>>>,
    currency: Option<Currency<'a>>,
) -> Option<CostPart<'a>>
    ensures { result ≡ rule.number_part_of number compound currency.entry }
{
    if let Some(second) = compound {
        let fits = none_outside(&number) && none_outside(&second);
        return Some(CostPart::Compound(fits));
    }
    match (number, currency) {
        (Some(number), Some(currency)) => Some(CostPart::Amount(amount_of(number, currency))),
        (Some(Ranged::Within(_)), None) => Some(CostPart::NumberAlone(true)),
        (Some(Ranged::Outside), None) => Some(CostPart::NumberAlone(false)),
        (None, Some(_)) => Some(CostPart::CurrencyAlone),
        (None, None) => None,
    }
}

/// What stands from a `#` on, if there is one, and what stands behind it.
fn compound_if_due<'t, 'a>(
    tokens: &'t [Token<'a>],
) -> Option<(Option<Option<Ranged<Num>>>, &'t [Token<'a>])>
    ensures read { MatchOption result (HasNone rule.compound_if_due (lexemes tokens.now))
        (λ r. Reads rule.compound_if_due (lexemes tokens.now) r.0 (lexemes r.1.now)) }
    ensures no_longer { IfSome result (λ r. length r.1.now ≤ length tokens.now) }
{
    let Some(after) = after_sign(tokens, Sign::Hash) else {
        return Some((None, tokens));
    };
    let (number, rest) = expression_if_due(after)?;
    Some((Some(number), rest))
}

fn number_part<'t, 'a>(tokens: &'t [Token<'a>]) -> Option<(CostPart<'a>, &'t [Token<'a>])>
    ensures read { MatchOption result (HasNone rule.number_part (lexemes tokens.now))
        (λ r. Reads rule.number_part (lexemes tokens.now) r.0 (lexemes r.1.now)) }
    ensures no_longer { IfSome result (λ r. length r.1.now ≤ length tokens.now) }
{
    let (number, rest) = expression_if_due(tokens)?;
    let (compound, rest) = compound_if_due(rest)?;
    let (currency, rest) = currency_if_due(rest);
    let part = number_part_of(number, compound, currency)?;
    Some((part, rest))
}

/// The part at the front, and what stands behind it.
fn part<'t, 'a>(tokens: &'t [Token<'a>]) -> Option<(CostPart<'a>, &'t [Token<'a>])>
    ensures read { MatchOption result (HasNone rule.part (lexemes tokens.now))
        (λ r. Reads rule.part (lexemes tokens.now) r.0 (lexemes r.1.now)) }
    ensures no_longer { IfSome result (λ r. length r.1.now ≤ length tokens.now) }
{
    if let Some(found) = day(tokens) {
        let (day, rest) = found;
        return Some((CostPart::Day(day), rest));
    }
    if let Some(found) = text(tokens) {
        let (label, rest) = found;
        return Some((CostPart::Label(label), rest));
    }
    if let Some(rest) = after_sign(tokens, Sign::Star) {
        return Some((CostPart::Merge, rest));
    }
    number_part(tokens)
}

/// One or more parts, none of a form twice, and what stands behind them.
pub fn cost_parts<'t, 'a>(tokens: &'t [Token<'a>]) -> Option<(CostParts<'a>, &'t [Token<'a>])>
    ensures read { MatchOption result (HasNone rule.cost_parts (lexemes tokens.now))
        (λ r. Reads rule.cost_parts (lexemes tokens.now) r.0 (lexemes r.1.now)) }
    ensures no_longer { IfSome result (λ r. length r.1.now ≤ length tokens.now) }
{
    let (first, mut rest) = part(tokens)?;
    let mut parts = put(CostParts::none(), first)?;
    while let Some(after) = after_sign(rest, Sign::Comma) {
        let (next, more) = part(after)?;
        parts = put(parts, next)?;
        rest = more;
    }
    Some((parts, rest))
}
