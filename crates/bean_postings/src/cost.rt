//! The costs of postings: what a lot's braces say.
ghost use Rattle.std.specs.Prelude.{◌≡◌, ◌<◌, length, MatchOption, IfSome, IfOk};
ghost use Rattle.theory.specs.Form.{HasNone, Reads};
ghost use Rattle.bean_postings.specs.Cost as rule;
ghost use Rattle.bean_grammar.specs.Lexeme.{lexemes};
ghost use Rattle.bean_grammar.specs.Ranged.{option_within};

use crate::cost_part::{CostParts, cost_parts};
use bean_base::{Amount, Apart, Day, Text};
use bean_grammar::Ranged;
use bean_grammar::front::after_sign;
use bean_lexer::{Sign, Token};
use std::alloc::{AllocError, Global};

/// What braces say of a lot. Each part may be absent.
#[derive(Drop)]
pub struct LotParts<'a> {
    pub amount: Option<Amount<'a>>,
    /// The day of acquisition.
    pub day: Option<Day>,
    pub label: Option<Text<'a>>,
}

/// The cost that is written in a posting.
#[derive(Drop)]
pub enum Cost<'a> {
    Absent,
    Lot(Apart<LotParts<'a>>),
    /// A total cost in doubled braces; or a part that is a number or a currency alone, `*`, or has
    /// a `#`.
    OutsideProfile,
}

fn opening(is_total: bool) -> Sign
    ensures { result ≡ rule.opening is_total }
{
    if is_total {
        Sign::OpenBraces
    } else {
        Sign::OpenBrace
    }
}

fn closing(is_total: bool) -> Sign
    ensures { result ≡ rule.closing is_total }
{
    if is_total {
        Sign::CloseBraces
    } else {
        Sign::CloseBrace
    }
}

fn is_outside_profile(is_total: bool, parts: &CostParts<'_>) -> bool
    ensures { result ≡ rule.is_outside_profile is_total parts.now }
{
    is_total
        || parts.number.is_some()
        || parts.currency.is_some()
        || parts.merge.is_some()
        || parts.compound.is_some()
}

/// Whether what the parts outside the profile write is in range.
fn others_fit(parts: &CostParts<'_>) -> bool
    ensures { result ≡ rule.others_fit parts.now }
{
    parts.number.unwrap_or(true) && parts.compound.unwrap_or(true)
}

fn amount_within<'a>(amount: Option<Ranged<Amount<'a>>>) -> Ranged<Option<Amount<'a>>>
    ensures { result ≡ option_within amount.entry }
{
    match amount {
        None => Ranged::Within(None),
        Some(Ranged::Within(amount)) => Ranged::Within(Some(amount)),
        Some(Ranged::Outside) => Ranged::Outside,
    }
}

fn day_within(day: Option<Ranged<Day>>) -> Ranged<Option<Day>>
    ensures { result ≡ option_within day }
{
    match day {
        None => Ranged::Within(None),
        Some(Ranged::Within(day)) => Ranged::Within(Some(day)),
        Some(Ranged::Outside) => Ranged::Outside,
    }
}

fn cost_of<'a>(
    alloc: Global,
    is_total: bool,
    parts: CostParts<'a>,
) -> Result<Ranged<Cost<'a>>, AllocError>
    ensures { IfOk result (λ cost. cost ≡ rule.cost_of is_total parts.entry) }
{
    if !others_fit(&parts) {
        return Ok(Ranged::Outside);
    }
    let is_outside_profile = is_outside_profile(is_total, &parts);
    let label = parts.label;
    let (Ranged::Within(amount), Ranged::Within(day)) = (
        amount_within(parts.amount),
        day_within(parts.day),
    ) else {
        return Ok(Ranged::Outside);
    };
    if is_outside_profile {
        return Ok(Ranged::Within(Cost::OutsideProfile));
    }
    let lot = Apart::new(alloc, LotParts { amount, day, label })?;
    Ok(Ranged::Within(Cost::Lot(lot)))
}

/// The parts in braces at the front, which are doubled where the cost is total, and what stands
/// behind them.
fn braced<'t, 'a>(
    tokens: &'t [Token<'a>],
    is_total: bool,
) -> Option<(CostParts<'a>, &'t [Token<'a>])>
    ensures read { MatchOption result (HasNone (rule.braced is_total) (lexemes tokens.now))
        (λ r. Reads (rule.braced is_total) (lexemes tokens.now) r.0 (lexemes r.1.now)) }
    ensures shorter { IfSome result (λ r. length r.1.now < length tokens.now) }
{
    let rest = after_sign(tokens, opening(is_total))?;
    if let Some(more) = after_sign(rest, closing(is_total)) {
        return Some((CostParts::none(), more));
    }
    let (parts, rest) = cost_parts(rest)?;
    let more = after_sign(rest, closing(is_total))?;
    Some((parts, more))
}

/// The cost in such braces at the front, and what stands behind it.
fn cost_in<'t, 'a>(
    alloc: Global,
    tokens: &'t [Token<'a>],
    is_total: bool,
) -> Result<Option<(Ranged<Cost<'a>>, &'t [Token<'a>])>, AllocError>
    ensures { IfOk result (λ found.
        MatchOption found (HasNone (rule.cost_in is_total) (lexemes tokens.now))
        (λ r. Reads (rule.cost_in is_total) (lexemes tokens.now) r.0 (lexemes r.1.now))) }
{
    let Some(found) = braced(tokens, is_total) else {
        return Ok(None);
    };
    let (parts, rest) = found;
    let cost = cost_of(alloc, is_total, parts)?;
    Ok(Some((cost, rest)))
}

/// The cost at the front, which is absent where none begins there, and what stands behind it.
pub fn cost_if_due<'t, 'a>(
    alloc: Global,
    tokens: &'t [Token<'a>],
) -> Result<Option<(Ranged<Cost<'a>>, &'t [Token<'a>])>, AllocError>
    ensures { IfOk result (λ found. MatchOption found
        (HasNone rule.cost_if_due (lexemes tokens.now))
        (λ r. Reads rule.cost_if_due (lexemes tokens.now) r.0 (lexemes r.1.now))) }
{
    if after_sign(tokens, Sign::OpenBrace).is_some() {
        return cost_in(alloc, tokens, false);
    }
    if after_sign(tokens, Sign::OpenBraces).is_some() {
        return cost_in(alloc, tokens, true);
    }
    Ok(Some((Ranged::Within(Cost::Absent), tokens)))
}
