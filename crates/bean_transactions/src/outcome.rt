//! What comes of a posting.
ghost use Rattle.std.specs.Prelude.{◌≡◌, ◌≢◌, ◌∷◌, [], true, false, ℕ, List, Err, IfOk, map};
ghost use Rattle.bean_postings.specs.Posting.{is_outside_profile};
ghost use Rattle.bean_reductions.specs.Reduction.{Reduces};
ghost use Rattle.bean_reductions.specs.Take.{take_counts};
ghost use Rattle.bean_lots.specs.declared.lot.Lot.{Lot};
ghost use Rattle.bean_base.specs.Counts.{at_8};
ghost use Rattle.bean_transactions.specs.Lined as spec;
ghost use Rattle.bean_transactions.specs.Lined.{IsAugmented, IsInBraces, IsLinedByCost, IsLinedByUnits};
ghost use Rattle.bean_transactions.specs.Lined.{AreTakeLines, IsLotOf, IsReduced, IsSelector};
ghost use Rattle.bean_transactions.specs.Lined.{IsReducedBy, IsTakeLine};
ghost use Rattle.bean_transactions.specs.Outcome.{ComesOf, StopsWith, lines_of};
ghost use Rattle.bean_transactions.specs.Lines.{is_lot};
ghost use Rattle.bean_transactions.specs.Stock.{IsSmallStock, KnowsLots, rest_of};

use crate::line::Line;
use crate::setting::Head;
use crate::stock::Stock;
use crate::stop::{LineFault, refusal_at};
use bean_base::{Account, Amount, Apart, Currency, FaultKind, Num, Text};
use bean_holdings::Posted;
use bean_lots::Lot;
use bean_postings::{Cost, LotParts, Units, WrittenPosting};
use bean_reductions::{LotCause, Method, Selector, has_opposite, reduce_after};
use refusals::Refusal;
use std::alloc::{AllocError, Global};

/// What comes of a posting.
#[derive(Drop)]
pub(crate) enum Outcome<'a> {
    Line(Line<'a>),
    /// What a reduction takes.
    Takes(Vec<Line<'a>>),
}

/// Whether a method takes of lots at all.
fn reduces(method: Method) -> bool
    ensures { result ≡ spec.reduces method }
{
    !matches!(method, Method::None)
}

/// Whether units in braces are a reduction.
fn is_reduction<'a>(stock: Stock<'_, 'a>, account: &Account<'a>, units: &Amount<'a>) -> bool
    requires { KnowsLots stock account.now }
    ensures { result ≡ spec.is_reduction stock.entry.method (rest_of stock.entry) units.now }
{
    let left = stock.left.of(account, &units.currency, stock.held);
    reduces(stock.method) && has_opposite(left, units.number)
}

fn label_of<'a>(parts: &LotParts<'a>) -> Option<Text<'a>>
    ensures { result ≡ parts.now.label }
{
    match &parts.label {
        Some(label) => Some(label.lend()),
        None => None,
    }
}

fn cost_of<'a>(parts: &LotParts<'a>) -> Option<bean_lots::Cost<'a>>
    ensures { spec.IsCostIn parts.now.amount result }
{
    match &parts.amount {
        Some(cost) => Some(bean_lots::Cost::new(cost.number, cost.currency.lend())),
        None => None,
    }
}

/// The selector that braces write.
fn selector_of<'a>(units: &Amount<'a>, parts: &LotParts<'a>) -> Selector<'a>
    ensures { IsSelector units.now.currency parts.now result }
{
    Selector {
        currency: units.currency.lend(),
        cost: cost_of(parts),
        day: parts.day,
        label: label_of(parts),
    }
}

fn refusal_of(refusal: Refusal<LotCause>, line: usize) -> Refusal<LineFault>
    ensures { (m : Method) (cs : List (Lot × ℕ)) (account : List ℕ) (units : Amount) (i : ℕ)
        → Reduces m cs (at_8 units.number) (Err refusal)
        → StopsWith (IsReduced m cs account units i line) result }
{
    match refusal {
        Refusal::Refused(LotCause::NoLotMatches) => refusal_at(FaultKind::NoLotMatches, line),
        Refusal::Refused(LotCause::AmbiguousLots) => refusal_at(FaultKind::AmbiguousLots, line),
        Refusal::Refused(LotCause::NotEnoughUnits) => refusal_at(FaultKind::NotEnoughUnits, line),
        Refusal::OutOfMemory => Refusal::OutOfMemory,
    }
}

/// The line of a take, for the posting of that index.
fn take_line<'a>(
    alloc: Global,
    account: &Account<'a>,
    currency: &Currency<'a>,
    index: usize,
    take: &(Lot<'a>, Num),
) -> Result<Line<'a>, AllocError>
    ensures { IfOk result (λ line.
        IsTakeLine account.now currency.now index (take_counts take.now) line) }
{
    let lot = Apart::new(alloc, take.0.lend())?;
    Ok(Line::Take(Posted {
        account: account.lend(),
        units: Amount {
            number: take.1,
            currency: currency.lend(),
        },
        lot: Some(lot),
        written: index,
    }))
}

/// The lines of takes.
fn take_lines<'a>(
    alloc: Global,
    account: &Account<'a>,
    currency: &Currency<'a>,
    index: usize,
    takes: &[(Lot<'a>, Num)],
) -> Result<Vec<Line<'a>>, AllocError>
    ensures { IfOk result (λ lines. AreTakeLines account.now currency.now index
        (map take_counts takes.now) lines.items) }
{
    let mut lines = Vec::new(alloc);
    for take in takes {
        lines.push(take_line(alloc, account, currency, index, take)?)?;
    }
    Ok(lines)
}

/// The lines of a reduction.
fn reduced<'a>(
    alloc: Global,
    stock: Stock<'_, 'a>,
    index: usize,
    posting: &WrittenPosting<'a>,
    units: &Amount<'a>,
    parts: &LotParts<'a>,
) -> Result<Outcome<'a>, Refusal<LineFault>>
    requires chooses { stock.method ≢ Method.None }
    requires small { IsSmallStock stock }
    requires left { KnowsLots stock posting.now.account }
    ensures { ComesOf (IsReducedBy stock.entry.method (rest_of stock.entry) parts.now
        posting.now.account units.now index posting.now.details.line) result }
{
    let selector = selector_of(units, parts);
    let rest = stock.rests.of(posting.account(), stock.held);
    match reduce_after(
        alloc,
        stock.held,
        &rest,
        stock.taken,
        &selector,
        units.number,
        stock.method,
    ) {
        Ok(takes) => {
            let lines = take_lines(alloc, posting.account(), &units.currency, index, &takes)?;
            Ok(Outcome::Takes(lines))
        }
        Err(fault) => Err(refusal_of(fault, posting.line())),
    }
}

/// The lot of an augmentation.
fn lot_of<'a>(head: Head, parts: &LotParts<'a>, cost: &Amount<'a>) -> Lot<'a>
    ensures { IsLotOf head parts.now cost.now result }
{
    Lot {
        cost: bean_lots::Cost::new(cost.number, cost.currency.lend()),
        day: parts.day.unwrap_or(head.day),
        label: label_of(parts),
    }
}

/// The line of an augmentation.
fn augmented<'a>(
    alloc: Global,
    head: Head,
    index: usize,
    posting: &WrittenPosting<'a>,
    units: &Amount<'a>,
    parts: &LotParts<'a>,
) -> Result<Outcome<'a>, Refusal<LineFault>>
    ensures { ComesOf (IsAugmented head parts.now parts.now.amount posting.now.account units.now
        index posting.now.details.line) result }
{
    let Some(cost) = &parts.amount else {
        return Err(refusal_at(FaultKind::OutsideProfile, head.line));
    };
    if cost.number.count < 0 {
        return Err(refusal_at(FaultKind::NegativeCost, posting.line()));
    }
    let lot = Apart::new(alloc, lot_of(head, parts, cost))?;
    Ok(Outcome::Line(Line::Posted(Posted {
        account: posting.account().lend(),
        units: units.lend(),
        lot: Some(lot),
        written: index,
    })))
}

/// What comes of units in braces.
fn in_braces<'a>(
    alloc: Global,
    stock: Stock<'_, 'a>,
    head: Head,
    index: usize,
    posting: &WrittenPosting<'a>,
    units: &Amount<'a>,
    parts: &LotParts<'a>,
) -> Result<Outcome<'a>, Refusal<LineFault>>
    requires small { IsSmallStock stock }
    requires left { KnowsLots stock posting.now.account }
    ensures { ComesOf (IsInBraces stock.entry.method (rest_of stock.entry) head parts.now
        posting.now.account units.now index posting.now.details.line) result }
{
    if is_reduction(stock, posting.account(), units) {
        reduced(alloc, stock, index, posting, units, parts)
    } else {
        augmented(alloc, head, index, posting, units, parts)
    }
}

/// What comes of units without a cost.
fn without_lot<'a>(index: usize, posting: &WrittenPosting<'a>, units: &Amount<'a>) -> Outcome<'a>
    ensures { lines_of result ≡ spec.without_lot posting.now.account units.now index ∷ [] }
{
    Outcome::Line(Line::Posted(Posted {
        account: posting.account().lend(),
        units: units.lend(),
        lot: None,
        written: index,
    }))
}

/// What comes of units.
fn outcome_by_cost<'a>(
    alloc: Global,
    stock: Stock<'_, 'a>,
    head: Head,
    index: usize,
    posting: &WrittenPosting<'a>,
    units: &Amount<'a>,
) -> Result<Outcome<'a>, Refusal<LineFault>>
    requires small { IsSmallStock stock }
    requires left { is_lot posting.now.details.cost ≡ true → KnowsLots stock posting.now.account }
    requires inside { is_outside_profile posting.now ≡ false }
    ensures { ComesOf (IsLinedByCost stock.entry.method (rest_of stock.entry) head
        posting.now.account units.now posting.now.details.cost index
        posting.now.details.line) result }
{
    let Some(parts) = posting.details() else {
        return Ok(without_lot(index, posting, units));
    };
    match &parts.cost {
        Cost::Absent => Ok(without_lot(index, posting, units)),
        Cost::Lot(lot) => in_braces(alloc, stock, head, index, posting, units, lot.get()),
        Cost::OutsideProfile => unreachable!(),
    }
}

/// What comes of a posting that is in the profile.
pub(crate) fn outcome_of<'a>(
    alloc: Global,
    stock: Stock<'_, 'a>,
    head: Head,
    index: usize,
    posting: &WrittenPosting<'a>,
) -> Result<Outcome<'a>, Refusal<LineFault>>
    requires small { IsSmallStock stock }
    requires left { is_lot posting.now.details.cost ≡ true → KnowsLots stock posting.now.account }
    requires inside { is_outside_profile posting.now ≡ false }
    ensures { ComesOf (IsLinedByUnits stock.entry.method (rest_of stock.entry) head
        posting.now.account posting.now.units posting.now.details.cost index
        posting.now.details.line) result }
{
    match posting.units() {
        Units::Missing => {
            Ok(Outcome::Line(Line::MissingAmount(posting.account().lend(), index)))
        }
        Units::Currency(currency) => Ok(Outcome::Line(Line::MissingNumber(
            posting.account().lend(),
            currency,
            index,
        ))),
        Units::Amount(units) => outcome_by_cost(alloc, stock, head, index, posting, &units),
        Units::NumberAlone => unreachable!(),
    }
}
