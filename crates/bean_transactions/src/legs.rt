//! Transactions as their completion sees them.
ghost use Rattle.std.specs.Prelude.{◌≡◌, ◌∷◌, ◌++◌, [], slice_get, Err, IfOk, IsTrue, OnOk};
ghost use Rattle.std.specs.Prelude as prelude;
ghost use Rattle.bean_interp.specs.Balance.{Judges};
ghost use Rattle.bean_interp.specs.Residual.{AreInRange};
ghost use Rattle.bean_interp.specs.Scales.{AreNoted, AreSet, AreWeighed};
ghost use Rattle.bean_interp.specs.Weight.{IsOfUnits};
ghost use Rattle.bean_interp.specs.declared.leg.Leg.{Leg};
ghost use Rattle.bean_postings.specs.declared.price.Price as prices;
ghost use Rattle.bean_transactions.specs.Tried as spec;
ghost use Rattle.bean_transactions.specs.Tried.{whole_at};

use crate::line::Line;
use bean_base::{Apart, Num};
use bean_holdings::Posted;
use bean_interp::{Leg, Scales, WeighCause, Whole, Worth};
use bean_lots::Lot;
use bean_postings::{Price, Units, WrittenPosting};
use refusals::Refusal;
use std::alloc::{AllocError, Global};

/// What units are worth of which this is known without a cost: a cost goes before a price.
fn worth_of<'a>(lot: &Option<Apart<Lot<'a>>>, without: Worth<'a>) -> Worth<'a>
    ensures { (price : prices.Price) → without.entry ≡ spec.worth_of prelude.None price
        → result ≡ spec.worth_of lot.now price }
{
    match lot {
        Some(lot) => Worth::Cost(lot.get().cost.lend()),
        None => without,
    }
}

/// What units without a cost are worth.
fn worth_without<'a>(written: &WrittenPosting<'a>) -> Worth<'a>
    ensures { result ≡ spec.worth_of prelude.None written.now.details.price }
{
    let Some(parts) = written.details() else {
        return Worth::Units;
    };
    match &parts.price {
        Price::Absent | Price::OutsideProfile => Worth::Units,
        Price::PerUnit(amount) => Worth::PerUnit(amount.get().lend()),
        Price::Total(amount) => Worth::Total(amount.get().lend()),
    }
}

/// The number that is written for units.
fn number_in(units: Units<'_>) -> Option<Num>
    ensures { result ≡ spec.number_in units.entry }
{
    match units {
        Units::Amount(amount) => Some(amount.number),
        _ => None,
    }
}

fn whole_of<'a>(number: Option<Num>, worth: Worth<'a>, posted: &Posted<'a>) -> Whole<'a>
    ensures units { result.units ≡ posted.now.units }
    ensures decimals { result.decimals ≡ spec.decimals_of number }
    ensures worth { result.worth ≡ worth.entry }
{
    Whole {
        units: posted.units.lend(),
        decimals: match number {
            Some(number) => number.places,
            None => 0,
        },
        worth,
    }
}

/// A booked posting of a transaction with these written ones, as a leg.
pub fn whole<'a>(postings: &[WrittenPosting<'a>], posted: &Posted<'a>) -> Whole<'a>
    ensures { result ≡ whole_at (slice_get postings.now posted.now.written) posted.now }
{
    match postings.get(posted.written) {
        Some(written) => whole_of(
            number_in(written.units()),
            worth_of(&posted.lot, worth_without(written)),
            posted,
        ),
        None => whole_of(None, worth_of(&posted.lot, Worth::Units), posted),
    }
}

fn leg_of<'a>(postings: &[WrittenPosting<'a>], line: &Line<'a>) -> Leg<'a>
    ensures { result ≡ spec.leg_of postings.now line.now }
{
    match line {
        Line::Posted(posted) => Leg::Whole(whole(postings, posted)),
        Line::Take(take) => Leg::Whole(whole(postings, take)),
        Line::MissingNumber(_, currency, _) => Leg::MissingNumber(currency.lend()),
        Line::MissingAmount(_, _) => Leg::MissingAmount,
    }
}

/// The legs that lines are.
pub(crate) fn legs_of<'a>(
    alloc: Global,
    postings: &[WrittenPosting<'a>],
    lines: &[Line<'a>],
) -> Result<Vec<Leg<'a>>, AllocError>
    ensures { IfOk result (λ legs. legs.items ≡ spec.legs_of postings.now lines.now) }
{
    let mut legs = Vec::with_capacity(alloc, lines.len())?;
    for line in lines {
        legs.push(leg_of(postings, line))?;
    }
    Ok(legs)
}

/// Whether a booked posting weighs what its units are: it has no lot, and nothing is written beside
/// its units.
fn is_of_units<'a>(postings: &[WrittenPosting<'a>], posted: &Posted<'a>) -> bool
    ensures { IsTrue result → IsOfUnits posted.now.units
        (whole_at (slice_get postings.now posted.now.written) posted.now) }
{
    if posted.lot.is_some() {
        return false;
    }
    match postings.get(posted.written) {
        Some(written) => written.details().is_none(),
        None => true,
    }
}

/// Lays a booked posting on the scales as a leg. It is a function of its own, so that any other makes
/// no room for one.
#[inline(never)]
fn lay_leg<'a>(
    scales: &mut Scales<'a>,
    postings: &[WrittenPosting<'a>],
    posted: &Posted<'a>,
) -> Result<(), Refusal<WeighCause>>
    ensures weighed { OnOk result ((legs : prelude.List Leg) → AreWeighed scales.old legs
        → AreWeighed scales.new (legs ++ spec.booked_leg postings.now posted.now ∷ [])) }
    ensures noted { (legs : prelude.List Leg) → AreNoted scales.old legs
        → AreNoted scales.new legs }
    ensures wide { result ≡ Err (Refusal.Refused WeighCause.TooWide)
        → (legs later : prelude.List Leg) → AreWeighed scales.old legs
        → ¬ AreInRange (legs ++ spec.booked_leg postings.now posted.now ∷ later) }
{
    scales.add(&Leg::Whole(whole(postings, posted)))
}

/// Lays a booked posting on the scales.
fn lay_one<'a>(
    scales: &mut Scales<'a>,
    postings: &[WrittenPosting<'a>],
    posted: &Posted<'a>,
) -> Result<(), Refusal<WeighCause>>
    ensures weighed { OnOk result ((legs : prelude.List Leg) → AreWeighed scales.old legs
        → AreWeighed scales.new (legs ++ spec.booked_leg postings.now posted.now ∷ [])) }
    ensures noted { (legs : prelude.List Leg) → AreNoted scales.old legs
        → AreNoted scales.new legs }
    ensures wide { result ≡ Err (Refusal.Refused WeighCause.TooWide)
        → (legs later : prelude.List Leg) → AreWeighed scales.old legs
        → ¬ AreInRange (legs ++ spec.booked_leg postings.now posted.now ∷ later) }
{
    // Most postings are of this kind, and no leg is made of them.
    if is_of_units(postings, posted) {
        return scales.add_units(&posted.units);
    }
    lay_leg(scales, postings, posted)
}

/// Lays the booked postings of a transaction on the scales, in place of what lay there.
fn lay<'a>(
    scales: &mut Scales<'a>,
    postings: &[WrittenPosting<'a>],
    posted: &[Posted<'a>],
) -> Result<(), Refusal<WeighCause>>
    ensures weighed { OnOk result
        (AreWeighed scales.new (spec.booked_legs postings.now posted.now)) }
    ensures noted { OnOk result (AreNoted scales.new []) }
    ensures wide { result ≡ Err (Refusal.Refused WeighCause.TooWide)
        → ¬ AreInRange (spec.booked_legs postings.now posted.now) }
{
    scales.clear();
    for one in posted {
        match lay_one(scales, postings, one) {
            Ok(()) => {}
            Err(fault) => return Err(fault),
        }
    }
    Ok(())
}

/// Notes the decimals of the booked postings of a transaction, which lie on the scales.
fn note<'a>(
    scales: &mut Scales<'a>,
    postings: &[WrittenPosting<'a>],
    posted: &[Posted<'a>],
) -> Result<(), AllocError>
    requires weighed { AreWeighed scales.old (spec.booked_legs postings.now posted.now) }
    requires noted { AreNoted scales.old [] }
    ensures { OnOk result (AreSet scales.new (spec.booked_legs postings.now posted.now)) }
{
    for one in posted {
        scales.note(&Leg::Whole(whole(postings, one)))?;
    }
    Ok(())
}

/// Lays the booked postings of a transaction on the scales with their decimals, in place of what lay
/// there.
pub(crate) fn set<'a>(
    scales: &mut Scales<'a>,
    postings: &[WrittenPosting<'a>],
    posted: &[Posted<'a>],
) -> Result<(), Refusal<WeighCause>>
    ensures set { OnOk result (AreSet scales.new (spec.booked_legs postings.now posted.now)) }
    ensures wide { result ≡ Err (Refusal.Refused WeighCause.TooWide)
        → ¬ AreInRange (spec.booked_legs postings.now posted.now) }
{
    if let Err(fault) = lay(scales, postings, posted) {
        return Err(fault);
    }
    note(scales, postings, posted)?;
    Ok(())
}

/// Whether a transaction balances by the postings that it is booked as, or that they are too wide.
pub(crate) fn judge<'a>(
    scales: &mut Scales<'a>,
    postings: &[WrittenPosting<'a>],
    posted: &[Posted<'a>],
) -> Result<bool, Refusal<WeighCause>>
    ensures { Judges (spec.booked_legs postings.now posted.now) result }
{
    if let Err(fault) = lay(scales, postings, posted) {
        return Err(fault);
    }
    if scales.are_zero() {
        return Ok(true);
    }
    note(scales, postings, posted)?;
    Ok(scales.are_even())
}
