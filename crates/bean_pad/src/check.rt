//! Which balances fail once all paddings stand, and the faults of pads.
ghost use Rattle.std.specs.Prelude.{◌≡◌, ◌+◌, ◌*◌, ◌<◌, ◌≤◌, ◌^◌, ◌++◌, [], ◌∷◌, neg_ℤ, OnOk, List};
ghost use Rattle.std.specs.Prelude.{drop, length, reverse, suc, if◌then◌else◌};
ghost use Rattle.std.specs.Int.RustNames.{unsigned_abs};
ghost use Rattle.std.specs.List.{flat_map};
ghost use Rattle.bean_pad.specs.Checking.{Checks, HasRoom, found_at};
ghost use Rattle.bean_pad.specs.Held.{Units};
ghost use Rattle.bean_pad.specs.Standing as standing;
ghost use Rattle.bean_pad.specs.Standing.{all_inserted, faults_of_note, faults_of_outcome};
ghost use Rattle.bean_pad.specs.Standing.{faults_of_pad, inserted, inserted_at};
ghost use Rattle.bean_pad.specs.Sums.{AreSmall, Holds};
ghost use Rattle.bean_pad.specs.Trail.{AreNear, IsNear, fails_with, failing_on, notes_in};
ghost use Rattle.bean_pad.specs.declared.check.Passed.{Passed};
ghost use Rattle.bean_pad.specs.declared.check.Passed.TheVariants as passed;
ghost use Rattle.bean_pad.specs.declared.note.NotedPad.{NotedPad};
ghost use Rattle.bean_pad.specs.declared.note.Outcome.TheVariants as outcomes;

use crate::note::{Note, NotedPad, Outcome};
use crate::sums::Sums;
use crate::tolerance::is_out;
use bean_base::{Account, Currency, Fault, FaultKind, Num, Place};
use bean_directives::Pad;
use std::alloc::{AllocError, Global};

/// A balance that is to be checked once all paddings stand.
#[derive(Drop)]
pub(crate) struct Check<'a> {
    pub account: Account<'a>,
    pub currency: Currency<'a>,
    /// The number less what is written, as a count of `10^-8`.
    pub short: i128,
    /// How far the account may be off, as a count of `10^-8`.
    pub tolerance: i128,
    pub place: Place,
}

/// The pads and balances of a ledger, one after the other.
#[derive(Drop)]
pub(crate) enum Passed<'a> {
    Pad,
    Balance(Check<'a>),
}

/// Adds a padding: the difference to the account, and minus it to the source.
fn insert_both<'a>(
    sums: &mut Sums<'a>,
    pad: &Pad<'a>,
    currency: &Currency<'a>,
    number: Num,
) -> Result<(), AllocError>
    requires small { AreSmall sums.old }
    requires few { sums.old.additions + 1 < 2 ^ 42 }
    ensures holds { OnOk result ((us : List Units) → Holds us sums.old
        → Holds (inserted pad.now currency.now (outcomes.Padding number) us) sums.new) }
    ensures small { OnOk result (AreSmall sums.new) }
    ensures additions { OnOk result (sums.new.additions ≡ sums.old.additions + 2) }
{
    let count = number.scaled(8);
    sums.add(&pad.account, currency, count)?;
    sums.add(&pad.source, currency, -count)?;
    Ok(())
}

/// Adds what a note of a pad inserts.
fn insert<'a>(sums: &mut Sums<'a>, pad: &Pad<'a>, note: &Note<'a>) -> Result<(), AllocError>
    requires small { AreSmall sums.old }
    requires few { sums.old.additions + 1 < 2 ^ 42 }
    ensures holds { OnOk result ((us : List Units) → Holds us sums.old
        → Holds (inserted pad.now note.now.currency note.now.outcome us) sums.new) }
    ensures small { OnOk result (AreSmall sums.new) }
    ensures additions { OnOk result (sums.new.additions ≤ sums.old.additions + 2) }
{
    match note.outcome {
        Outcome::Padding(number) => insert_both(sums, pad, &note.currency, number),
        Outcome::AtCost => Ok(()),
        Outcome::TooWide => Ok(()),
    }
}

/// Adds what the notes of a pad insert.
#[tactic(auto, using(crate::proofs::InsertedFacts::one_inserted))]
fn insert_all<'a>(sums: &mut Sums<'a>, pad: &Pad<'a>, notes: &[Note<'a>]) -> Result<(), AllocError>
    requires small { AreSmall sums.old }
    requires few { sums.old.additions + 2 * length notes.now < 2 ^ 42 }
    ensures holds { OnOk result ((us : List Units) → Holds us sums.old
        → Holds (all_inserted pad.now notes.now us) sums.new) }
    ensures small { OnOk result (AreSmall sums.new) }
    ensures additions { OnOk result
        (sums.new.additions ≤ sums.old.additions + 2 * length notes.now) }
{
    for note in notes {
        insert(sums, pad, note)?;
    }
    Ok(())
}

/// Adds what the notes of the pad of that number insert.
fn insert_at<'a>(
    sums: &mut Sums<'a>,
    pads: &[NotedPad<'a>],
    number: usize,
) -> Result<(), AllocError>
    requires small { AreSmall sums.old }
    requires few { sums.old.additions + 2 * notes_in (drop number pads.now) < 2 ^ 42 }
    ensures holds { OnOk result ((us : List Units) → Holds us sums.old
        → Holds (inserted_at pads.now number us) sums.new) }
    ensures small { OnOk result (AreSmall sums.new) }
    ensures additions { OnOk result
        (sums.new.additions + 2 * notes_in (drop (suc number) pads.now)
        ≤ sums.old.additions + 2 * notes_in (drop number pads.now)) }
{
    let Some(pad) = pads.get(number) else {
        return Ok(());
    };
    insert_all(sums, &pad.pad, pad.notes.as_slice())?;
    Ok(())
}

fn push_if(faults: &mut Vec<Fault>, holds: bool, fault: Fault) -> Result<(), AllocError>
    ensures { OnOk result (faults.new.items
        ≡ faults.old.items ++ (if holds then fault ∷ [] else [])) }
{
    if holds {
        faults.push(fault)?;
    }
    Ok(())
}

impl Check<'_> {
    fn fault(&self) -> Fault
        ensures { result ≡ standing.fault_at FaultKind.BalanceFails self.now.place }
    {
        Fault {
            kind: FaultKind::BalanceFails,
            place: self.place,
        }
    }
}

/// What is known while balances are checked.
#[derive(Drop)]
pub(crate) struct Checker<'a> {
    /// What the paddings add.
    inserted: Sums<'a>,
    /// How many pads were passed.
    pads: usize,
}

impl<'a> Checker<'a> {
    fn new(alloc: Global) -> Checker<'a>
        ensures checks { (ps : List NotedPad) → Checks ps [] result }
        ensures room { (ps : List NotedPad) → HasRoom ps result }
        ensures pads { result.pads ≡ 0 }
    {
        Checker {
            inserted: Sums::new(alloc),
            pads: 0,
        }
    }

    /// Passes a pad: its paddings stand from here on.
    fn pass_pad(&mut self, pads: &[NotedPad<'a>]) -> Result<(), AllocError>
        requires few { notes_in pads.now ≤ 2 ^ 40 }
        requires near { self.old.pads ≤ 2 ^ 40 }
        requires room { HasRoom pads.now self.old }
        ensures checks { OnOk result ((ts : List Passed) → Checks pads.now ts self.old
            → Checks pads.now (passed.Pad ∷ ts) self.new) }
        ensures room { OnOk result (HasRoom pads.now self.new) }
        ensures pads { OnOk result (self.new.pads ≡ self.old.pads + 1) }
    {
        insert_at(&mut self.inserted, pads, self.pads)?;
        self.pads += 1;
        Ok(())
    }

    /// Whether a balance fails where these paddings stand before it.
    fn fails(&self, check: &Check<'_>) -> bool
        requires near { IsNear (passed.Balance check.now) }
        requires small { AreSmall self.now.inserted }
        requires few { self.now.inserted.additions < 2 ^ 42 }
        ensures { (us : List Units) → Holds us self.now.inserted
            → result ≡ fails_with us check.now }
    {
        let inserted = self.inserted.get(&check.account, &check.currency);
        is_out(check.short - inserted, check.tolerance)
    }

    /// Passes a pad or a balance; the fault of a balance that fails is added.
    fn pass(
        &mut self,
        passed: &Passed<'_>,
        pads: &[NotedPad<'a>],
        faults: &mut Vec<Fault>,
    ) -> Result<(), AllocError>
        requires few { notes_in pads.now ≤ 2 ^ 40 }
        requires near { self.old.pads ≤ 2 ^ 40 }
        requires narrow { IsNear passed.now }
        requires room { HasRoom pads.now self.old }
        ensures checks { OnOk result ((ts : List Passed) → Checks pads.now ts self.old
            → Checks pads.now (passed.now ∷ ts) self.new) }
        ensures faults { OnOk result ((ts : List Passed) → Checks pads.now ts self.old
            → faults.new.items ≡ faults.old.items ++ found_at pads.now ts passed.now) }
        ensures room { OnOk result (HasRoom pads.now self.new) }
        ensures pads { OnOk result (self.new.pads ≤ self.old.pads + 1) }
    {
        match passed {
            Passed::Pad => self.pass_pad(pads),
            Passed::Balance(check) => push_if(faults, self.fails(check), check.fault()),
        }
    }
}

/// Adds the faults of the balances that fail, in their order.
pub(crate) fn add_failing<'a>(
    alloc: Global,
    pads: &[NotedPad<'a>],
    trail: &[Passed<'a>],
    faults: &mut Vec<Fault>,
) -> Result<(), AllocError>
    requires few { notes_in pads.now ≤ 2 ^ 40 }
    requires short { length trail.now ≤ 2 ^ 40 }
    requires near { AreNear trail.now }
    ensures { OnOk result (faults.new.items
        ≡ faults.old.items ++ failing_on pads.now (reverse trail.now)) }
{
    let mut checker = Checker::new(alloc);
    for passed in trail {
        checker.pass(passed, pads, faults)?;
    }
    Ok(())
}

/// Adds the fault of what came of a pad at a place, if it is one.
fn add_fault(place: Place, outcome: Outcome, faults: &mut Vec<Fault>) -> Result<(), AllocError>
    ensures { OnOk result (faults.new.items
        ≡ faults.old.items ++ faults_of_outcome place outcome) }
{
    let kind = match outcome {
        Outcome::Padding(_) => return Ok(()),
        Outcome::AtCost => FaultKind::PadAtCost,
        Outcome::TooWide => FaultKind::TooWide,
    };
    faults.push(Fault { kind, place })?;
    Ok(())
}

/// Adds the faults of the notes of a pad at a place.
fn add_faults_of_notes(
    place: Place,
    notes: &[Note<'_>],
    faults: &mut Vec<Fault>,
) -> Result<(), AllocError>
    ensures { OnOk result (faults.new.items
        ≡ faults.old.items ++ flat_map (faults_of_note place) notes.now) }
{
    for note in notes {
        add_fault(place, note.outcome, faults)?;
    }
    Ok(())
}

/// Adds the faults of a pad.
fn add_faults_of(pad: &NotedPad<'_>, faults: &mut Vec<Fault>) -> Result<(), AllocError>
    ensures { OnOk result (faults.new.items ≡ faults.old.items ++ faults_of_pad pad.now) }
{
    let notes = pad.notes.as_slice();
    if notes.is_empty() {
        faults.push(Fault {
            kind: FaultKind::UnusedPad,
            place: pad.place,
        })?;
        return Ok(());
    }
    add_faults_of_notes(pad.place, notes, faults)
}

/// Adds the faults of pads, in their order.
pub(crate) fn add_faults(pads: &[NotedPad<'_>], faults: &mut Vec<Fault>) -> Result<(), AllocError>
    ensures { OnOk result (faults.new.items
        ≡ faults.old.items ++ flat_map faults_of_pad pads.now) }
{
    for pad in pads {
        add_faults_of(pad, faults)?;
    }
    Ok(())
}
