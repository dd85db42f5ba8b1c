//! The ledger of what is booked, made while it is booked.
ghost use Rattle.std.specs.Prelude.{◌≡◌, ◌≤◌, ◌+◌, ◌++◌, ◌∷◌, [], IfOk, List, OnOk};
ghost use Rattle.std.specs.Prelude.{drop, length, take};
ghost use Rattle.std.specs.List.{AllByRecursion};
ghost use Rattle.limits.specs.declared.counts.TheConstants.{MOST_POSTINGS};
ghost use Rattle.bean_book.specs.Booked.{Adds, MakesLedger};
ghost use Rattle.bean_book.specs.Rows.{rows_of_pad};
ghost use Rattle.bean_book.specs.Taken.{IsLedgerSoFar, with_rows};
ghost use Rattle.bean_book.specs.Tame.{IsTameKept};
ghost use Rattle.bean_replay.specs.Booked as booked;
ghost use Rattle.bean_replay.specs.Draft as draft;
ghost use Rattle.bean_replay.specs.Small.{IsSmallKept, IsSmallNoted};
ghost use Rattle.bean_replay.specs.Stand.{postings_of};
ghost use Rattle.bean_replay.specs.declared.booking.Booking.TheVariants as booking;
ghost use Rattle.bean_book.specs.declared.details.Details as levels;

use crate::counts::count_pads;
use crate::decimals::note_written;
use crate::details::Details;
use crate::level::Level;
use crate::paddings::push_pad;
use crate::rows::push_transaction;
use bean_pad::NotedPad;
use bean_replay::{BookCause, Bookings, Kept};
use limits::MOST_POSTINGS;
use posting_entries::NoExtras;
use posting_table::{Ledger, TakenRows};
use refusals::Refusal;
use std::alloc::{AllocError, Global};

/// The rows of the transactions that were booked so far, and where pads stand between them. What
/// these insert is known only once all directives are taken.
#[derive(Drop)]
pub(crate) struct LedgerRows<'a> {
    alloc: Global,
    none: NoExtras<'a>,
    ledger: Ledger<'a>,
    /// How many rows stand before each pad.
    places: Vec<usize>,
    /// Where the decimals of the last currency were found.
    near: usize,
}

impl<'a> LedgerRows<'a> {
    /// Nothing so far.
    pub(crate) fn new(alloc: Global) -> Result<LedgerRows<'a>, AllocError>
        ensures { IfOk result (λ rows. (details : levels.Details) → IsLedgerSoFar details [] rows) }
    {
        Ok(LedgerRows {
            alloc,
            none: NoExtras::new(alloc)?,
            ledger: Ledger::new(alloc),
            places: Vec::new(alloc),
            near: 0,
        })
    }

    /// Takes a transaction that is kept.
    fn keep(&mut self, details: Details, kept: &Kept<'a>) -> Result<(), AllocError>
        requires small { IsSmallKept kept.now }
        requires room { (ds : List draft.Draft) × IsLedgerSoFar details ds self.old
            × (length (postings_of ds) + length kept.now.postings ≤ MOST_POSTINGS) }
        ensures { (ds : List draft.Draft) → IsLedgerSoFar details ds self.old
            → OnOk result (IsLedgerSoFar details (ds ++ draft.Transaction kept.now ∷ []) self.new) }
    {
        push_kept(
            self.alloc,
            &self.none,
            details,
            &mut self.ledger,
            &mut self.near,
            kept,
        )
    }

    /// Takes the place of a pad.
    fn pad(&mut self) -> Result<(), AllocError>
        ensures { (details : levels.Details) (ds : List draft.Draft)
            → IsLedgerSoFar details ds self.old
            → OnOk result (IsLedgerSoFar details (ds ++ draft.Pad ∷ []) self.new) }
    {
        let place = self.ledger.len();
        self.places.push(place)?;
        Ok(())
    }
}

/// Adds a transaction that is kept.
fn push_kept<'a>(
    alloc: Global,
    none: &NoExtras<'a>,
    details: Details,
    ledger: &mut Ledger<'a>,
    near: &mut usize,
    kept: &Kept<'a>,
) -> Result<(), AllocError>
    requires tame { IsTameKept kept.now }
    requires room { length ledger.old.rows + length kept.now.postings ≤ MOST_POSTINGS }
    ensures { OnOk result (Adds details (booking.Transaction kept.now) ledger.old ledger.new) }
{
    push_transaction(alloc, none, details, ledger, kept)?;
    note_written(ledger, near, kept.written.transaction().postings.as_slice())?;
    Ok(())
}

/// Rows that are taken with so much told as the type of the level tells.
#[derive(Drop)]
pub(crate) struct ToldRows<'a, L> {
    pub rows: LedgerRows<'a>,
    pub level: L,
}

impl<'a, L: Level> Bookings<'a> for ToldRows<'a, L> {
    ghost use Rattle.bean_book.specs.Taken.{IsLedgerSoFar};

    ghost has_taken = { λ l ds. IsLedgerSoFar L.level ds l.rows };

    fn keep(&mut self, kept: &Kept<'a>) -> Result<(), AllocError> {
        self.rows.keep(self.level.details(), kept)
    }

    fn pad(&mut self) -> Result<(), AllocError> {
        self.rows.pad()
    }
}

/// Puts so many rows back, and behind them those that a pad inserts.
fn put_pad<'a>(
    alloc: Global,
    none: &NoExtras<'a>,
    details: Details,
    ledger: &mut Ledger<'a>,
    rest: &mut TakenRows<'a>,
    count: usize,
    noted: &NotedPad<'a>,
) -> Result<(), AllocError>
    requires small { IsSmallNoted noted.now }
    requires room { length ledger.old.rows + length rest.old + length (rows_of_pad details noted.now)
        ≤ MOST_POSTINGS }
    ensures rows { OnOk result (ledger.new.rows
        ≡ ledger.old.rows ++ (take count rest.old ++ rows_of_pad details noted.now)) }
    ensures decimals { OnOk result (ledger.new.decimals ≡ ledger.old.decimals) }
    ensures rest { OnOk result (rest.new ≡ drop count rest.old) }
{
    ledger.put_back(rest, count)?;
    push_pad(alloc, none, details, ledger, noted)
}

/// Puts the rows in that pads insert, each at its place.
fn put_pads<'a>(
    alloc: Global,
    none: &NoExtras<'a>,
    details: Details,
    ledger: &mut Ledger<'a>,
    places: Vec<usize>,
    pads: Vec<NotedPad<'a>>,
) -> Result<(), AllocError>
    requires small { AllByRecursion IsSmallNoted pads.items }
    requires room { length (with_rows details 0 ledger.old.rows places.items pads.items)
        ≤ MOST_POSTINGS }
    ensures rows { OnOk result (ledger.new.rows
        ≡ with_rows details 0 ledger.old.rows places.items pads.entry.items) }
    ensures decimals { OnOk result (ledger.new.decimals ≡ ledger.old.decimals) }
{
    let mut rest = ledger.take_rows()?;
    let mut passed = 0;
    let mut left = places.into_iter();
    for noted in pads {
        if let Some(place) = left.next() {
            let count = place.saturating_sub(passed);
            put_pad(alloc, none, details, ledger, &mut rest, count, &noted)?;
            passed = place;
        }
    }
    ledger.put_back(&mut rest, MOST_POSTINGS)
}

/// The ledger, now that it is known what comes of the pads.
pub(crate) fn with_pads<'a>(
    details: Details,
    rows: LedgerRows<'a>,
    pads: Vec<NotedPad<'a>>,
) -> Result<Ledger<'a>, Refusal<BookCause>>
    requires small { AllByRecursion IsSmallNoted pads.items }
    requires booked { (ds : List draft.Draft) × IsLedgerSoFar details ds rows
        × (booked.places_in ds ≡ length pads.items) }
    ensures { (ds : List draft.Draft) → IsLedgerSoFar details ds rows.entry
        → booked.places_in ds ≡ length pads.entry.items
        → MakesLedger details (booked.with_pads ds pads.entry.items) result }
{
    let LedgerRows {
        alloc,
        none,
        ledger,
        places,
        ..
    } = rows;
    let kept = ledger.len();
    let all = match count_pads(kept, &pads) {
        Ok(all) => all,
        Err(fault) => return Err(fault),
    };
    if all == kept {
        return Ok(ledger);
    }
    let mut ledger = ledger;
    put_pads(alloc, &none, details, &mut ledger, places, pads)?;
    Ok(ledger)
}
