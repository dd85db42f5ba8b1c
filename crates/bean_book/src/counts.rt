//! How many rows what is booked has, where none is wanted.
ghost use Rattle.std.specs.Prelude.{◌≡◌, ◌<◌, ◌≤◌, ◌+◌, Err, IfOk, List, ℕ, length};
ghost use Rattle.std.specs.List.{flat_map};
ghost use Rattle.limits.specs.declared.counts.TheConstants.{MOST_POSTINGS};
ghost use Rattle.bean_pad.specs.declared.note.NotedPad as pads;
ghost use Rattle.posting_entries.specs.declared.entry.EntryParts as entries;
ghost use Rattle.bean_book.specs.Rows as spec;
ghost use Rattle.bean_book.specs.declared.details.Details.TheVariants.{All};

use bean_pad::{NotedPad, Outcome};
use bean_replay::{BookCause, Bookings, Kept};
use limits::MOST_POSTINGS;
use refusals::Refusal;
use std::alloc::AllocError;

/// How many rows the transactions have that were booked so far.
#[derive(Drop)]
pub(crate) struct RowCount {
    pub count: usize,
}

impl<'a> Bookings<'a> for RowCount {
    ghost use Rattle.std.specs.Prelude.{◌≡◌, length};
    ghost use Rattle.bean_replay.specs.Stand.{postings_of};

    ghost has_taken = { λ c ds. c.count ≡ length (postings_of ds) };

    fn keep(&mut self, kept: &Kept<'a>) -> Result<(), AllocError> {
        self.count += kept.postings.as_slice().len();
        Ok(())
    }

    fn pad(&mut self) -> Result<(), AllocError> {
        Ok(())
    }
}

/// The count with so many rows more, unless there are too many.
fn more(count: usize, rows: usize) -> Result<usize, Refusal<BookCause>>
    requires { count ≤ MOST_POSTINGS }
    ensures sum { IfOk result (λ n. n ≡ count + rows) }
    ensures few { IfOk result (λ n. n ≤ MOST_POSTINGS) }
    ensures full { result ≡ Err (Refusal.Refused BookCause.TooManyPostings) → MOST_POSTINGS < count + rows }
{
    if rows > MOST_POSTINGS - count {
        return Err(Refusal::Refused(BookCause::TooManyPostings));
    }
    Ok(count + rows)
}

/// How many rows come of a pad in a currency.
fn rows_in(outcome: Outcome) -> usize
    ensures { (e : entries.EntryParts) (noted : pads.NotedPad) (currency : List ℕ)
        → result ≡ length (spec.rows_by e noted currency outcome) }
{
    match outcome {
        Outcome::Padding(_) => 2,
        Outcome::AtCost | Outcome::TooWide => 0,
    }
}

/// The count with the rows of a pad.
fn count_pad(count: usize, noted: &NotedPad<'_>) -> Result<usize, Refusal<BookCause>>
    requires { count ≤ MOST_POSTINGS }
    ensures sum { IfOk result (λ n. n ≡ count + length (spec.rows_of_pad All noted.now)) }
    ensures few { IfOk result (λ n. n ≤ MOST_POSTINGS) }
    ensures full { result ≡ Err (Refusal.Refused BookCause.TooManyPostings)
        → MOST_POSTINGS < count + length (spec.rows_of_pad All noted.now) }
{
    let mut sum = count;
    for note in noted.notes.as_slice() {
        match more(sum, rows_in(note.outcome)) {
            Ok(more) => sum = more,
            Err(fault) => return Err(fault),
        }
    }
    Ok(sum)
}

/// The count with the rows of all pads, unless they are too many.
pub(crate) fn count_pads(count: usize, pads: &[NotedPad<'_>]) -> Result<usize, Refusal<BookCause>>
    requires { count ≤ MOST_POSTINGS }
    ensures sum { IfOk result (λ n. n ≡ count + length (flat_map (spec.rows_of_pad All) pads.now)) }
    ensures few { IfOk result (λ n. n ≤ MOST_POSTINGS) }
    ensures full { result ≡ Err (Refusal.Refused BookCause.TooManyPostings)
        → MOST_POSTINGS < count + length (flat_map (spec.rows_of_pad All) pads.now) }
{
    let mut sum = count;
    for noted in pads {
        match count_pad(sum, noted) {
            Ok(more) => sum = more,
            Err(fault) => return Err(fault),
        }
    }
    Ok(sum)
}
