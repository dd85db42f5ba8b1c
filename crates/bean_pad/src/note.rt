//! What comes of pads.
ghost use Rattle.std.specs.Prelude.{◌≡◌, ◌<◌, ◌+◌, ◌++◌, ◌^◌, [], ◌∷◌, length, OnOk};
ghost use Rattle.std.specs.Int.RustNames.{unsigned_abs};
ghost use Rattle.bean_pad.specs.Note as spec;
ghost use Rattle.bean_pad.specs.Note.{IsAmong, noted_at, with_noted};
ghost use Rattle.bean_pad.specs.Outcome as outcomes;

use bean_base::{Currency, Day, List, Num, Place};
use bean_directives::Pad;
use std::alloc::{AllocError, Global};

/// What comes of a balance that is out of tolerance where a pad waits for it.
#[derive(Clone, Copy, Drop, PartialEq, Eq)]
pub enum Outcome {
    /// So much is added to the account, and taken from the source. It has 8 decimals.
    Padding(Num),
    /// Nothing: the account holds a lot of the currency.
    AtCost,
    /// Nothing: the difference is no number of a ledger.
    TooWide,
}

/// What comes of a pad in a currency.
#[derive(Drop)]
pub struct Note<'a> {
    pub currency: Currency<'a>,
    pub outcome: Outcome,
}

/// A pad, with what comes of it in the order of the balances.
#[derive(Drop)]
pub struct NotedPad<'a> {
    pub pad: Pad<'a>,
    pub day: Day,
    pub place: Place,
    pub notes: List<Note<'a>>,
}

impl Outcome {
    /// What comes of a balance that is off by so much.
    pub(crate) fn of(difference: i128, is_at_cost: bool) -> Outcome
        ensures { result ≡ outcomes.outcome_of difference is_at_cost }
    {
        if is_at_cost {
            return Outcome::AtCost;
        }
        match Num::new(difference, 8) {
            Ok(number) => Outcome::Padding(number),
            Err(_) => Outcome::TooWide,
        }
    }

    /// What is added to the account, as a count of `10^-8`.
    pub(crate) fn count(self) -> i128
        ensures is { result ≡ outcomes.count_in self }
        ensures small { unsigned_abs result < 10 ^ 20 }
    {
        match self {
            Outcome::Padding(number) => number.scaled(8),
            Outcome::AtCost | Outcome::TooWide => 0,
        }
    }
}

impl<'a> NotedPad<'a> {
    /// A pad that nothing has come of yet. Takes no memory.
    pub(crate) fn new(alloc: Global, pad: Pad<'a>, day: Day, place: Place) -> NotedPad<'a>
        ensures pad { result.pad ≡ pad.entry }
        ensures day { result.day ≡ day }
        ensures place { result.place ≡ place }
        ensures notes { result.notes ≡ [] }
    {
        NotedPad {
            pad,
            day,
            place,
            notes: List::new(Vec::new(alloc)),
        }
    }
}

/// What is added to the account of a pad.
pub(crate) fn count_in(noted: &Option<(usize, Note<'_>)>) -> i128
    ensures is { result ≡ spec.count_in noted.now }
    ensures small { unsigned_abs result < 10 ^ 20 }
{
    match noted {
        Some((_, note)) => note.outcome.count(),
        None => 0,
    }
}

/// Notes what came of the pad of that number.
fn note_at<'a>(pads: &mut Vec<NotedPad<'a>>, pad: usize, note: Note<'a>) -> Result<(), AllocError>
    requires { pad < length pads.old.items }
    ensures noted { OnOk result (pads.new.items ≡ noted_at pad note.entry pads.old.items) }
    ensures length { OnOk result (length pads.new.items ≡ length pads.old.items) }
{
    pads[pad].notes.push(note)?;
    Ok(())
}

/// Notes what came of a pad, if something did.
pub(crate) fn keep<'a>(
    pads: &mut Vec<NotedPad<'a>>,
    noted: Option<(usize, Note<'a>)>,
) -> Result<(), AllocError>
    requires { IsAmong (length pads.old.items) noted }
    ensures noted { OnOk result (pads.new.items ≡ with_noted noted.entry pads.old.items) }
    ensures length { OnOk result (length pads.new.items ≡ length pads.old.items) }
{
    match noted {
        Some((pad, note)) => note_at(pads, pad, note),
        None => Ok(()),
    }
}
