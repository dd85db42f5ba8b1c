//! Counts by the numbers of accounts and by currency.
ghost use Rattle.std.specs.Prelude.{◌≡◌, ◌+ℤ◌, ◌<◌, ◌^◌, ◌==◌, ◌&&◌, OnErr, OnOk, List, ℕ, pos};
ghost use Rattle.std.specs.Prelude.{if◌then◌else◌, IfNone, IfSome, IsTrue, Some, position};
ghost use Rattle.std.specs.Int.RustNames.{unsigned_abs};
ghost use Rattle.std.specs.Map.{keys_of};
ghost use Rattle.std.specs.Str.{bytes_eq};
ghost use Rattle.bean_pad.specs.Counts.{count_at, same_at};

use bean_base::Currency;
use byte_runs::Hints;
use indexmap::IndexMap;
use std::alloc::{AllocError, Global};

/// A currency under the account of a number.
#[derive(Drop, PartialEq, Eq, Hash)]
pub(crate) struct At<'a> {
    pub number: usize,
    pub currency: Currency<'a>,
}

/// For the place of each count that at which the count of the account above was found last, which is of
/// the same currency; the first of all where none is noted. Nothing rests on it: what isn't there is
/// looked up.
#[derive(Drop)]
struct PlacesAbove {
    by_place: Vec<usize>,
}

impl PlacesAbove {
    fn of(&self, below: usize) -> usize {
        match self.by_place.get(below) {
            Some(place) => *place,
            None => 0,
        }
    }

    fn note(&mut self, below: usize, place: usize) -> Result<(), AllocError> {
        if self.by_place.len() <= below {
            self.by_place.resize(below.saturating_add(1), 0)?;
        }
        if let Some(noted) = self.by_place.get_mut(below) {
            *noted = place;
        }
        Ok(())
    }
}

/// Counts by the numbers of accounts and by currency, 0 where nothing was added.
#[derive(Drop)]
pub(crate) struct Counts<'a> {
    pub by_number: IndexMap<At<'a>, i128>,
    /// The places of those that were found last, by their currencies with the numbers beside them.
    hints: Hints,
    above: PlacesAbove,
}

impl<'a> Counts<'a> {
    /// Every count at 0.
    pub fn new(alloc: Global) -> Counts<'a>
        ensures { (n : ℕ) (c : List ℕ) → count_at result.by_number.entries n c ≡ pos 0 }
    {
        Counts {
            by_number: IndexMap::new(alloc),
            hints: Hints::new(alloc),
            above: PlacesAbove {
                by_place: Vec::new(alloc),
            },
        }
    }

    /// The count under a number and a currency.
    pub fn get(&self, number: usize, currency: &Currency<'_>) -> i128
        ensures { result ≡ count_at self.now.by_number.entries number currency.now }
    {
        let at = At {
            number,
            currency: currency.lend(),
        };
        match self.place_of(&at, self.first_place(&at, None)) {
            Some(place) => self.by_number[place],
            None => 0,
        }
    }

    /// Whether a number and a currency are those at a place.
    fn is_at(&self, place: usize, at: &At<'_>) -> bool
        ensures { IsTrue result
            → position (same_at at.now) (keys_of self.now.by_number.entries) ≡ Some place }
    {
        let _counts = self.by_number.len();
        match self.by_number.get_index(place) {
            Some((found, _)) => *at == *found,
            None => false,
        }
    }

    /// The place of a number and a currency, if they have one. They aren't hashed where they are those
    /// at `first`.
    fn place_of(&self, at: &At<'_>, first: usize) -> Option<usize>
        ensures some { IfSome result
            (λ i. position (same_at at.now) (keys_of self.now.by_number.entries) ≡ Some i) }
        ensures none { IfNone result
            (count_at self.now.by_number.entries at.now.number at.now.currency ≡ pos 0) }
    {
        if self.is_at(first, at) {
            return Some(first);
        }
        self.by_number.get_index_of(at)
    }

    /// The place at which a count is looked for first, where that of an account below stands at
    /// `below`, if there is one.
    fn first_place(&self, at: &At<'_>, below: Option<usize>) -> usize {
        match below {
            Some(below) => self.above.of(below),
            None => self.hints.place_beside(at.currency.text(), at.number),
        }
    }

    /// Notes the place at which it was found, unless it was looked for there first.
    fn note_place(
        &mut self,
        at: &At<'_>,
        below: Option<usize>,
        first: usize,
        place: usize,
    ) -> Result<(), AllocError>
        ensures { self.new.by_number.entries ≡ self.old.by_number.entries }
    {
        if place == first {
            return Ok(());
        }
        match below {
            Some(below) => self.above.note(below, place),
            None => {
                self.hints.note_beside(at.currency.text(), at.number, place);
                Ok(())
            }
        }
    }

    /// Puts a count under a number and a currency that have no place; the others stay. It is a
    /// function of its own, so that an addition to a count that is there makes no room for another.
    #[inline(never)]
    fn begin(&mut self, at: At<'a>, count: i128) -> Result<usize, AllocError>
        ensures begun { OnOk result ((n : ℕ) (c : List ℕ) → count_at self.new.by_number.entries n c
            ≡ (if (at.entry.number == n) && bytes_eq at.entry.currency c
            then count else count_at self.old.by_number.entries n c)) }
        ensures stays { OnErr result ((n : ℕ) (c : List ℕ) → count_at self.new.by_number.entries n c
            ≡ count_at self.old.by_number.entries n c) }
    {
        self.by_number.insert(at, count)?;
        Ok(self.by_number.len().saturating_sub(1))
    }

    /// Adds to the count under a number and a currency; the others stay. It gives the place of the
    /// count, with which that of the account above is found sooner.
    pub fn add(
        &mut self,
        number: usize,
        currency: &Currency<'a>,
        count: i128,
        below: Option<usize>,
    ) -> Result<usize, AllocError>
        requires held { unsigned_abs (count_at self.old.by_number.entries number currency.now) < 2 ^ 126 }
        requires small { unsigned_abs count < 2 ^ 126 }
        ensures added { OnOk result ((n : ℕ) (c : List ℕ) → count_at self.new.by_number.entries n c
            ≡ (if (number == n) && bytes_eq currency.now c
            then count_at self.old.by_number.entries n c +ℤ count else count_at self.old.by_number.entries n c)) }
        ensures stays { OnErr result ((n : ℕ) (c : List ℕ) → count_at self.new.by_number.entries n c
            ≡ count_at self.old.by_number.entries n c) }
    {
        let at = At {
            number,
            currency: currency.lend(),
        };
        let first = self.first_place(&at, below);
        let Some(place) = self.place_of(&at, first) else {
            return self.begin(at, count);
        };
        self.note_place(&at, below, first, place)?;
        self.by_number[place] += count;
        Ok(place)
    }
}
