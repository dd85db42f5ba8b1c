//! The entries of a bag in the order of their keys.
ghost use Rattle.std.specs.Prelude.{◌≡◌, ◌<◌, IfOk, OnOk, Some, get_or, length, map, pos, slice_get};
ghost use Rattle.bean_lots.specs.Lot.{key_order};
ghost use Rattle.query_holdings.specs.Entries.{in_order};
ghost use Rattle.query_holdings.specs.Placed.{entry_in};

use crate::bag_key::BagKey;
use crate::holdings::Holdings;
use crate::keys::Placed;
use std::alloc::{AllocError, Global};
use std::cmp::Ordering;
use std::marker::Model;

/// An entry of a bag, lent from there: it is small, so that entries are put in order in few moves.
/// Contracts see the entry itself.
#[derive(Drop)]
pub struct Entry<'s, 'r> {
    key: &'s BagKey<'r>,
    count: i128,
}

impl<'s, 'r> Model for Entry<'s, 'r> {
    ghost use Rattle.bean_lots.specs.Inventory.{position_of};
    ghost use Rattle.bean_lots.specs.declared.lot.Position.{Position};

    ghost Value = { Position };

    ghost view = { λ e. position_of e.key.now e.count };
}

impl<'s, 'r> Entry<'s, 'r> {
    /// What its units are held as.
    pub fn key(&self) -> &'s BagKey<'r>
        ensures { result.now ≡ self.now.key }
    {
        self.key
    }

    /// How many units there are.
    pub fn count(&self) -> i128
        ensures { result ≡ self.now.count }
    {
        self.count
    }

    /// The same entry once more.
    fn lend(&self) -> Entry<'s, 'r>
        ensures { result ≡ self.now }
    {
        Entry {
            key: self.key,
            count: self.count,
        }
    }
}

/// The count at a place, 0 behind the last.
#[inline(always)]
fn count_at(counts: &[i64], place: usize) -> i64
    ensures { result ≡ get_or counts.now place (pos 0) }
{
    match counts.get(place) {
        Some(count) => *count,
        None => 0,
    }
}

/// The entry at a place of a list of them.
#[inline(always)]
fn listed_at<'s, 'r>(entries: &[Entry<'s, 'r>], place: usize) -> Entry<'s, 'r>
    requires { place < length entries.now }
    ensures { slice_get entries.now place ≡ Some result }
{
    entries[place].lend()
}

/// The entry of the key at a place, whose count stands at the key's own place.
#[inline(always)]
fn placed_at<'s, 'r>(placed: &'s [Placed<'r>], counts: &[i64], place: usize) -> Entry<'s, 'r>
    requires { place < length placed.now }
    ensures { slice_get (map (entry_in counts.now) placed.now) place ≡ Some result }
{
    let one = &placed[place];
    Entry {
        key: &one.key,
        count: count_at(counts, one.place) as i128,
    }
}

/// The entries of a bag, in order of entry.
fn entries_of<'s, 'r>(
    alloc: Global,
    held: &Holdings<'s, 'r>,
) -> Result<Vec<Entry<'s, 'r>>, AllocError>
    ensures { IfOk result (λ v. v.items ≡ held.now) }
{
    // Most have few.
    let mut entries = Vec::with_capacity(alloc, 8)?;
    let mut rest = held.lend();
    while let Some((key, count)) = rest.next_held() {
        entries.push(Entry { key, count })?;
    }
    Ok(entries)
}

/// Puts entries in the order of their keys.
fn arrange(entries: &mut Vec<Entry<'_, '_>>) -> Result<(), AllocError>
    ensures { OnOk result (entries.new.items ≡ in_order entries.old.items) }
{
    entries.sort_by(
        |a: &Entry<'_, '_>, b: &Entry<'_, '_>| -> Ordering
            ensures { result ≡ key_order a.now.key b.now.key }
        { a.key.compare(b.key) },
    )
}

/// Keys in order, whose counts stand at their own places.
#[derive(Drop)]
pub(crate) struct PlacedRun<'s, 'r> {
    placed: &'s [Placed<'r>],
    counts: &'s [i64],
}

impl<'s, 'r> Model for PlacedRun<'s, 'r> {
    ghost use Rattle.std.specs.Prelude.{List, map};
    ghost use Rattle.bean_lots.specs.declared.lot.Position.{Position};
    ghost use Rattle.query_holdings.specs.Placed.{entry_in};

    ghost Value = { List Position };

    ghost view = { λ r. map (entry_in r.counts.now) r.placed.now };
}

impl<'s, 'r> PlacedRun<'s, 'r> {
    /// How many there are.
    fn len(&self) -> usize
        ensures { result ≡ length self.now }
    {
        self.placed.len()
    }

    /// The entry at a place.
    #[inline(always)]
    fn at(&self, place: usize) -> Entry<'s, 'r>
        requires { place < length self.now }
        ensures { slice_get self.now place ≡ Some result }
    {
        placed_at(self.placed, self.counts, place)
    }
}

/// Entries as they lie in order: one behind the other, or as keys whose counts stand at their places.
#[derive(Drop)]
pub(crate) enum Listed<'s, 'r> {
    Entries(Vec<Entry<'s, 'r>>),
    Placed(PlacedRun<'s, 'r>),
}

/// The entries of a bag in the order of their keys.
#[derive(Drop)]
pub struct InOrder<'s, 'r> {
    listed: Listed<'s, 'r>,
}

impl<'s, 'r> Model for InOrder<'s, 'r> {
    ghost use Rattle.std.specs.Prelude.{List};
    ghost use Rattle.bean_lots.specs.declared.lot.Position.{Position};
    ghost use Rattle.query_holdings.specs.Listed.{entries_in};

    ghost Value = { List Position };

    ghost view = { λ o. entries_in o.listed };
}

impl<'s, 'r> InOrder<'s, 'r> {
    /// The entries of a bag that can grow.
    pub(crate) fn of(alloc: Global, held: &Holdings<'s, 'r>) -> Result<InOrder<'s, 'r>, AllocError>
        ensures { IfOk result (λ o. o ≡ in_order held.now) }
    {
        let mut entries = entries_of(alloc, held)?;
        arrange(&mut entries)?;
        Ok(InOrder {
            listed: Listed::Entries(entries),
        })
    }

    /// The entries of keys that are in order, with their counts.
    pub(crate) fn placed(placed: &'s [Placed<'r>], counts: &'s [i64]) -> InOrder<'s, 'r>
        ensures { result ≡ map (entry_in counts.now) placed.now }
    {
        InOrder {
            listed: Listed::Placed(PlacedRun { placed, counts }),
        }
    }

    /// How many entries there are.
    pub fn len(&self) -> usize
        ensures { result ≡ length self.now }
    {
        match &self.listed {
            Listed::Entries(entries) => entries.len(),
            Listed::Placed(run) => run.len(),
        }
    }

    /// The entry at a place.
    #[inline(always)]
    pub fn entry(&self, place: usize) -> Entry<'s, 'r>
        requires { place < length self.now }
        ensures { slice_get self.now place ≡ Some result }
    {
        match &self.listed {
            Listed::Entries(entries) => listed_at(entries, place),
            Listed::Placed(run) => run.at(place),
        }
    }
}
