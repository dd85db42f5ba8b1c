//! What a bag holds.
//!
//! Nothing moves where a count comes to 0: a hole is left, until half of all are holes and these are
//! swept out.
ghost use Rattle.std.specs.Prelude.{◌≡◌, ◌+ℤ◌, [], All, IfOk, IfSome, None, OnErr, OnOk, Some, map, pos};
ghost use Rattle.std.specs.Prelude.{position};
ghost use Rattle.std.specs.Int.{w128};
ghost use Rattle.std.specs.Int.RustNames.{FitsSigned};
ghost use Rattle.std.specs.Map.{keys_of, lookup};
ghost use Rattle.bean_lots.specs.Inventory.{IsInventory, MayBeNegated, added, count_of};
ghost use Rattle.bean_lots.specs.Inventory.{negative_entry, position_of};
ghost use Rattle.bean_lots.specs.Lot.{same_key};
ghost use Rattle.bean_lots.specs.Slots.{positions};
ghost use Rattle.bean_lots.specs.declared.lot.Key.{Key as KeyValue};

use crate::bag_key::BagKey;
use crate::holdings::Holdings;
use crate::kept::{Kept, ROOM};
use crate::keys::Keys;
use key_counts::KeyCounts;
use std::alloc::{AllocError, Global};
use std::marker::Model;

/// Fewer holes are never swept out.
const FEW_HOLES: usize = 16;

/// What a bag holds: counts under keys. It is seen as an inventory is, as the list of its positions
/// in order of entry, but knows nothing of lots that booking asks for, so that it is small.
pub struct Holding<'r> {
    /// A count for each key that is held, and 0 for some that were.
    counts: KeyCounts<BagKey<'r>>,
    /// About how many of these are 0: how soon they are swept out.
    holes: usize,
    /// The keys, where copies share them: those of the counts then, none of which is 0.
    keys: Option<Keys<'r>>,
}

/// Written out, so that crates which give one up need to know nothing of what is in it.
impl Drop for Holding<'_> {
    fn drop(self) {
        let Holding {
            counts: _,
            holes: _,
            keys: _,
        } = self;
    }
}

impl<'r> Model for Holding<'r> {
    ghost use Rattle.std.specs.Prelude.{List};
    ghost use Rattle.bean_lots.specs.Slots.{positions};
    ghost use Rattle.bean_lots.specs.declared.lot.Position.{Position};
    ghost use Rattle.query_holdings.specs.Kept.{AreKeys};

    ghost Value = { List Position };

    ghost view = { λ h. positions h.counts };

    ghost invariant = { λ h. AreKeys h.keys h.counts };
}

impl Clone for Holding<'_> {
    ghost is_clone = { λ a b. b ≡ a };

    fn clone(&self) -> Result<Self, AllocError> {
        Ok(Holding {
            counts: self.counts.clone()?,
            holes: self.holes,
            keys: None,
        })
    }
}

/// Sweeps the holes out where these are many.
fn sweep(counts: &mut KeyCounts<BagKey<'_>>, holes: &mut usize)
    ensures same { positions counts.new ≡ positions counts.old }
    ensures absent { (k : KeyValue) → lookup (same_key k) counts.old ≡ None
        → lookup (same_key k) counts.new ≡ None }
{
    if *holes >= FEW_HOLES && *holes > counts.len() / 2 {
        counts.keep_full();
        *holes = 0;
    }
}

/// Takes out all holes.
fn sweep_all(counts: &mut KeyCounts<BagKey<'_>>)
    ensures { positions counts.new ≡ positions counts.old }
{
    counts.keep_full();
}

/// Puts a key that isn't there behind all others.
fn push<'r>(
    counts: &mut KeyCounts<BagKey<'r>>,
    key: BagKey<'r>,
    count: i128,
) -> Result<(), AllocError>
    requires { lookup (same_key key) counts.old ≡ None }
    ensures ok { OnOk result (positions counts.new ≡ added (positions counts.old) key.entry count) }
    ensures err { OnErr result (positions counts.new ≡ positions counts.old) }
{
    counts.push(key, count)
}

/// Takes out a hole.
fn remove(counts: &mut KeyCounts<BagKey<'_>>, key: &BagKey<'_>, place: usize)
    requires at { position (same_key key.now) (keys_of counts.old) ≡ Some place }
    requires hole { lookup (same_key key.now) counts.old ≡ Some (pos 0) }
    ensures same { positions counts.new ≡ positions counts.old }
    ensures absent { lookup (same_key key.now) counts.new ≡ None }
{
    counts.remove(place);
}

fn negate(counts: &mut KeyCounts<BagKey<'_>>)
    requires { All MayBeNegated (positions counts.old) }
    ensures { positions counts.new ≡ map negative_entry (positions counts.old) }
{
    for place in 0..counts.len() {
        let count = counts.count_at(place);
        counts.set(place, -count);
    }
}

impl<'r> Holding<'r> {
    /// Nothing. Takes no memory.
    pub fn new(alloc: Global) -> Holding<'r>
        ensures { result ≡ [] }
    {
        Holding {
            counts: KeyCounts::new(alloc),
            holes: 0,
            keys: None,
        }
    }

    /// Where memory is taken.
    pub fn alloc(&self) -> Global {
        self.counts.alloc()
    }

    /// A copy that is only gone through: where it has many keys, none is found quickly.
    pub fn listed(&self) -> Result<Holding<'r>, AllocError>
        ensures { IfOk result (λ copy. copy ≡ self.now) }
    {
        Ok(Holding {
            counts: self.counts.listed()?,
            holes: self.holes,
            keys: None,
        })
    }

    /// The count under a key, 0 where nothing is held.
    pub fn get(&self, key: &BagKey<'_>) -> i128
        ensures { result ≡ count_of self.now key.now }
    {
        match self.counts.place_of(key) {
            Some(place) => self.counts.count_at(place),
            None => 0,
        }
    }

    /// The positions, in order of entry.
    pub fn positions(&self) -> Holdings<'_, 'r>
        ensures positions { result ≡ self.now }
        ensures inventory { IsInventory self.now }
    {
        // That the counts know how many keys they have tells that each stands once.
        let _count = self.counts.len();
        Holdings::in_slots(self.counts.as_run())
    }

    /// Adds to the count under a key. The caller knows that the sum fits.
    pub fn add(&mut self, key: BagKey<'r>, count: i128) -> Result<(), AllocError>
        requires { FitsSigned w128 (count_of self.old key +ℤ count) }
        ensures ok { OnOk result (self.new ≡ added self.old key.entry count) }
        ensures err { OnErr result (self.new ≡ self.old) }
    {
        let Some(place) = self.counts.place_of(&key) else {
            self.keys = None;
            sweep(&mut self.counts, &mut self.holes);
            return push(&mut self.counts, key, count);
        };
        let before = self.counts.count_at(place);
        if before == 0 {
            self.keys = None;
            self.holes = self.holes.saturating_sub(1);
            remove(&mut self.counts, &key, place);
            return push(&mut self.counts, key, count);
        }
        let after = before + count;
        self.counts.set(place, after);
        if after == 0 {
            self.keys = None;
            self.holes = self.holes.saturating_add(1);
        }
        Ok(())
    }

    /// Lets the copies that follow share their keys, where these are few.
    pub fn share_keys(&mut self) -> Result<(), AllocError>
        ensures { self.new ≡ self.old }
    {
        if self.keys.is_some() || self.counts.len().saturating_sub(self.holes) > ROOM {
            return Ok(());
        }
        if self.holes > 0 {
            sweep_all(&mut self.counts);
            self.holes = 0;
        }
        self.keys = Some(Keys::of(self.counts.alloc(), &self.counts.as_run())?);
        Ok(())
    }

    /// A copy in few bytes, where keys are shared, and counts are narrow and none is 0.
    pub fn kept(&self) -> Result<Option<Kept<'r>>, AllocError>
        ensures { IfOk result (λ o. IfSome o (λ k. k ≡ self.now)) }
    {
        // That the counts know how many keys they have tells that each stands once.
        let _count = self.counts.len();
        match &self.keys {
            Some(keys) => Kept::of(self.counts.alloc(), keys, &self.counts.as_run()),
            None => Ok(None),
        }
    }

    /// Changes the sign of every count. None is the least of 128 bits.
    pub fn negate(&mut self)
        requires { All MayBeNegated self.old }
        ensures { self.new ≡ map negative_entry self.old }
    {
        self.keys = None;
        negate(&mut self.counts);
    }
}
