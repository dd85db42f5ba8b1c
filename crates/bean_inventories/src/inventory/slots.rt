//! The slots of an inventory: a count for each key, 0 once what was held of it is gone.
//!
//! Nothing moves where a count comes to 0: its slot is a hole, until half of all slots are holes
//! and all of these are swept out. So a lot that goes costs no more than one that comes. Where a lot
//! goes, holes behind all that is held go at once, and where there are more than a few slots, so that
//! what is looked at from the end is held, or stands before few holes.
ghost use Rattle.std.specs.Prelude.{◌≡◌, ◌≢◌, ◌+◌, ◌+ℤ◌, ◌++◌, ◌∷◌, ◌<◌, ◌^◌, IfNone, IfSome, List};
ghost use Rattle.std.specs.Prelude.{None, OnErr, OnOk, Some, [], drop, filter, length, pos};
ghost use Rattle.std.specs.Prelude.{position, slice_get, take, true, ℕ, ℤ};
ghost use Rattle.std.specs.Int.{w128};
ghost use Rattle.std.specs.Int.RustNames.{FitsSigned};
ghost use Rattle.std.specs.List.{IsDistinct};
ghost use Rattle.std.specs.Map.{lookup, keys_of, values_of};
ghost use Rattle.bean_inventories.specs.AtCost.{is_lot_at};
ghost use Rattle.bean_lots.specs.Inventory.{IsInventory, added, count_of};
ghost use Rattle.bean_inventories.specs.Known.{signs_of};
ghost use Rattle.bean_lots.specs.Lot.{same_key};
ghost use Rattle.bean_inventories.specs.Recount.{IsCounted, IsRecounted};
ghost use Rattle.bean_lots.specs.Slots.{is_full};
ghost use Rattle.bean_inventories.specs.Kept.{IsKept, held, key_of, key_on};
ghost use Rattle.bean_inventories.specs.Labelled.{is_lot_labelled};
ghost use Rattle.bean_inventories.specs.Table.{IsTold};
ghost use Rattle.bean_lots.specs.Slots as spec;
ghost use Rattle.bean_lots.specs.declared.lot.Key.{Key as KeyValue};

use super::costs::LotDay;
use super::days::Days;
use super::known::KnownLots;
use super::labels::LabelLot;
use super::positions::Positions;
use super::signs::Signs;
use bean_base::{Currency, Day, Text};
use bean_lots::{Cost, Key, Lot};
use key_counts::{KeyCounts, Run};
use std::alloc::{AllocError, Global};

/// Fewer holes are never swept out, and among so few slots a hole may stand last.
const FEW: usize = 16;

/// The key of a lot of a currency that was bought at a cost on a day, without a label.
fn key_on<'k>(currency: &Currency<'k>, cost: &Cost<'k>, day: Day) -> Key<'k>
    ensures { result ≡ key_on currency.now cost.now day }
{
    Key {
        currency: currency.lend(),
        lot: Some(Lot {
            cost: cost.lend(),
            day,
            label: None,
        }),
    }
}

/// The key of a lot of a currency that was bought at a cost on a day and has a label.
fn key_of<'k>(currency: &Currency<'k>, cost: &Cost<'k>, day: Day, label: &Text<'k>) -> Key<'k>
    ensures { result ≡ key_of currency.now cost.now day label.now }
{
    Key {
        currency: currency.lend(),
        lot: Some(Lot {
            cost: cost.lend(),
            day,
            label: Some(label.lend()),
        }),
    }
}

/// What is held in a slot.
fn held_in<'s, 'a>(slots: &Run<'s, Key<'a>>, index: usize) -> Positions<'a, 's>
    requires { index < length slots.now }
    ensures { result ≡ spec.positions (take 1 (drop index slots.now)) }
{
    let (_, behind) = slots.split_at(index);
    let (own, _) = behind.split_at(1);
    Positions::new(own, false)
}

/// A slot for each key that is held, and for some that were.
#[derive(Drop)]
pub(crate) struct Slots<'a> {
    pub counts: KeyCounts<Key<'a>>,
    /// All slots below are holes.
    pub first: usize,
    /// About how many holes there are: how soon they are swept out.
    pub holes: usize,
    pub lots: KnownLots<'a>,
    pub days: Days,
}

impl<'a> Slots<'a> {
    /// Nothing is held. Takes no memory.
    pub(crate) fn new(alloc: Global) -> Slots<'a>
        ensures nothing { held result ≡ [] }
        ensures kept { IsKept result }
    {
        Slots {
            counts: KeyCounts::new(alloc),
            first: 0,
            holes: 0,
            lots: KnownLots::none(),
            days: Days::new(),
        }
    }

    /// Where a key has its slot.
    fn place_of(&self, key: &Key<'_>) -> Option<usize>
        ensures place { result ≡ position (same_key key.now) (keys_of self.now.counts) }
        ensures inside { IfSome result (λ place. place < length self.now.counts) }
        ensures value { IfSome result (λ place. slice_get (values_of self.now.counts) place
            ≡ lookup (same_key key.now) self.now.counts) }
        ensures none { IfNone result (lookup (same_key key.now) self.now.counts ≡ None) }
        ensures unique { IsDistinct same_key (keys_of self.now.counts) }
    {
        self.counts.place_of(key)
    }

    /// The count under a key.
    pub(crate) fn get(&self, key: &Key<'_>) -> i128
        ensures count { result ≡ count_of (held self.now) key.now }
        ensures inventory { IsInventory (held self.now) }
    {
        match self.place_of(key) {
            Some(index) => self.counts.count_at(index),
            None => 0,
        }
    }

    /// Whether there are no slots, not even holes.
    pub(crate) fn is_bare(&self) -> bool
        ensures bare { result ≡ true → held self.now ≡ [] }
        ensures inventory { IsInventory (held self.now) }
    {
        self.counts.len() == 0
    }

    /// The signs of the lots of a currency.
    pub(crate) fn signs_of(&self, currency: &Currency<'_>) -> Signs
        ensures signs { result ≡ signs_of self.now.lots currency.now }
        ensures few { length self.now.counts < 2 ^ 63 }
    {
        // There are no more slots than the map has room for.
        let _slots = self.counts.len();
        self.lots.signs_of(currency)
    }

    /// What is held, in order of entry.
    pub(crate) fn positions(&self) -> Positions<'a, '_>
        requires { IsKept self.now }
        ensures { result ≡ held self.now }
    {
        let (_, held) = self.counts.as_run().split_at(self.first);
        Positions::new(held, self.days.in_order)
    }

    /// Holes at the front are passed.
    fn pass_holes(&mut self)
        requires { IsKept self.old }
        ensures counts { self.new.counts ≡ self.old.counts }
        ensures kept { IsKept self.new }
    {
        while self.first < self.counts.len() && self.counts.count_at(self.first) == 0 {
            self.first += 1;
        }
    }

    /// How many slots there are up to the last that is no hole.
    fn end_of_held(&self) -> usize
        ensures { filter is_full (take result self.now.counts)
            ≡ filter is_full self.now.counts }
    {
        let mut end = self.counts.len();
        while end > 0 && self.counts.count_at(end - 1) == 0 {
            end -= 1;
        }
        end
    }

    /// Takes out the holes behind all that is held.
    fn drop_last_holes(&mut self)
        requires { IsKept self.old }
        ensures kept { IsKept self.new }
        ensures same { held self.new ≡ held self.old }
    {
        let end = self.end_of_held();
        let gone = self.counts.len().saturating_sub(end);
        self.holes = self.holes.saturating_sub(gone);
        self.counts.truncate(end);
        self.first = self.first.min(end);
        if end == 0 {
            self.days = Days::new();
            self.lots.told = None;
        }
    }

    /// Counts a lot, of which the count becomes another, where the key is that of one.
    fn recount(&mut self, key: &Key<'a>, before: i128, after: i128) -> Result<(), AllocError>
        requires kept { IsKept self.old }
        requires counted { IsCounted (signs_of self.old.lots) key.now before }
        ensures counts { self.new.counts ≡ self.old.counts }
        ensures first { self.new.first ≡ self.old.first }
        ensures days { self.new.days ≡ self.old.days }
        ensures told { self.new.lots.told ≡ self.old.lots.told }
        ensures ok { OnOk result
            (IsRecounted (signs_of self.old.lots) key.now before after (signs_of self.new.lots)) }
        ensures err { OnErr result (IsKept self.new) }
    {
        // There are no more lots than slots, and so few of these that the counts have room.
        let _slots = self.counts.len();
        let alloc = self.counts.alloc();
        self.lots.recount(alloc, key, before, after)
    }

    /// Writes the count of a key that is held.
    fn write(
        &mut self,
        key: &Key<'a>,
        index: usize,
        before: i128,
        after: i128,
    ) -> Result<(), AllocError>
        requires kept { IsKept self.old }
        requires at { position (same_key key.now) (keys_of self.old.counts) ≡ Some index }
        requires count { lookup (same_key key.now) self.old.counts ≡ Some before }
        requires some { before ≢ pos 0 }
        ensures kept { IsKept self.new }
        ensures ok { OnOk result ((n : ℤ) → after ≡ before +ℤ n
            → held self.new ≡ added (held self.old) key.now n) }
        ensures err { OnErr result (held self.new ≡ held self.old) }
    {
        self.recount(key, before, after)?;
        self.counts.set(index, after);
        if after == 0 {
            self.holes = self.holes.saturating_add(1);
            self.leave_hole(key.lot.is_some());
        }
        Ok(())
    }

    /// Looks to the holes at both ends, once one more is left. Among few slots the last may stay where
    /// it is of no lot: its key often comes again at once.
    fn leave_hole(&mut self, is_lot: bool)
        requires { IsKept self.old }
        ensures kept { IsKept self.new }
        ensures same { held self.new ≡ held self.old }
    {
        self.pass_holes();
        if is_lot || self.counts.len() > FEW {
            self.drop_last_holes();
        }
    }

    /// Forgets all slots where nothing is held.
    fn begin_anew(&mut self)
        requires { IsKept self.old }
        ensures kept { IsKept self.new }
        ensures same { held self.new ≡ held self.old }
        ensures absent { (k : KeyValue) → lookup (same_key k) self.old.counts ≡ None
            → lookup (same_key k) self.new.counts ≡ None }
    {
        if self.first > 0 && self.first == self.counts.len() {
            self.counts.truncate(0);
            self.first = 0;
            self.holes = 0;
            self.days = Days::new();
            self.lots.told = None;
        }
    }

    /// Takes the holes out.
    fn sweep(&mut self)
        requires { IsKept self.old }
        ensures kept { IsKept self.new }
        ensures same { held self.new ≡ held self.old }
        ensures absent { (k : KeyValue) → lookup (same_key k) self.old.counts ≡ None
            → lookup (same_key k) self.new.counts ≡ None }
    {
        self.counts.keep_full();
        self.first = 0;
        self.holes = 0;
        // Another table tells of no lot that is gone.
        self.lots.told = None;
        if self.counts.is_empty() {
            self.days = Days::new();
        }
    }

    fn sweep_where_due(&mut self)
        requires { IsKept self.old }
        ensures kept { IsKept self.new }
        ensures same { held self.new ≡ held self.old }
        ensures absent { (k : KeyValue) → lookup (same_key k) self.old.counts ≡ None
            → lookup (same_key k) self.new.counts ≡ None }
    {
        if self.holes >= FEW && self.holes > self.counts.len() / 2 {
            self.sweep();
        }
    }

    /// Notes the lot of a key that comes.
    fn note_lot(&mut self, key: &Key<'a>) -> Result<(), AllocError>
        requires { IsKept self.old }
        ensures counts { self.new.counts ≡ self.old.counts }
        ensures first { self.new.first ≡ self.old.first }
        ensures signs { (c : List ℕ) → signs_of self.new.lots c ≡ signs_of self.old.lots c }
        ensures days { self.new.days ≡ self.old.days }
        ensures kept { IsKept self.new }
        ensures own { OnOk result (IsTold (self.new.lots.told) key.now.lot) }
    {
        let alloc = self.counts.alloc();
        self.lots.note(alloc, &self.counts.as_run(), key)
    }

    /// Puts a key that has no slot behind all others, with nothing held.
    fn push_hole(&mut self, key: &Key<'a>) -> Result<(), AllocError>
        requires kept { IsKept self.old }
        requires absent { lookup (same_key key.now) self.old.counts ≡ None }
        ensures kept { IsKept self.new }
        ensures same { held self.new ≡ held self.old }
        ensures ok { OnOk result (self.new.counts ≡ self.old.counts ++ (key.now, pos 0) ∷ []) }
    {
        self.note_lot(key)?;
        let days = self.days.with(key);
        self.counts.push(key.lend(), 0)?;
        self.days = days;
        self.holes = self.holes.saturating_add(1);
        Ok(())
    }

    /// Writes the count of a key whose hole is the last slot.
    fn fill(&mut self, key: &Key<'a>, index: usize, count: i128) -> Result<(), AllocError>
        requires kept { IsKept self.old }
        requires at { position (same_key key.now) (keys_of self.old.counts) ≡ Some index }
        requires hole { lookup (same_key key.now) self.old.counts ≡ Some (pos 0) }
        requires last { index + 1 ≡ length self.old.counts }
        ensures kept { IsKept self.new }
        ensures ok { OnOk result (held self.new ≡ added (held self.old) key.now count) }
        ensures err { OnErr result (held self.new ≡ held self.old) }
    {
        self.recount(key, 0, count)?;
        self.counts.set(index, count);
        self.first = self.first.min(index);
        self.holes = self.holes.saturating_sub(1);
        Ok(())
    }

    /// Puts a key that has no slot behind all others.
    fn push(&mut self, key: &Key<'a>, count: i128) -> Result<(), AllocError>
        requires kept { IsKept self.old }
        requires absent { lookup (same_key key.now) self.old.counts ≡ None }
        ensures kept { IsKept self.new }
        ensures ok { OnOk result (held self.new ≡ added (held self.old) key.now count) }
        ensures err { OnErr result (held self.new ≡ held self.old) }
    {
        self.begin_anew();
        let last = self.counts.len();
        self.push_hole(key)?;
        self.fill(key, last, count)
    }

    /// Takes out the hole of a key.
    fn remove_hole(&mut self, key: &Key<'_>, index: usize)
        requires kept { IsKept self.old }
        requires at { position (same_key key.now) (keys_of self.old.counts) ≡ Some index }
        requires hole { lookup (same_key key.now) self.old.counts ≡ Some (pos 0) }
        ensures kept { IsKept self.new }
        ensures same { held self.new ≡ held self.old }
        ensures absent { lookup (same_key key.now) self.new.counts ≡ None }
    {
        self.counts.remove(index);
        self.first = self.first.saturating_sub(1);
        self.holes = self.holes.saturating_sub(1);
    }

    /// What is held under a key.
    fn positions_of(&self, key: &Key<'_>) -> Positions<'a, '_>
        ensures { result ≡ filter (λ e. same_key key.now e.key) (held self.now) }
    {
        let slots = self.counts.as_run();
        match self.place_of(key) {
            Some(index) => held_in(&slots, index),
            None => Positions::new(Run::new(), false),
        }
    }

    /// What is held in lots of a currency at a cost, in order of entry, where that is known.
    pub(crate) fn positions_at(
        &self,
        currency: &Currency<'_>,
        cost: &Cost<'_>,
    ) -> Option<Positions<'a, '_>>
        requires { IsKept self.now }
        ensures { IfSome result (λ own. own
            ≡ filter (is_lot_at currency.now cost.now) (held self.now)) }
    {
        let Some(table) = &self.lots.told else {
            return None;
        };
        match table.costs.day_at(cost.count) {
            Some(LotDay::On(day)) => Some(self.positions_of(&key_on(currency, cost, day))),
            Some(LotDay::Several) => None,
            None => Some(Positions::new(Run::new(), false)),
        }
    }

    /// What is held in lots of a currency that have a label, in order of entry, where that is known.
    pub(crate) fn positions_labelled(
        &self,
        currency: &Currency<'_>,
        label: &Text<'_>,
    ) -> Option<Positions<'a, '_>>
        requires { IsKept self.now }
        ensures { IfSome result (λ own. own
            ≡ filter (is_lot_labelled currency.now label.now) (held self.now)) }
    {
        let Some(table) = &self.lots.told else {
            return None;
        };
        match table.labels.lot_at(label) {
            Some(LabelLot::At(cost, day)) => {
                Some(self.positions_of(&key_of(currency, &cost, day, label)))
            }
            Some(LabelLot::Several) => None,
            None => Some(Positions::new(Run::new(), false)),
        }
    }

    /// Adds to the count under a key.
    pub(crate) fn add(&mut self, key: Key<'a>, count: i128) -> Result<(), AllocError>
        requires kept { IsKept self.old }
        requires fits { FitsSigned w128 (count_of (held self.old) key +ℤ count) }
        ensures kept { IsKept self.new }
        ensures ok { OnOk result (held self.new ≡ added (held self.old) key.entry count) }
        ensures err { OnErr result (held self.new ≡ held self.old) }
    {
        let Some(index) = self.counts.place_of(&key) else {
            self.sweep_where_due();
            return self.push(&key, count);
        };
        let before = self.counts.count_at(index);
        if before != 0 {
            return self.write(&key, index, before, before + count);
        }
        if key.lot.is_none() && self.counts.len() - index == 1 {
            return self.fill(&key, index, count);
        }
        self.remove_hole(&key, index);
        self.push(&key, count)
    }
}
