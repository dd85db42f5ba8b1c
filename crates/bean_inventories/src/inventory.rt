//! Inventories: what an account holds of each currency, in lots or without one.
ghost use Rattle.std.specs.Prelude.{◌≡◌, ◌+ℤ◌, ◌<◌, ◌^◌, [], IfSome, IsTrue, OnErr, OnOk};
ghost use Rattle.std.specs.Prelude.{filter, length};
ghost use Rattle.std.specs.Int.{w128};
ghost use Rattle.std.specs.Int.RustNames.{FitsSigned};
ghost use Rattle.bean_inventories.specs.AtCost.{is_lot_at};
ghost use Rattle.bean_inventories.specs.Days.{RiseInDays};
ghost use Rattle.bean_inventories.specs.Labelled.{is_lot_labelled};
ghost use Rattle.bean_lots.specs.Inventory.{IsInventory, added, count_of};
ghost use Rattle.bean_lots.specs.Inventory as spec;

mod costs;
mod days;
mod known;
mod labels;
mod part;
mod positions;
mod signs;
mod slots;
mod table;

use bean_base::{Currency, Text};
use bean_lots::{Cost, Key};
pub use positions::Positions;
pub use signs::Signs;
use slots::Slots;
use std::alloc::{AllocError, Global};
use std::marker::Model;

/// What an account holds.
///
/// It is seen as the list of its positions, each with a count that isn't 0, in order of entry: a
/// new key goes last, one that is there keeps its place, and one that comes to 0 goes.
pub struct Inventory<'a> {
    slots: Slots<'a>,
}

/// Written out, so that crates which give one up need to know nothing of what is in it.
impl Drop for Inventory<'_> {
    fn drop(self) {
        let Inventory { slots: _ } = self;
    }
}

impl<'a> Model for Inventory<'a> {
    ghost use Rattle.std.specs.Prelude.{List};
    ghost use Rattle.bean_lots.specs.declared.lot.Position.{Position};
    ghost use Rattle.bean_inventories.specs.Kept.{IsKept};
    ghost use Rattle.bean_lots.specs.Slots as slots_spec;

    ghost Value = { List Position };

    ghost view = { λ a. slots_spec.positions a.slots.counts };

    ghost invariant = { λ a. IsKept a.slots };
}

impl<'a> Inventory<'a> {
    /// The inventory that holds nothing. Takes no memory.
    pub fn new(alloc: Global) -> Inventory<'a>
        ensures { result ≡ [] }
    {
        Inventory {
            slots: Slots::new(alloc),
        }
    }

    /// The count under a key, 0 where nothing is held.
    pub fn get(&self, key: &Key<'_>) -> i128
        ensures count { result ≡ count_of self.now key.now }
        ensures inventory { IsInventory self.now }
    {
        self.slots.get(key)
    }

    /// Whether some lot of a currency is held.
    pub fn has_lot(&self, currency: &Currency<'_>) -> bool
        ensures { result ≡ spec.has_lot currency.now self.now }
    {
        let signs = self.slots.lots.signs_of(currency);
        signs.long > 0 || signs.short > 0
    }

    /// Adds to the count under a key. The caller knows that the sum fits.
    pub fn add(&mut self, key: Key<'a>, count: i128) -> Result<(), AllocError>
        requires { FitsSigned w128 (count_of self.old key +ℤ count) }
        ensures ok { OnOk result (self.new ≡ added self.old key.entry count) }
        ensures err { OnErr result (self.new ≡ self.old) }
    {
        self.slots.add(key, count)
    }

    /// The positions, in order of entry.
    pub fn positions(&self) -> Positions<'a, '_>
        ensures { result ≡ self.now }
    {
        self.slots.positions()
    }

    /// The positions of the lots of a currency at a cost, in order of entry, where these are known
    /// without a look at all that is held.
    pub fn positions_at(
        &self,
        currency: &Currency<'_>,
        cost: &Cost<'_>,
    ) -> Option<Positions<'a, '_>>
        ensures { IfSome result (λ own. own ≡ filter (is_lot_at currency.now cost.now) self.now) }
    {
        self.slots.positions_at(currency, cost)
    }

    /// The positions of the lots of a currency that have a label, in order of entry, where these are
    /// known without a look at all that is held.
    pub fn positions_labelled(
        &self,
        currency: &Currency<'_>,
        label: &Text<'_>,
    ) -> Option<Positions<'a, '_>>
        ensures { IfSome result (λ own. own
            ≡ filter (is_lot_labelled currency.now label.now) self.now) }
    {
        self.slots.positions_labelled(currency, label)
    }

    /// Whether nothing is held. Where it says no, something may have been.
    pub fn is_bare(&self) -> bool
        ensures bare { IsTrue result → self.now ≡ [] }
        ensures inventory { IsInventory self.now }
    {
        self.slots.is_bare()
    }

    /// Whether lots are known to stand in the order of their days.
    pub fn rises_in_days(&self) -> bool
        ensures { IsTrue result → RiseInDays self.now }
    {
        self.slots.days.in_order
    }

    /// How many lots of a currency are held with a count above 0, and how many with one below. There
    /// are fewer positions than `2^63`.
    pub fn signs_of(&self, currency: &Currency<'_>) -> Signs
        ensures long { result.long ≡ spec.long_lots currency.now self.now }
        ensures short { result.short ≡ spec.short_lots currency.now self.now }
        ensures few { length self.now < 2 ^ 63 }
    {
        self.slots.signs_of(currency)
    }
}
