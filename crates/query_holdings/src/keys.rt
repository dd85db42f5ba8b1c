//! Keys that stand once for all copies of a bag that have them.
ghost use Rattle.std.specs.Prelude.{◌≡◌, IfOk, OnOk};
ghost use Rattle.std.specs.Map.{keys_of};
ghost use Rattle.bean_lots.specs.Lot.{key_order};
ghost use Rattle.query_holdings.specs.Placed.{in_key_order, placed_from};

use crate::bag_key::BagKey;
use key_counts::{Lend, Run};
use std::alloc::{AllocError, Global};
use std::cmp::Ordering;
use std::marker::Model;
use std::rc::Rc;

/// A key, and its place in the order of entry.
pub(crate) struct Placed<'r> {
    pub key: BagKey<'r>,
    pub place: usize,
}

/// Written out, so that what gives one up needs to know nothing of what is in it.
impl Drop for Placed<'_> {
    fn drop(self) {
        let Placed { key: _, place: _ } = self;
    }
}

/// Keys with their places, lent.
#[derive(Drop)]
pub(crate) struct PlacedList<'s, 'r> {
    placed: &'s [Placed<'r>],
}

impl<'s, 'r> Model for PlacedList<'s, 'r> {
    ghost use Rattle.std.specs.Prelude.{List};
    ghost use Rattle.query_holdings.specs.declared.keys.Placed as keys;

    ghost Value = { List keys.Placed };

    ghost view = { λ l. l.placed.now };
}

impl<'s, 'r> PlacedList<'s, 'r> {
    /// The keys themselves.
    pub(crate) fn as_slice(&self) -> &'s [Placed<'r>]
        ensures { result.now ≡ self.now }
    {
        self.placed
    }

    /// The same once more.
    pub(crate) fn lend(&self) -> PlacedList<'s, 'r>
        ensures { result ≡ self.now }
    {
        PlacedList {
            placed: self.placed,
        }
    }
}

/// Keys in order of entry, and the same in the order of keys.
struct Ordered<'r> {
    keys: Vec<BagKey<'r>>,
    placed: Vec<Placed<'r>>,
    ghost in_order: { placed.items ≡ in_key_order (placed_from 0 keys.items) },
}

/// Written out, so that what gives one up needs to know nothing of what is in it.
impl Drop for Ordered<'_> {
    fn drop(self) {
        let Ordered { keys: _, placed: _ } = self;
    }
}

/// Keys, which all that hold them hold together.
pub(crate) struct Keys<'r> {
    place: Rc<Ordered<'r>>,
}

/// Written out, so that what gives one up needs to know nothing of what is in it.
impl Drop for Keys<'_> {
    fn drop(self) {
        let Keys { place: _ } = self;
    }
}

impl<'r> Model for Keys<'r> {
    ghost use Rattle.std.specs.Prelude.{List};
    ghost use Rattle.bean_lots.specs.declared.lot.Key.{Key};

    ghost Value = { List Key };

    ghost view = { λ k. k.place.value.keys.items };
}

/// The keys of slots, one behind the other.
fn keys_in<'r>(alloc: Global, slots: &Run<'_, BagKey<'r>>) -> Result<Vec<BagKey<'r>>, AllocError>
    ensures { IfOk result (λ keys. keys.items ≡ keys_of slots.now) }
{
    let mut keys = Vec::with_capacity(alloc, slots.len())?;
    for place in 0..slots.len() {
        let (key, _) = slots.slot_at(place);
        keys.push(key.lend())?;
    }
    Ok(keys)
}

/// Keys with their places.
fn placed_in<'r>(alloc: Global, keys: &[BagKey<'r>]) -> Result<Vec<Placed<'r>>, AllocError>
    ensures { IfOk result (λ placed. placed.items ≡ placed_from 0 keys.now) }
{
    let mut placed = Vec::with_capacity(alloc, keys.len())?;
    for (place, key) in keys.iter().enumerate() {
        placed.push(Placed {
            key: key.lend(),
            place,
        })?;
    }
    Ok(placed)
}

/// Puts keys in their order.
fn arrange(placed: &mut Vec<Placed<'_>>) -> Result<(), AllocError>
    ensures { OnOk result (placed.new.items ≡ in_key_order placed.old.items) }
{
    placed.sort_by(
        |a: &Placed<'_>, b: &Placed<'_>| -> Ordering
            ensures { result ≡ key_order a.now.key b.now.key }
        { a.key.compare(&b.key) },
    )
}

impl<'r> Keys<'r> {
    /// The keys of slots.
    pub(crate) fn of(alloc: Global, slots: &Run<'_, BagKey<'r>>) -> Result<Keys<'r>, AllocError>
        ensures { IfOk result (λ keys. keys ≡ keys_of slots.now) }
    {
        let keys = keys_in(alloc, slots)?;
        let mut placed = placed_in(alloc, keys.as_slice())?;
        arrange(&mut placed)?;
        Ok(Keys {
            place: Rc::new(alloc, Ordered { keys, placed })?,
        })
    }

    /// The keys, in order of entry.
    pub(crate) fn as_slice(&self) -> &[BagKey<'r>]
        ensures { result.now ≡ self.now }
    {
        self.place.keys.as_slice()
    }

    /// The keys in their order, each with its place in the order of entry.
    pub(crate) fn placed(&self) -> PlacedList<'_, 'r>
        ensures { result ≡ in_key_order (placed_from 0 self.now) }
    {
        PlacedList {
            placed: self.place.placed.as_slice(),
        }
    }

    /// The same keys, held once more. Takes no memory; it fails only where they are held as often as
    /// can be counted.
    pub(crate) fn share(&self) -> Result<Keys<'r>, AllocError>
        ensures { IfOk result (λ keys. keys ≡ self.now) }
    {
        Ok(Keys {
            place: self.place.clone()?,
        })
    }
}
