//! Copies of bags in few bytes.
ghost use Rattle.std.specs.Prelude.{◌≡◌, ◌≤◌, All, IfOk, IfSome, false, length, map, neg_ℤ, pos};
ghost use Rattle.std.specs.Map.{keys_of};
ghost use Rattle.std.specs.Ordering.{int_eq};
ghost use Rattle.bean_lots.specs.Inventory.{IsInventory, count_of, negative_entry};
ghost use Rattle.bean_lots.specs.Slots.{positions};
ghost use Rattle.query_holdings.specs.Kept.{MayTurn, held_in};

use crate::bag_key::BagKey;
use crate::holding::Holding;
use crate::holdings::Holdings;
use crate::keys::Keys;
use key_counts::{Lend, Run};
use std::alloc::{AllocError, Global};
use std::marker::Model;

/// So many counts a copy has room for, in a piece of 48 bytes; few balances have more currencies.
pub(crate) const ROOM: usize = 5;

/// What a bag held when it was copied. Its keys stand once for all copies that have the same, and
/// its counts, which are few and of 64 bits, lie in one small piece of memory.
pub struct Kept<'r> {
    keys: Keys<'r>,
    counts: Box<[i64; ROOM]>,
}

/// Written out, so that crates which give one up need to know nothing of what is in it.
impl Drop for Kept<'_> {
    fn drop(self) {
        let Kept { keys: _, counts: _ } = self;
    }
}

impl<'r> Model for Kept<'r> {
    ghost use Rattle.std.specs.Prelude.{List};
    ghost use Rattle.bean_lots.specs.declared.lot.Position.{Position};
    ghost use Rattle.query_holdings.specs.Kept.{IsKept, held_in};

    ghost Value = { List Position };

    ghost view = { λ k. held_in k.keys k.counts.value };

    ghost invariant = { λ k. IsKept k.keys k.counts.value };
}

impl Clone for Kept<'_> {
    ghost is_clone = { λ a b. b ≡ a };

    fn clone(&self) -> Result<Self, AllocError> {
        Ok(Kept {
            keys: self.keys.share()?,
            counts: Box::new(*Box::allocator(&self.counts), *self.counts)?,
        })
    }
}

/// The count in 64 bits, where it fits, also with its sign changed, and isn't 0.
fn narrow(count: i128) -> Option<i64>
    ensures same { IfSome result (λ n. n ≡ count) }
    ensures some { IfSome result (λ n. int_eq n (pos 0) ≡ false) }
    ensures turns { IfSome result MayTurn }
{
    let narrow = i64::try_from(count).ok()?;
    if narrow == 0 || narrow == i64::MIN {
        return None;
    }
    Some(narrow)
}

/// The counts of slots in 64 bits, where they are few and fit, and none is 0. Zeros stand behind them.
fn narrowed(slots: &Run<'_, BagKey<'_>>) -> Option<[i64; ROOM]>
    ensures held { IfSome result (λ ns. held_in (keys_of slots.now) ns ≡ positions slots.now) }
    ensures turn { IfSome result (λ ns. All MayTurn ns) }
    ensures few { IfSome result (λ ns. length (keys_of slots.now) ≤ length ns) }
{
    if slots.len() > ROOM {
        return None;
    }
    let mut counts = [0; ROOM];
    for place in 0..slots.len() {
        let (_, count) = slots.slot_at(place);
        counts[place] = narrow(count)?;
    }
    Some(counts)
}

/// Counts of the other sign.
fn turned(counts: &[i64; ROOM]) -> [i64; ROOM]
    requires { All MayTurn counts.now }
    ensures values { result ≡ map neg_ℤ counts.now }
    ensures turn { All MayTurn result }
    ensures len { length result ≡ length counts.now }
{
    let mut turned = [0; ROOM];
    for place in 0..ROOM {
        turned[place] = -counts[place];
    }
    turned
}

impl<'r> Kept<'r> {
    /// A copy of slots whose keys are these, where the counts are few and narrow, and none is 0.
    pub(crate) fn of(
        alloc: Global,
        keys: &Keys<'r>,
        slots: &Run<'_, BagKey<'r>>,
    ) -> Result<Option<Kept<'r>>, AllocError>
        requires same { keys.now ≡ keys_of slots.now }
        requires inventory { IsInventory (positions slots.now) }
        ensures { IfOk result (λ o. IfSome o (λ k. k ≡ positions slots.now)) }
    {
        let Some(counts) = narrowed(slots) else {
            return Ok(None);
        };
        Ok(Some(Kept {
            keys: keys.share()?,
            counts: Box::new(alloc, counts)?,
        }))
    }

    /// The count under a key, 0 where nothing is held.
    pub fn get(&self, key: &BagKey<'_>) -> i128
        ensures { result ≡ count_of self.now key.now }
    {
        let mut rest = self.positions();
        while let Some((own, count)) = rest.next_held() {
            if *key == *own {
                return count;
            }
        }
        0
    }

    /// The positions, in order of entry.
    pub fn positions(&self) -> Holdings<'_, 'r>
        ensures positions { result ≡ self.now }
        ensures inventory { IsInventory self.now }
    {
        Holdings::beside(
            self.keys.as_slice(),
            self.counts.as_slice(),
            self.keys.placed(),
        )
    }

    /// Changes the sign of every count.
    pub fn negate(&mut self)
        ensures { self.new ≡ map negative_entry self.old }
    {
        let counts = turned(&self.counts);
        Box::replace(&mut self.counts, counts);
    }

    /// The same as a bag that can grow.
    pub fn grown(&self) -> Result<Holding<'r>, AllocError>
        ensures { IfOk result (λ held. held ≡ self.now) }
    {
        let mut held = Holding::new(*Box::allocator(&self.counts));
        let mut rest = self.positions();
        while let Some((key, count)) = rest.next_held() {
            held.add(key.lend(), count)?;
        }
        Ok(held)
    }
}
