//! Keys and counts that stand side by side.
ghost use Rattle.std.specs.Prelude.{◌≡◌, ◌<◌, ◌≤◌, ◌↔◌, [], IsTrue, Some, drop, length, slice_get, take};

use std::marker::Model;

fn slot_in<'s, K>(slots: &'s [(K, i128)], place: usize) -> (&'s K, i128)
    requires { place < length slots.now }
    ensures { slice_get slots.now place ≡ Some (result.0.now, result.1) }
{
    let (key, count) = &slots[place];
    (key, *count)
}

/// Keys and their counts, lent.
#[derive(Drop)]
pub struct Run<'s, K> {
    slots: &'s [(K, i128)],
}

impl<'s, K> Model for Run<'s, K> {
    ghost use Rattle.std.specs.Prelude.{List, ℤ};

    ghost Value = { List (K × ℤ) };

    ghost view = { λ r. r.slots.now };
}

impl<'s, K> Run<'s, K> {
    /// These slots.
    pub(crate) fn of(slots: &'s [(K, i128)]) -> Run<'s, K>
        ensures { result ≡ slots.now }
    {
        Run { slots }
    }

    /// None.
    pub fn new() -> Run<'s, K>
        ensures { result ≡ [] }
    {
        Run { slots: &[] }
    }

    /// How many there are.
    pub fn len(&self) -> usize
        ensures { result ≡ length self.now }
    {
        self.slots.len()
    }

    /// Whether there are none.
    pub fn is_empty(&self) -> bool
        ensures { IsTrue result ↔ (length self.now ≡ 0) }
    {
        self.slots.len() == 0
    }

    /// The key and the count at a place.
    pub fn slot_at(&self, place: usize) -> (&'s K, i128)
        requires { place < length self.now }
        ensures { slice_get self.now place ≡ Some (result.0.now, result.1) }
    {
        slot_in(self.slots, place)
    }

    /// Those before a place, and those from it on.
    pub fn split_at(&self, place: usize) -> (Run<'s, K>, Run<'s, K>)
        requires { place ≤ length self.now }
        ensures front { result.0 ≡ take place self.now }
        ensures back { result.1 ≡ drop place self.now }
    {
        let (front, back) = self.slots.split_at(place);
        (Run { slots: front }, Run { slots: back })
    }
}
