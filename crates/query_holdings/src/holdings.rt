//! The positions of a bag, one after the other.
ghost use Rattle.std.specs.Prelude.{◌≡◌, ◌≤◌, ◌∷◌, [], IfNone, IfOk, IfSome, drop, length, map};
ghost use Rattle.bean_lots.specs.Inventory.{position_of};
ghost use Rattle.bean_lots.specs.Slots.{positions};
ghost use Rattle.query_holdings.specs.Entries.{in_order};
ghost use Rattle.query_holdings.specs.Kept.{held_in};
ghost use Rattle.query_holdings.specs.Placed.{entry_in};

use crate::bag_key::BagKey;
use crate::entry::InOrder;
use crate::keys::PlacedList;
use key_counts::Run;
use std::alloc::{AllocError, Global};
use std::marker::Model;

/// Positions that are still to come, as they lie: in slots, some of which are empty; or as keys with
/// counts beside them, of which all are still to come, so that their order is known, or not all.
#[derive(Drop)]
pub(crate) enum Rest<'s, 'r> {
    Slots(Run<'s, BagKey<'r>>),
    Whole {
        keys: &'s [BagKey<'r>],
        counts: &'s [i64],
        placed: PlacedList<'s, 'r>,
    },
    Beside {
        keys: &'s [BagKey<'r>],
        counts: &'s [i64],
    },
}

/// The positions of a bag that are still to come, in order of entry.
#[derive(Drop)]
pub struct Holdings<'s, 'r> {
    rest: Rest<'s, 'r>,
}

impl<'s, 'r> Model for Holdings<'s, 'r> {
    ghost use Rattle.std.specs.Prelude.{List};
    ghost use Rattle.bean_lots.specs.declared.lot.Position.{Position};
    ghost use Rattle.query_holdings.specs.Rest.{AreInOrder, still_to_come};

    ghost Value = { List Position };

    ghost view = { λ h. still_to_come h.rest };

    ghost invariant = { λ h. AreInOrder h.rest };
}

/// The first count that isn't 0, with its key and the place behind it.
fn first_of<'s, 'r>(slots: &Run<'s, BagKey<'r>>) -> Option<(&'s BagKey<'r>, i128, usize)>
    ensures some { IfSome result (λ p. positions slots.now
        ≡ position_of p.0.now p.1 ∷ positions (drop p.2 slots.now)) }
    ensures inside { IfSome result (λ p. p.2 ≤ length slots.now) }
    ensures none { IfNone result (positions slots.now ≡ []) }
{
    for place in 0..slots.len() {
        let (key, count) = slots.slot_at(place);
        if count != 0 {
            return Some((key, count, place + 1));
        }
    }
    None
}

/// The next position in slots, which are those behind it then.
fn next_slot<'s, 'r>(slots: &mut Run<'s, BagKey<'r>>) -> Option<(&'s BagKey<'r>, i128)>
    ensures some { IfSome result (λ e. positions slots.old
        ≡ position_of e.0.now e.1 ∷ positions slots.new) }
    ensures none { IfNone result (positions slots.old ≡ []) }
{
    let (key, count, behind) = first_of(slots)?;
    let (_, rest) = slots.split_at(behind);
    *slots = rest;
    Some((key, count))
}

/// The next key and its count, which are those behind them then.
fn next_beside<'s, 'r>(
    keys: &mut &'s [BagKey<'r>],
    counts: &mut &'s [i64],
) -> Option<(&'s BagKey<'r>, i128)>
    ensures some { IfSome result (λ e. held_in keys.old.now counts.old.now
        ≡ position_of e.0.now e.1 ∷ held_in keys.new.now counts.new.now) }
    ensures none { IfNone result (held_in keys.old.now counts.old.now ≡ []) }
{
    let [key, other_keys @ ..] = *keys else {
        return None;
    };
    let [count, other_counts @ ..] = *counts else {
        return None;
    };
    *keys = other_keys;
    *counts = other_counts;
    Some((key, *count as i128))
}

impl<'s, 'r> Holdings<'s, 'r> {
    /// What slots hold.
    pub(crate) fn in_slots(slots: Run<'s, BagKey<'r>>) -> Holdings<'s, 'r>
        ensures { result ≡ positions slots.entry }
    {
        Holdings {
            rest: Rest::Slots(slots),
        }
    }

    /// What keys hold with counts beside them, and the keys in their order.
    pub(crate) fn beside(
        keys: &'s [BagKey<'r>],
        counts: &'s [i64],
        placed: PlacedList<'s, 'r>,
    ) -> Holdings<'s, 'r>
        requires { map (entry_in counts.now) placed ≡ in_order (held_in keys.now counts.now) }
        ensures { result ≡ held_in keys.now counts.now }
    {
        Holdings {
            rest: Rest::Whole {
                keys,
                counts,
                placed,
            },
        }
    }

    /// The same positions once more.
    pub fn lend(&self) -> Holdings<'s, 'r>
        ensures { result ≡ self.now }
    {
        let rest = match &self.rest {
            Rest::Slots(slots) => Rest::Slots(slots.split_at(0).1),
            Rest::Whole {
                keys,
                counts,
                placed,
            } => Rest::Whole {
                keys,
                counts,
                placed: placed.lend(),
            },
            Rest::Beside { keys, counts } => Rest::Beside { keys, counts },
        };
        Holdings { rest }
    }

    /// The positions in the order of their keys.
    pub fn in_order(&self, alloc: Global) -> Result<InOrder<'s, 'r>, AllocError>
        ensures { IfOk result (λ o. o ≡ in_order self.now) }
    {
        match &self.rest {
            Rest::Whole { counts, placed, .. } => Ok(InOrder::placed(placed.as_slice(), counts)),
            _ => InOrder::of(alloc, self),
        }
    }

    /// The key and the count of the next position, or none where there are no more.
    pub fn next_held(&mut self) -> Option<(&'s BagKey<'r>, i128)>
        ensures some { IfSome result (λ e. self.old ≡ position_of e.0.now e.1 ∷ self.new) }
        ensures none { IfNone result (self.old ≡ []) }
    {
        if let Rest::Whole { keys, counts, .. } = &self.rest {
            let mut other_keys = *keys;
            let mut other_counts = *counts;
            let next = next_beside(&mut other_keys, &mut other_counts);
            self.rest = Rest::Beside {
                keys: other_keys,
                counts: other_counts,
            };
            return next;
        }
        match &mut self.rest {
            Rest::Slots(slots) => next_slot(slots),
            Rest::Whole { .. } => unreachable!(),
            Rest::Beside { keys, counts } => next_beside(keys, counts),
        }
    }
}
