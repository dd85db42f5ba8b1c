//! The positions of an inventory, one after the other.
ghost use Rattle.std.specs.Prelude.{◌≡◌, ◌<◌, ◌≤◌, ◌∷◌, ◌++◌, ◌-◌, [], IfSome, IfNone, Some, drop};
ghost use Rattle.std.specs.Prelude.{length, take, true};
ghost use Rattle.bean_lots.specs.Inventory.{position_of};
ghost use Rattle.bean_inventories.specs.Part.{HasAllOf};
ghost use Rattle.bean_lots.specs.Slots.{positions};
ghost use Rattle.bean_inventories.specs.Kept.{AreInOrder};

use super::part::part_on;
use bean_base::Day;
use bean_lots::Key;
use key_counts::Run;
use std::marker::Model;

/// The positions that are still to come, in order of entry.
#[derive(Drop)]
pub struct Positions<'a, 's> {
    slots: Run<'s, Key<'a>>,
    /// Whether lots are known to stand in the order of their days.
    in_order: bool,
}

impl<'a, 's> Model for Positions<'a, 's> {
    ghost use Rattle.std.specs.Prelude.{◌≡◌, List, true};
    ghost use Rattle.bean_lots.specs.declared.lot.Position.{Position};
    ghost use Rattle.bean_lots.specs.Slots.{positions};
    ghost use Rattle.bean_inventories.specs.Kept.{AreInOrder};

    ghost Value = { List Position };

    ghost view = { λ p. positions p.slots };

    ghost invariant = { λ p. p.in_order ≡ true → AreInOrder p.slots };
}

/// The first slot in which something is held, as its key and its count, and the index behind it.
fn first_of<'s, 'a>(slots: &Run<'s, Key<'a>>) -> Option<(&'s Key<'a>, i128, usize)>
    ensures some { IfSome result (λ p. positions slots.now
        ≡ position_of p.0.now p.1 ∷ positions (drop p.2 slots.now)) }
    ensures from { IfSome result (λ p. positions (drop (p.2 - 1) slots.now) ≡ positions slots.now) }
    ensures inside { IfSome result (λ p. (0 < p.2) × (p.2 ≤ length slots.now)) }
    ensures none { IfNone result (positions slots.now ≡ []) }
{
    for index in 0..slots.len() {
        let (key, count) = slots.slot_at(index);
        if count != 0 {
            return Some((key, count, index + 1));
        }
    }
    None
}

/// The last slot in which something is held, as its key and its count, and the index behind it.
fn last_of<'s, 'a>(slots: &Run<'s, Key<'a>>) -> Option<(&'s Key<'a>, i128, usize)>
    ensures some { IfSome result (λ p. positions slots.now
        ≡ positions (take (p.2 - 1) slots.now) ++ position_of p.0.now p.1 ∷ []) }
    ensures until { IfSome result (λ p. positions (take p.2 slots.now) ≡ positions slots.now) }
    ensures inside { IfSome result (λ p. (0 < p.2) × (p.2 ≤ length slots.now)) }
    ensures none { IfNone result (positions slots.now ≡ []) }
{
    for index in (0..slots.len()).rev() {
        let (key, count) = slots.slot_at(index);
        if count != 0 {
            return Some((key, count, index + 1));
        }
    }
    None
}

/// Slots without the holes in front of all that is held.
fn without_first_holes<'s, 'a>(slots: Run<'s, Key<'a>>) -> Run<'s, Key<'a>>
    ensures same { positions result ≡ positions slots.entry }
    ensures ordered { AreInOrder slots.entry → AreInOrder result }
{
    match first_of(&slots) {
        Some((_, _, behind)) => {
            let (_, held) = slots.split_at(behind - 1);
            held
        }
        None => slots,
    }
}

/// Slots without the holes behind all that is held.
fn without_last_holes<'s, 'a>(slots: Run<'s, Key<'a>>) -> Run<'s, Key<'a>>
    ensures same { positions result ≡ positions slots.entry }
    ensures ordered { AreInOrder slots.entry → AreInOrder result }
{
    match last_of(&slots) {
        Some((_, _, behind)) => {
            let (held, _) = slots.split_at(behind);
            held
        }
        None => slots,
    }
}

impl<'a, 's> Positions<'a, 's> {
    /// What is held in slots, of which it may be known that they are in the order of days.
    pub(crate) fn new(slots: Run<'s, Key<'a>>, in_order: bool) -> Positions<'a, 's>
        requires { in_order ≡ true → AreInOrder slots }
        ensures { result ≡ positions slots.entry }
    {
        Positions { slots, in_order }
    }

    /// The same positions once more.
    pub fn lend(&self) -> Positions<'a, 's>
        ensures { result ≡ self.now }
    {
        let (_, slots) = self.slots.split_at(0);
        Positions {
            slots,
            in_order: self.in_order,
        }
    }

    /// The positions about a day, in order of entry: all lots of that day, and few others where
    /// lots are known to stand in the order of their days. Where no day is given, all positions.
    pub fn about(&self, day: Option<Day>) -> Positions<'a, 's>
        ensures { HasAllOf day result self.now }
    {
        let Some(day) = day else {
            return self.lend();
        };
        if !self.in_order {
            return self.lend();
        }
        let (_, slots) = self.slots.split_at(0);
        Positions::new(part_on(slots, day), true)
    }

    /// Gives up the slots at both ends in which nothing is held, so that they aren't passed again.
    pub fn trim(&mut self)
        ensures { self.new ≡ self.old }
    {
        let (_, slots) = self.slots.split_at(0);
        self.slots = without_last_holes(without_first_holes(slots));
    }

    /// The key and the count of the next position, or none where there are no more.
    pub fn next_held(&mut self) -> Option<(&'s Key<'a>, i128)>
        ensures some { IfSome result (λ e. self.old ≡ position_of e.0.now e.1 ∷ self.new) }
        ensures none { IfNone result (self.old ≡ []) }
    {
        let (key, count, behind) = first_of(&self.slots)?;
        let (_, rest) = self.slots.split_at(behind);
        self.slots = rest;
        Some((key, count))
    }

    /// The key and the count of the last position, or none where there are no more.
    pub fn next_back_held(&mut self) -> Option<(&'s Key<'a>, i128)>
        ensures some { IfSome result (λ e. self.old ≡ self.new ++ position_of e.0.now e.1 ∷ []) }
        ensures none { IfNone result (self.old ≡ []) }
    {
        let (key, count, behind) = last_of(&self.slots)?;
        let (before, _) = self.slots.split_at(behind - 1);
        self.slots = before;
        Some((key, count))
    }
}
