//! Where the lots of a day stand, among slots in the order of their days.
ghost use Rattle.std.specs.Prelude.{◌<◌, ◌≡◌, length, IfSome};
ghost use Rattle.bean_inventories.specs.Part.{HasAllSlots};
ghost use Rattle.bean_inventories.specs.Part as spec;
ghost use Rattle.bean_inventories.specs.Kept.{AreInOrder};

use bean_base::Day;
use bean_lots::Key;
use key_counts::Run;
use std::cmp::Ordering;

/// On which side of a day a key stands that is that of a lot.
fn side_of(key: &Key<'_>, day: Day) -> Ordering
    ensures { result ≡ spec.side_of day key.now.lot }
{
    match &key.lot {
        Some(lot) => lot.day.cmp(&day),
        None => Ordering::Equal,
    }
}

/// The half that has all lots of a day, or none where the slot in the middle may be one of these.
fn half_on<'s, 'a>(slots: &Run<'s, Key<'a>>, day: Day) -> Option<Run<'s, Key<'a>>>
    requires { AreInOrder slots.now }
    ensures half { IfSome result (λ half. HasAllSlots day half slots.now) }
    ensures less { IfSome result (λ half. length half < length slots.now) }
{
    if slots.is_empty() {
        return None;
    }
    let middle = slots.len() / 2;
    let (key, _) = slots.slot_at(middle);
    match side_of(key, day) {
        Ordering::Less => {
            let (_, behind) = slots.split_at(middle + 1);
            Some(behind)
        }
        Ordering::Greater => {
            let (before, _) = slots.split_at(middle);
            Some(before)
        }
        Ordering::Equal => None,
    }
}

/// A part of some slots that has all lots of a day, and few others.
pub(crate) fn part_on<'s, 'a>(slots: Run<'s, Key<'a>>, day: Day) -> Run<'s, Key<'a>>
    requires { AreInOrder slots }
    ensures { HasAllSlots day result slots.entry }
{
    let mut part = slots;
    while let Some(half) = half_on(&part, day) {
        part = half;
    }
    part
}
