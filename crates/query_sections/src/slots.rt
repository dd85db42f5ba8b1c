//! Slots for values.
ghost use Rattle.std.specs.Prelude.{◌≡◌, ◌≢◌, ◌<◌, Some, None, length, slice_set, IfOk, OnOk, replicate};
ghost use Rattle.plain_machine.specs.SectionRun.{slot_at};
ghost use Rattle.query_sections.specs.Slots.{unset};

use limits::SLOTS;
use query_values::Value;
use std::alloc::{AllocError, Global};
use std::marker::Model;

/// The slots of a section, each unset or with a value.
#[derive(Drop)]
pub struct Slots<'r> {
    values: Vec<Option<Value<'r>>>,
    /// Whether some slot was set since all of them were unset.
    is_used: bool,
}

impl<'r> Model for Slots<'r> {
    ghost use Rattle.std.specs.Prelude.{◌≡◌, false};
    ghost use Rattle.query_sections.specs.Slots.{SlotValues, unset};

    ghost Value = { SlotValues };

    ghost view = { λ s. s.values.items };

    ghost invariant = { λ s. s.is_used ≡ false → s.values.items ≡ unset };
}

/// All slots, unset.
fn unset_values<'r>(alloc: Global) -> Result<Vec<Option<Value<'r>>>, AllocError>
    ensures { IfOk result (λ v. v.items ≡ unset) }
{
    let mut values = Vec::with_capacity(alloc, SLOTS)?;
    for _ in 0..SLOTS {
        values.push(None)?;
    }
    Ok(values)
}

impl<'r> Slots<'r> {
    /// All slots, unset.
    pub fn new(alloc: Global) -> Result<Slots<'r>, AllocError>
        ensures { IfOk result (λ s. s ≡ unset) }
    {
        Ok(Slots {
            values: unset_values(alloc)?,
            is_used: false,
        })
    }

    /// What a slot holds.
    pub fn get(&self, slot: u8) -> &Value<'r>
        requires { slot_at self.now slot ≢ None }
        ensures { slot_at self.now slot ≡ Some result.now }
    {
        match &self.values[slot as usize] {
            Some(value) => value,
            None => unreachable!(),
        }
    }

    /// Sets a slot.
    pub fn set(&mut self, slot: u8, value: Value<'r>)
        requires { slot < length self.old }
        ensures { self.new ≡ slice_set self.old slot (Some value.entry) }
    {
        self.is_used = true;
        self.values[slot as usize] = Some(value);
    }

    /// Makes all slots unset. Takes memory only where one was set.
    #[inline(always)]
    pub fn clear(&mut self, alloc: Global) -> Result<(), AllocError>
        ensures { OnOk result (self.new ≡ unset) }
    {
        if self.is_used {
            return self.unset(alloc);
        }
        Ok(())
    }

    /// The same where one was set, which few programs do.
    #[inline(never)]
    fn unset(&mut self, alloc: Global) -> Result<(), AllocError>
        ensures { OnOk result (self.new ≡ unset) }
    {
        self.values = unset_values(alloc)?;
        self.is_used = false;
        Ok(())
    }
}
