//! Where a section stands.
ghost use Rattle.std.specs.Prelude.{◌≡◌, ◌≤◌, IfOk, OnOk};
ghost use Rattle.plain_machine.specs.SectionRun.{begun};
ghost use Rattle.query_sections.specs.Standing.{standing};

use crate::slots::Slots;
use crate::stack::Stack;
use std::alloc::{AllocError, Global};

/// The place of a section's next instruction, its stack and its slots.
pub struct Frame<'r> {
    pub place: usize,
    pub stack: Stack<'r>,
    pub slots: Slots<'r>,
}

/// Written out, so that crates which give one up need to know nothing of what is in it.
impl Drop for Frame<'_> {
    fn drop(self) {
        let Frame {
            place: _,
            stack: _,
            slots: _,
        } = self;
    }
}

impl<'r> Frame<'r> {
    /// Before the first instruction, with room for so many values on the stack.
    pub fn new(alloc: Global, depth: usize) -> Result<Frame<'r>, AllocError>
        ensures begun { IfOk result (λ f. standing f ≡ begun) }
        ensures room { IfOk result (λ f. depth ≤ f.stack.room) }
    {
        Ok(Frame {
            place: 0,
            stack: Stack::with_room(alloc, depth)?,
            slots: Slots::new(alloc)?,
        })
    }

    /// Goes back before the first instruction of a section. Takes memory only where a slot was set.
    #[inline(always)]
    pub fn begin(&mut self, alloc: Global) -> Result<(), AllocError>
        ensures begun { OnOk result (standing self.new ≡ begun) }
        ensures room { self.new.stack.room ≡ self.old.stack.room }
    {
        self.place = 0;
        self.stack.clear();
        self.slots.clear(alloc)
    }
}
