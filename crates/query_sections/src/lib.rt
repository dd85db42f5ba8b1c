//! What the instructions of a section do, one after the other, on a stack and slots.
//!
//! ```text
//! let mut finders = Finders::new(alloc, &patterns)?;      // one for each pattern of the pool
//! let mut frame = Frame::new(alloc, depth)?;              // room for the whole stack, once
//! let source = Source::Posting { row: ledger.row(number), running: None };
//! let loads = Loads { schema, source };
//! let made = go_on(alloc, &loads, &section, &mut finders, &mut frame, 1000)?;
//! if frame.place == section.instructions.len() { .. }     // frame.stack has what the section left
//! ```
//!
//! A [`Section`] is its instructions and the pool that they name entries of; [`Loads`] is what they
//! read: a posting of a ledger with the running inventory, or the keys and the aggregates of a
//! group. A [`Frame`] is where a section stands: its next instruction, its stack and its slots.
//! [`go_on`] goes on from there by a number of instructions, at most to the end, and the section
//! can go on again later.
//!
//! # What is asked of the section
//!
//! That nothing it does is a fault, and that its stack never has more values than it was given room
//! for. A verified program promises both, and so no instruction tests its operands: they are there,
//! of their kinds, and what comes out can be held.
//!
//! # Faults
//!
//! Memory may lack where an inventory is copied or made, and where slots are emptied.
//!
//! # Cost
//!
//! Each instruction takes a few steps beside what its operation takes. Texts, sets and the keys of
//! positions are lent; a push on the stack takes no memory. Where the pool has a pattern, what was
//! found in the last text with each of 4,096 ends is known, so that a text is searched once while it
//! comes again and again, as the names of accounts do. `HAS_ACCOUNT` searches each account anew.
#![tactic(auto)]

mod binary;
mod finders;
mod frame;
mod known;
mod loading;
mod loads;
mod running;
mod slots;
mod stack;
mod unary;

pub use finders::Finders;
pub use frame::Frame;
pub use loads::{Loads, Running, Source};
pub use running::{Section, go_on};
pub use slots::Slots;
pub use stack::Stack;
