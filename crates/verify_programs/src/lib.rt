//! The shapes of a program: how deep its stack becomes where it is well shaped, or why it isn't.
//!
//! ```text
//! let depth = depth_of(alloc, &program.parts)?;   // or a fault: a cause, and what it stands at
//! ```
//!
//! # At a place
//!
//! A [`StateShape`] is what is known of a stack and of slots at a place of a section. It is seen as
//! the state shape of `well_shaped`, and [`StateShape::apply`] does what the rules there say of an
//! instruction, so whoever goes through a section with it finds shapes that fit it, or that there are
//! none. What a section may load is told by [`Loads`].
//!
//! ```text
//! let mut state = StateShape::new(alloc)?;                      // an empty stack, slots unset
//! state.apply(&pool, &loads, Instruction::Push(Push::True))?;   // a truth value on the stack
//! let other = state.copied(alloc)?;
//! state.join(&other);                                           // true: they have a shape in common
//! ```
//!
//! # Over a section
//!
//! [`pass`] goes through the instructions once, from the first to the last, since jumps only lead on;
//! at each place it joins what comes there along all paths. What it answers is the state shape at
//! the end and the most values on the stack, or the first instruction that keeps the section from
//! having shapes.
//!
//! ```text
//! filter        before it
//! 0  LOAD_COL   []                                      the least shapes: each is below every other
//! 1  CONST      [number]                                that could be given to the place
//! 2  LT         [number, number]
//! 3  (end)      [truth]
//! ```
//!
//! # Over a program
//!
//! The filter has to leave one truth value. The row section leaves a row of the answer or, where
//! postings are grouped, keys and the inputs of the aggregates, from which the last section, gone
//! through with what it may load of them, makes a row.
//!
//! # Causes
//!
//! [`CodeCause`] is what keeps the code of a file from being well shaped, `V7` to `V18`; bounds and
//! patterns are looked at by the caller. The sections are gone through in their order, so that the
//! fault that is answered is the first. At each place the first of these is answered: nothing leads
//! to it (`V18`); the paths that meet there have no shape in common (`V10`); its instruction jumps
//! back, or past the end (`V7`); or the first of what holds of the instruction, in this order: a
//! column, key or aggregate that isn't known, or metadata behind the last posting (`V11`); a slot
//! beyond the last (`V12`); an entry of the pool that isn't there or is of another kind (`V13`); too
//! few operands (`V8`); operands of another kind or of other decimals (`V10`); a slot that might be
//! unset (`V12`); a value that might be too wide (`V14`); a stack that is too deep (`V9`).
//!
//! # Cost
//!
//! Linear in the program: a few steps an instruction, and a comparison with each member's kind for
//! lists; at each place that a jump leads to a copy of what is known there, and a join, linear in the
//! stack and the slots.
#![tactic(auto)]

mod cause;
mod depths;
mod ends;
mod laws;
mod loads;
mod passing;
mod rules;
mod spot;
mod state;
mod waiting;

pub use cause::CodeCause;
pub use depths::depth_of;
pub use laws::joins_are_least;
pub use loads::Loads;
pub use passing::{Passed, SectionCause, pass};
pub use spot::{Fault, Spot};
pub use state::StateShape;
