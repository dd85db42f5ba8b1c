//! Why a call gives no answer: memory lacked, or its input is refused for a cause.
//!
//! ```text
//! pub fn decode(alloc: Global, bytes: &[u8]) -> Result<Program, Refusal<FileCause>>
//!
//! match decode(alloc, &bytes) {
//!     Ok(program) => ..,
//!     Err(Refusal::OutOfMemory) => ..,            // nothing is said of the bytes
//!     Err(Refusal::Refused(cause)) => ..,         // cause.code() is "V3", cause.place() Some(36)
//! }
//! ```
//!
//! # Refusals
//!
//! Each call that may refuse its input gives a [`Refusal`] of the causes that it looks for, and of
//! no others. Want of memory is no cause: it may come at any time, and says nothing of the input.
//! So a contract tells when each cause holds, and leaves want of memory open.
//!
//! A failed allocation becomes `Refusal::OutOfMemory` by `?`.
//!
//! # Causes
//!
//! A crate tells what it refuses by an enum, or by a record of one and a place, and implements
//! [`Cause`] for it: [`Cause::code`] is the number that users see, and [`Cause::place`] the byte of
//! the input that it stands at, where it has one. What it prints as, it says by `Display`.
#![tactic(auto)]

mod refusal;

pub use refusal::{Cause, Refusal};
