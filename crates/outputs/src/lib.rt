//! Outputs: what takes bytes, and tells how many it took.
//!
//! A file, a pipe or a buffer takes some of the bytes that it is offered, from the front on, or
//! fails. [`write_bytes`] offers them until all are taken, and tells how many were.
//!
//! ```text
//! let mut out = ShortWriter::new(alloc, 5);
//! assert_eq!(write_bytes(&mut out, b"date  flag"), 5);
//! assert_eq!(out.taken(), b"date ");
//! ```
//!
//! - [`Output`] is what all outputs answer to,
//! - [`ShortWriter`] keeps what it took, and fails at a chosen byte,
//! - [`Stream`] is a standard stream of the program,
//! - [`Pieces`] hands a text over in pieces, through a buffer that lies in place.
//!
//! # What is known of an output
//!
//! Each output says by a relation what a call of it may do, so a caller knows of its bytes what it
//! tells: all for a `ShortWriter`, and for a `Stream` that it takes at least one byte where it
//! doesn't fail. Of every output its refusals are counted: that `write_bytes` stops short shows in
//! the count, whatever else the output tells.
//!
//! # Faults
//!
//! There is one, [`NotTaken`]: an output failed, and took nothing of what that call offered. An
//! output that takes none of some bytes is stopped at as if it had failed.
//!
//! # Cost
//!
//! `write_bytes` takes no memory and copies no byte. It makes as many calls as the output wants; a
//! `Stream` makes a call again that a signal interrupted. `Pieces` take no memory either, and copy a
//! piece once that isn't larger than their buffer of 16 KiB.
#![tactic(auto)]

mod output;
mod pieces;
mod short_writer;
mod stream;
mod writing;

pub use output::{NotTaken, Output};
pub use pieces::{Pieces, pieces_are_joined};
pub use short_writer::ShortWriter;
pub use stream::Stream;
pub use writing::write_bytes;
