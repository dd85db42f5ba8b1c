//! Where the parts of a program's code stand in its file.
//!
//! ```text
//! let place = place_in_filter(&bytes, &program.parts, 2);   // the first byte of the third instruction
//! ```
//!
//! The sections are the last thing in a file, so a place is told by what stands behind it. Nothing
//! is read: the bytes have to be the file of the program.
//!
//! # Cost
//!
//! Linear in what stands behind the place; no memory.
#![tactic(auto)]

mod lengths;
mod places;

pub use places::{place_in_filter, place_in_last, place_in_pool, place_in_row};
