//! Lists in pieces of memory: they grow without being moved, and are given up piece by piece.
//!
//! ```text
//! let mut list = Pieces::new(alloc);
//! list.push(alloc, item)?;
//! let first = list.at(0);
//! let mut taken = Taken::new(alloc, list)?;       // its items, to be put into another list
//! move_items(alloc, &mut other, &mut taken, 3)?;
//!
//! let mut parts = Parts::new(list)?;              // a list, piece by piece
//! while let Some(piece) = parts.next() { .. }
//! ```
//!
//! # Faults
//!
//! The only cause of an error is want of memory. `push` left the list as it was then.
//!
//! # Cost
//!
//! A piece has 1,024 items. `new` takes no memory; `push` and `at` take a few steps. Items that are
//! taken out of a list are moved once each, and a piece is given up as soon as it is empty. `Parts` hand
//! out each piece as it lies; `forget_items` gives the memory of one back without a look at its items.
#![tactic(auto)]

mod pieces;

pub use pieces::Pieces;
pub use pieces::parts::{Parts, forget_items};
pub use pieces::taken::{Taken, move_items};
