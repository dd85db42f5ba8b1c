//! What is given over parts of a text: the tags and entries of metadata that are pushed.
//!
//! ```text
//! pushmeta place: "Kiel"          // a given entry, to the transactions up to its pop
//! 2024-01-01 * "Lunch"            // its own entry, then `place`
//!   note: "with Ada"
//! popmeta place:
//! ```
//!
//! An item that is given stands once for all directives of its text ([`GivenItems`]); a directive
//! keeps its own, and the place at which those are looked for ([`WithGiven`]). So a text of many given
//! items and many transactions takes memory for their sum, and not for their product.
//!
//! # Faults
//!
//! None but want of memory.
//!
//! # Cost
//!
//! To give takes the same time for many items as for one. To go through what a directive has
//! ([`Items`]) looks at all that are given in its text.
#![tactic(auto)]

mod given;
mod items;
mod lend;
mod with_given;

pub use given::{GivenItem, GivenItems};
pub use items::Items;
pub use lend::Lend;
pub use with_given::WithGiven;
