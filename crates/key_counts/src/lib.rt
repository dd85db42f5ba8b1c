//! Counts of keys, in the order in which the keys came.
//!
//! ```text
//! let mut counts = KeyCounts::new(alloc);
//! counts.push(key, 5)?;
//! counts.place_of(&key);      // Some(0)
//! counts.set(0, 7);
//! ```
//!
//! # Cost
//!
//! Few keys are compared one by one, which takes no more than to hash one: they lie in one piece of
//! memory with their counts. Where there are more, all of them are hashed beside that, so that a key
//! is found in constant time, whatever their number. To take a key out is linear, but at the end.
#![tactic(auto)]

mod counts;
mod places;
mod run;

pub use counts::{KeyCounts, Lend};
pub use run::Run;
