//! The groups of a run, in order of first appearance, each with what its aggregates have gathered
//! so far.
//!
//! ```text
//! let mut groups = Groups::new(alloc);
//! groups.put(&aggregates, keys, &inputs)?;          // of one posting
//! let group = groups.get(0);                        // its keys and its totals
//! ```
//!
//! Keys are told apart as values are: null is the same as null, and numbers are by value.
//!
//! # Faults
//!
//! [`Groups::put`] answers an error where memory lacks, and may have gathered in part then.
//!
//! # Cost
//!
//! A table that hashes its keys. Where the first key is a text, as a name mostly is, the group that was
//! found last under a text with the same end is compared first. A group takes its keys, and a running
//! value for each aggregate.
#![tactic(auto)]

mod groups;
mod totals;

pub use groups::{GroupView, Groups};
pub use totals::Totals;
