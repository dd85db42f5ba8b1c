//! The lines that tell what is wrong in a ledger.
//!
//! ```text
//! are_serious(faults.as_slice())                     // whether one says more than F5
//! let lines = FaultLines::new(texts, faults)?;
//! lines.write(&mut out)                              // how many of lines.len() bytes were taken
//! // household.beancount:12: F18 unbalanced
//! ```
//!
//! # Cost
//!
//! [`FaultLines`] keep what was found. One pass counts their bytes, and one writes them: no line is
//! made before, so a name that stands in each is copied to the output alone.
#![tactic(auto)]

mod lines;

pub use lines::{FaultLines, are_serious};
