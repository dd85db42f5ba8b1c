//! A loaded ledger: its directives with their places, in the order in which they are taken, its
//! faults, and what its settings say.
//!
//! It stands apart from what reads texts, so that whoever books a ledger needs to know nothing of
//! that. What a directive holds is no larger than a text may be, and there are no more directives
//! than all texts may have bytes.
#![tactic(auto)]

mod loaded;
mod placed;

pub use loaded::{LARGEST_LEDGER, Loaded, MethodLine};
pub use placed::Placed;
