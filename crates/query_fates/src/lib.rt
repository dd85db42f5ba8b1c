//! What becomes of several programs over one ledger, in turns.
//!
//! Programs run over one ledger in turns of so many steps each, in the order of the programs, round
//! by round, until all have ended. What becomes of one is what would become of it alone: what the
//! others meet changes nothing.
//!
//! ```text
//! for fate in fates(alloc, &programs, &ledger, 1000)? {
//!     match fate {
//!         Fate::Table(text) => ..,
//!         Fate::OutsideBounds => ..,          // M1
//!         Fate::OutOfMemory => ..,            // M2
//!     }
//! }
//! ```
//!
//! [`file_fates`] does the same with the bytes of query files that are accepted, and checks them once
//! more for it, since a program stands in the bytes of its file.
//!
//! Where no program reads the accounts of transactions ([`verified_program::reads_accounts`]),
//! it is the same over a ledger without them ([`unread_accounts_may_be_left_out`]).
//!
//! # Faults
//!
//! [`fates`] answers an error where memory lacks before the first turn, or for the list of fates;
//! [`file_fates`] also where it lacks for the programs. What a run or its table lacks is that run's
//! fate.
//!
//! # Cost
//!
//! That of the runs and of their tables, and in each round a look at each run, also where it has
//! ended.
#![tactic(auto)]

mod files;
mod laws;
mod tabulating;

pub use files::file_fates;
pub use laws::unread_accounts_may_be_left_out;
pub use tabulating::{Fate, fates};
