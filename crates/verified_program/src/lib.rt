//! A program that was verified: a compiled query of which it is known that it runs without a fault
//! over each ledger within the bounds of its header.
//!
//! ```text
//! let checked = check_file(alloc, &bytes)?;    // query_verifier makes it
//! let steps = checked.budget(3, 1);            // at most, over three postings that make one group
//! let answer = run(alloc, &checked, &ledger)?; // query_machine runs it
//! let reads = reads_accounts(&checked.program); // whether it needs the accounts of transactions
//! ```
//!
//! A [`Checked`] keeps the program, whose names and texts are slices of its file, the patterns of
//! its pool as they were built, and how deep its stack becomes. That the program is well shaped
//! stands in the type, so whoever has a `Checked` need not ask.
//!
//! # Faults
//!
//! None.
//!
//! # Cost
//!
//! Nothing takes memory. To tell whether a program reads the accounts looks at the instructions of
//! two of its sections, once each.
#![tactic(auto)]

mod checked;
mod reading;

pub use checked::Checked;
pub use reading::reads_accounts;
