//! How the program ends: what an answer says, or why there is none.
//!
//! ```text
//! let refusal = Refusal::from(books_are_too_large);    // refusals::Refusal<BookCause>
//! refusal.line();                                      // "bq: B1\n"
//! refusal.status();                                    // 2
//! verdict_of(&faults).status();                        // 1 where books have a fault
//! ```
//!
//! A [`Refusal`] is made of the refusal of any stage, so that a command hands it on with `?`. It has a
//! line for standard error, whose code and place are those of the stage, and a status. A [`Verdict`]
//! has a status alone, since what it is told of is on standard output.
//!
//! # Refusals
//!
//! Nothing here refuses, and no call takes memory: a refusal is told where memory lacked, too.
#![tactic(auto)]

mod refusal;
mod verdict;

pub use refusal::{Cause, Refusal};
pub use verdict::{Verdict, verdict_of};
