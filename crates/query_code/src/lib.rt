//! The program of a compiled query: its parts, its instructions, and what its file is.
//!
//! ```text
//! let text = show(alloc, &program)?;      // "version 1 postings 1000000 digits 20 ..", a line each
//! let again = upgrade(alloc, &program)?;  // the same in version 2, of 1000000 postings as before
//! ```
//!
//! A [`Program`] keeps the limits of a query file, so each has one; `specs/QueryFile` says which
//! bytes it is, and where bytes that are none stop to be one. `query_file` reads and writes it.
//! Operations on two values and aggregates are those of `query_values`. What a program means is
//! told in `plain_machine`; whether it can be run without a fault is another question, which the
//! verifier answers.
//!
//! Files have two versions: the second knows the prices of postings, and ledgers of more of them
//! ([`limits::Version`]). [`upgrade`] brings a program to the second, with all else as it was.
//!
//! # Faults
//!
//! None of its own; [`FileCause`] is what keeps bytes from being a query file (`V1` to `V6`), with
//! its byte.
//!
//! # Cost
//!
//! Linear in the program. Its texts are slices of the query, or of the file, that it was made from;
//! a [`TextList`] is lent from the file as it stands there, or keeps its texts so.
#![tactic(auto)]

mod cause;
mod instruction;
mod listing;
mod program;
pub mod text_list;
mod upgrading;

pub use cause::{FileCause, FileCauseKind, Stop};
pub use instruction::{Instruction, Push, Unary};
pub use listing::show;
pub use program::{Code, Constant, Mode, Numbers, Output, Parts, Program};
pub use text_list::TextList;
pub use upgrading::{upgrade, upgraded_files_differ_in_version};
