//! From query files and a ledger to the tables of their answers.
//!
//! ```text
//! let text = answer_file(alloc, &bytes, &ledger)?;   // checked, run and printed
//!
//! let checked = check_file(alloc, &bytes)?;          // or checked once,
//! let text = table(alloc, &checked, &ledger)?;       // and run over many ledgers
//!
//! let text = tabulated(alloc, &checked, &ledger, &answer)?;  // of a run that was made
//!
//! let reads = reads_accounts(alloc, &bytes)?;        // whether it needs the accounts of transactions
//!
//! // count(*)
//! // --------
//! //        3
//! ```
//!
//! Here is said in one contract what the stages promise each for itself. A file that is accepted,
//! whoever made it, ends over each ledger within the bounds of its header: without a fault, within
//! its budget of steps, with the rows that the plain machine gives, and the text is their table. Of
//! a file that the compiler made it is the table of what the query means over the booked postings.
//!
//! The table of a program that doesn't read the accounts of transactions is the same over a ledger
//! without them ([`unread_accounts_may_be_left_out`]), and [`reads_accounts`] tells of a file whether
//! its program does.
//!
//! # Refusals
//!
//! [`answer_file`] tells those of `query_verifier` (`V1` to `V18`, with the byte), and then, as
//! [`table`] does, `M1` exactly where the ledger is outside the bounds. Each says what holds of the
//! bytes or of the ledger; only want of memory, and a pattern that isn't built, say nothing more.
//!
//! # Cost
//!
//! That of the check, of the run and of the table; the ledger is looked at once for whether it is
//! within the bounds. The answer's rows are kept until they are printed. [`answer_file`] gives up what
//! the values of each 512 rows own, as the counts of inventories, once these are printed, so that the
//! text comes to lie there: it stands in pieces ([`table_printer::TableText`]). The memory in which the
//! values themselves lay stays until the process ends.
#![tactic(auto)]

mod answering;
mod cause;
mod giving_up;
mod laws;
mod reading;
mod tables;

pub use answering::answer_file;
pub use cause::AnswerCause;
pub use laws::{one_table_each, unread_accounts_may_be_left_out};
pub use reading::reads_accounts;
pub use tables::{table, tabulated};
