//! The machine: runs of verified programs over ledgers, whole or in turns.
//!
//! ```text
//! let checked = check_file(alloc, &bytes)?;
//! let answer = run(alloc, &checked, &ledger)?;             // its names, rows, steps and groups
//!
//! let mut run = Run::start(alloc, &checked, &ledger)?;
//! run.turn(4);                                             // Turn::Going: 4 steps were made
//! run.turn(1_000_000);                                     // Turn::Done: at its end
//! let answer = run.answer();                               // Some
//! ```
//!
//! One step is one instruction. A run goes on by as many as a turn allows, stops between two of
//! them, and goes on from there with its next turn; so many runs can share a processor. What comes
//! between sections, groups among it, and how the rows come out at the end are no steps.
//!
//! What a run answers is what the plain machine answers (`plain_machine`), by which programs mean
//! something. The program was verified, so no instruction tests its operands, and no push on the
//! stack takes memory.
//!
//! # Refusals
//!
//! - `M1` ([`RunCause::OutsideBounds`]): the ledger isn't within the bounds of the program, told
//!   before the first step and without memory.
//!
//! Where memory lacks, `run` and [`Run::start`] answer so, and a turn leaves its run failed.
//!
//! # Cost
//!
//! A posting that doesn't pass takes no memory, and one that does room for its row, behind the others
//! in one piece of memory, or that of its keys where these are new. A turn goes on where its run lies,
//! and moves nothing of it. At the end the rows are ordered by their numbers where there is something
//! to order by, and brought into that order once (see `query_answer`).
//!
//! Where rows are cut at a limit and not told once, a run keeps at most twice as many, with those of
//! 4,096 steps, or of 64 where rows may hold copies of the running inventory: it lets go of the others
//! on its way, most of them with one comparison each.
#![tactic(auto)]

mod advancing;
mod cause;
mod laws;
mod progress;
mod runs;
mod turn;
mod whole;

pub use cause::RunCause;
pub use laws::turns_add_up;
pub use runs::Run;
pub use turn::Turn;
pub use whole::run;
