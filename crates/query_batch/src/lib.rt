//! Batches: runs of several programs over one ledger, side by side, in turns of any order.
//!
//! ```text
//! let mut batch = Batch::new(alloc, &ledger, &programs)?;
//! batch.turn(2, 1)?;                          // run 2 makes one step, the others none
//! batch.turn(0, 1000)?;                       // Turn::Going, Turn::Done or Turn::Failed
//! for number in 0..batch.len() {
//!     match batch.member(number).answer() {
//!         Ok(Some(answer)) => ..,             // done
//!         Ok(None) => ..,                     // going
//!         Err(refusal) => ..,                 // M1 outside its bounds, M2 for want of memory
//!     }
//! }
//! ```
//!
//! Or all of them have turns of so many steps each, in the order of the programs, round by round,
//! until none can go on ([`run_to_end`]).
//!
//! Each run stands where its own turns lead it, as if there were no others. One that lacked memory
//! has failed for good, and the others go on.
//!
//! # Refusals
//!
//! - `Z1` ([`BatchCause::NoSuchRun`]): the batch has no run of this number. Nothing changes.
//!
//! A ledger outside the bounds of a program refuses no batch: its run stands for that.
//!
//! # Faults
//!
//! [`Batch::new`] and [`run_to_end`] answer an error where memory lacks before the first turn.
//!
//! # Cost
//!
//! That of the runs. All of them read the one ledger, and their programs. Each round looks at each
//! run, also where it has ended.
#![tactic(auto)]

mod batch;
mod cause;
mod laws;
mod member;
mod rounds;

pub use batch::Batch;
pub use cause::BatchCause;
pub use laws::runs_stand_by_their_own_turns;
pub use member::Member;
pub use rounds::run_to_end;
