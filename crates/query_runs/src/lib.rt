//! Runs of a program over a ledger: how one begins, how it goes on at a posting or at a group, and
//! what comes between its sections.
//!
//! ```text
//! let parts = &program.parts;
//! let input = Inputs { parts, ledger: &ledger, reads_running: reads_running(parts) };
//! let mut run = start(alloc, &input, patterns, depth)?;   // before the first instruction
//! let made = go_on(alloc, &input, &mut run, 1000)?;       // so many instructions, at most
//! if is_done(&run) { .. }                                 // run.into_rows() are its rows
//! ```
//!
//! A [`Run`] stands before an instruction of one of the program's sections, at a posting or at a
//! group, or it is at its end. [`go_on`] goes on by a number of instructions, at most to the end,
//! and tells how many they were.
//!
//! What comes between two sections isn't counted as a step: the running inventory takes the
//! posting's position where the program reads it, a row of the answer is kept, or its group gathers
//! what the posting brings. Each function here leaves the run where the plain machine then stands.
//!
//! # What is asked of the program
//!
//! That over the ledger it never faults, and that its stack never has more values than there is
//! room for. A verified program promises both over each ledger within the bounds of its header, and
//! so nothing is tested.
//!
//! # Faults
//!
//! Memory may lack. A run that met it can't go on.
//!
//! # Cost
//!
//! A run takes the memory of its stack where it begins. A posting that doesn't pass takes none; one
//! that does takes room for its row, behind the others in one piece of memory, or that of its keys
//! where these are new.
#![tactic(auto)]

mod ends;
mod going;
mod reading;
mod run;
mod starting;

pub use going::{go_on, is_done};
pub use reading::reads_running;
pub use run::{Inputs, Run, Stage};
pub use starting::start;
