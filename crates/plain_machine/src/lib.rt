//! The plain machine: what a program means.
//!
//! A program's filter runs for each row of a ledger, its row section for each row that passes, and
//! its last section for each group. `specs/PlainMachine` says so in single steps, one for each
//! instruction, over values of any size; whatever can't be done is a fault. `specs/WholeRun` says
//! the same by whole sections. What is said of a program is said of this machine: that it has no
//! fault, what it costs in steps, and which rows come out.
//!
//! There is nothing to run here: the functions are laws, whose contracts say what holds of the
//! definition.
//!
//! ```text
//! filter 1    over three rows:    Done, with one row: 3
//! 0 TRUE                          after 4 steps, of 1 group
//! row 0
//! last 1
//! 0 LOAD_AGG 0
//! ```
//!
//! # What is a fault
//!
//! Too few operands, or more than 256 values on the stack; an operand, an input of an aggregate or
//! a value to order by of another kind or other decimals; other values at a section's end than the
//! program states; a column, a key, an aggregate, a slot or an entry of the pool that isn't there,
//! metadata behind the last row, a slot that is unset; a jump that doesn't lead on; decimals above
//! 32 or a count beyond `2^127 - 1`, sign left off, in a result, in the running inventory or in
//! what is gathered of the first inputs of a group.
//!
//! # Cost
//!
//! An instruction is a step. Grouping, and arranging the final rows, take none.
#![tactic(auto)]

mod laws;

pub use laws::{
    answers_are_reached, groups_are_of_their_members, programs_have_one_answer,
    readers_alone_need_the_running_inventory, rows_are_as_wide_as_their_targets,
    running_values_stand_alike, runs_come_to_their_answers, unread_accounts_may_be_left_out,
    upgrades_run_alike,
};
