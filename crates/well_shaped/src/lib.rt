//! Which programs are well shaped: those of which it is known beforehand that they run without a
//! fault over each ledger within the bounds of their header; and what holds of them.
//!
//! To each place of each section a state shape can be given: what is known of the values on the
//! stack and in the slots. `specs/Program` says so, without a word on how such shapes are found, so
//! that it can be the measure of whoever looks for them, and of whoever makes programs.
//!
//! ```text
//! filter        row           last
//! 0  TRUE       (empty)       0  LOAD_AGG 0
//!    [truth]    []               [number of 0 decimals, at most 1000000]
//! ```
//!
//! There is nothing to run here: the functions are laws, whose contracts say what holds of the
//! definitions.
//!
//! # Which programs are not
//!
//! Those with bounds outside the limits; a place that no instruction leads to; a jump that doesn't
//! lead on; a column, a key, an aggregate, a slot or an entry of the pool that isn't there, and a
//! slot that might be unset; operands of another kind or other decimals, or none; a value that
//! might be too wide, or more than 256 on a stack; places where paths meet with other kinds,
//! decimals or depths on the stack; and ends of sections with other values than the program states.
//!
//! # They run safely
//!
//! Which programs are well shaped is told by shapes alone, what a program does by values
//! (`plain_machine`). Over each ledger within the bounds of its header, a well shaped program runs to
//! its end without a fault, and with no more values on its stack than are told beforehand
//! ([`programs_run_safely_where_ledgers_fit`]). So whoever runs a verified program need not look for
//! faults. Besides its shapes the program is asked to have a file: a file states one target or more,
//! and its texts are short. Of the rows it is asked that they are no more than the header allows,
//! and that each cell and each text of metadata lies in the shape that the header's bounds give it.
//!
//! ```text
//! filter        row               last           at most 1000 postings of 12 digits
//! 0  TRUE       0  LOAD number    0  LOAD_AGG 0  1 aggregate: SUM, of 8 decimals
//!
//! over 1000 rows or fewer, of 12 digits at most: no fault, and one value on the stack
//! ```
//!
//! # They have files
//!
//! A program is parts that the file of a query can hold: counts of one byte or two, texts of at most
//! 65,535 bytes, operands that fit behind their opcodes. Of a well shaped program most of this is
//! known ([`well_shaped_programs_have_files`]). What its instructions name is there, so an index is
//! below the length of what it points into; a jump leads into its section; decimals are at most 32;
//! and no more values stand on the stack than 256, so that there are no more columns.
//!
//! # They stay so
//!
//! A file of the first version is brought to the second by `query_code::upgrade`, which changes the
//! version and nothing else: the program is well shaped as it was
//! ([`upgrades_are_well_shaped`]), and over all rows it runs as it did
//! ([`well_shaped_upgrades_run_alike`]). Which ledgers are within its bounds may change: in the second
//! version prices count too, and a ledger may have more postings than a file of the first version
//! can allow.
//!
//! # Cost
//!
//! None: these are laws, and nothing here runs.
#![tactic(auto)]

mod laws;

pub use laws::{
    depths_are_one, held_shapes_fit, instructions_keep_states,
    programs_run_safely_where_ledgers_fit, sections_are_followed, sections_are_monotone,
    sections_have_what_they_name, state_shapes_are_ordered, upgrades_are_well_shaped,
    well_shaped_programs_have_files, well_shaped_programs_run_safely,
    well_shaped_upgrades_run_alike,
};
