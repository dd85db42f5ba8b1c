//! How the rows of a program come out: in order, each once where that is asked for, and at most so
//! many.
//!
//! ```text
//! // ORDER BY 2 DESC LIMIT 2: the output names column 1, from its end, and 2 rows
//! let rows = finish(alloc, &program.parts.output, rows)?;
//! ```
//!
//! Rows that tie stay as they stood, from whichever end of the order they are taken; null comes
//! first in it. Of rows that show the same the first one stays. Columns behind those that are shown
//! go at the end.
//!
//! While rows still come, [`trim`] lets go of those that can't come out any more: where they aren't
//! told once and there is a limit, so many in the front of the order are enough.
//!
//! # Faults
//!
//! [`finish`] and [`trim`] answer an error where memory lacks.
//!
//! # Cost
//!
//! What is ordered are the numbers of rows, 8 bytes each, by stable sorts, for the last columns
//! first. Where the values of a column are numbers of the same decimals, days, or at most 4,096
//! different texts, a word of 8 bytes stands for each of them. How far a word is above the least is
//! a digit of a code of 8 bytes, which takes in as many columns as it has room for: so there is one
//! sort for all of these. What is sorted are keys of 8 bytes, a code with the number of its row
//! behind it, where both have room, and else pairs of 16: that takes some 40 bytes a row. Where a
//! column has no words, and where only a few rows are ordered, what is sorted is what the values
//! are ordered by, in 96 bytes a row. All of it lies side by side, so that no row is looked up
//! where two are compared. And there is a table of what the rows show that are told once, where
//! they lie. Then the rows that come out are moved side by side in their order, and never copied;
//! where all of them do, they change places where they lie. Where there is nothing to order by, and
//! they aren't told once, none is moved. What [`trim`] leaves is at most twice the limit, in memory
//! of its own size. Where there are more, it compares each row once with the last of those in
//! front, and sorts what comes before it.
#![tactic(auto)]

mod codes;
mod keys;
mod ordering;
mod rank;
mod showing;
mod trimming;
mod words;

pub use showing::finish;
pub use trimming::trim;
