//! The texts of cells, and how wide they are.
//!
//! ```text
//! let mut scratch = Scratch::new(alloc);
//! let cell = Cell::position(&dollars, 10_000_000_000);
//! cell_width(&cell, display, &mut scratch)?;                 // 10
//! wider(4, &cell, display, &mut scratch)?;                   // 10
//! push_cell(&mut out, &cell, display, &mut scratch)?;        // 100.00 USD, and 10
//! push_left(&mut out, &cell, 12, 1, display, &mut scratch)?;  // the same, with three spaces behind it
//! push_right(&mut out, &cell, 12, 1, display, &mut scratch)?; // the same, with two before and one behind
//! ```
//!
//! # The text
//!
//! - Null is empty, truth is `TRUE` or `FALSE`. A number has the fewest decimals that are exact.
//! - Control characters of texts become spaces.
//! - An amount, the units of a position and what they cost have at least the decimals that their
//!   currency shows: `100.00 USD`, `5 HOOL {120.00 USD, 2014-01-02, "a label"}`.
//! - The texts of a set stand in the order of their bytes, with a `,` between.
//! - The entries of an inventory stand in the order of their currencies, then of their lots, none
//!   first, with `, ` between, whatever the order in which they came.
//!
//! A text is as wide as `unicode_width` says.
//!
//! # Cells
//!
//! A cell stands for a value of queries and lends its parts: a text, a day or a position that is made
//! a cell when it is asked for, or any value from where it is kept ([`Cell::kept`]).
//!
//! # Errors
//!
//! Want of memory; what was added before it may stay in the buffer.
//!
//! # Cost
//!
//! A few steps a byte, and fewer for what most cells have: printable ASCII texts, a number of few
//! decimals, a currency of three letters. The memory is that of a few buffers that every cell uses
//! again ([`Scratch`]), and of 32 bytes for each entry of an inventory while it is written, where the
//! order of its keys isn't known. Of inventories that follow one another most counts are the same: the
//! text of one is made once as long as it comes again.
#![tactic(auto)]

mod cell;
mod cells;
mod decimals;
mod inventories;
mod nears;
mod numbers;
mod positions;
mod widening;

pub use cell::Cell;
pub use cells::{
    Scratch, cell_width, is_number, push_cell, push_left, push_right, push_text_or_day,
};
pub use widening::wider;
