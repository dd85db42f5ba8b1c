//! The text of a table: rows of cells under the names of their columns, in columns as wide as a
//! terminal shows them.
//!
//! ```text
//! let mut rows = AnswerRows::new(alloc);
//! rows.push(&mut vec![in alloc;
//!     Value::Text(Slice::new("Assets:Cash")),
//!     Value::Position { key: Lent::new(&dollars), count: 10_000_000_000 },
//! ]?)?;
//! let answer = Answer {
//!     headers: List::new(vec![in alloc; Slice::new("account"), Slice::new("position")]?),
//!     rows,
//!     steps: 0,
//!     groups: 0,
//! };
//! let table = print(alloc, &AnswerTable::of(&answer), ledger.display())?;
//! // account      position
//! // -----------  ----------
//! // Assets:Cash  100.00 USD
//! ```
//!
//! # The text
//!
//! A line of names, a rule of `-` as wide as each column, then a line for each row, with two spaces
//! between columns and none at a line's end. A column is as wide as its widest name or cell by
//! `unicode_width`, and at least 1. Numbers stand right and their names over them, all else left. What
//! the text of a cell is, `cell_texts` tells.
//!
//! # Rows
//!
//! A table is printed of whatever gives rows of cells ([`Rows`]): an answer, which lends the values
//! that it keeps ([`AnswerTable`]), or a view of a ledger, which makes each cell when it is asked for
//! ([`Cell`]) and copies no text. A row is looked up once for all of its cells, in each of two
//! passes. Each row has as many cells as there are names.
//!
//! # Part by part
//!
//! Rows that are given up as they are printed make room for the text. So a [`Printer`] measures the
//! columns once over all of them, and lends nothing of them behind that; then it adds the lines of any
//! rows after others. Its text stands in pieces of memory ([`TableText`]).
//!
//! ```text
//! let mut printer = Printer::new(alloc, &none, &rows, display)?;  // none: no rows, of the same names
//! printer.push(&first, display)?;
//! printer.push(&second, display)?;
//! printer.into_text(display)?.write(&mut out)
//! ```
//!
//! # Faults
//!
//! `print` answers an error where memory lacks, as do the steps of a `Printer`. [`write_table`] makes the
//! whole text before it hands over the first byte; it answers `P1` with the count of bytes that were
//! taken, where the output failed or took nothing, and `M2` where memory lacks, with nothing handed over.
//!
//! # Cost
//!
//! Two passes over the rows: one measures the columns, one writes. A cell that is known to be no wider
//! than those before it isn't measured. A last column without numbers is
//! measured where it is written, since nothing fills it up in a row; so the head of a table is made last,
//! and changes places with the rows. Whether the last column has a number is looked up first.
//! The memory is that of the text, of a word or two for each column, and of what `cell_texts` uses again
//! for every cell. `print` takes room for a text at once, where its columns are narrow. A `Printer` takes
//! it in pieces of 48 KiB, as much as a ledger has for 1,024 rows, so that one lies where these were.
#![tactic(auto)]

mod answers;
mod cause;
mod fronts;
mod growing;
mod headings;
mod lines;
mod open;
mod printer;
mod rows;
mod table;
mod text;
mod writing;

pub use answers::{AnswerRow, AnswerTable};
pub use cause::PrintCause;
pub use cell_texts::Cell;
pub use printer::Printer;
pub use query_answer::Answer;
pub use rows::Rows;
pub use table::print;
pub use text::TableText;
pub use writing::write_table;
