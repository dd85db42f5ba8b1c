//! What a query answers.
//!
//! ```text
//! let mut rows = AnswerRows::new(alloc);
//! let mut row = vec![in alloc;
//!     Value::Text(Slice::new("Assets:Cash")),
//!     Value::Number { places: 0, count: 3 },
//! ]?;
//! rows.push(&mut row)?;                   // row is empty then, and keeps its room
//! let answer = Answer {
//!     headers: List::new(vec![in alloc; Slice::new("account"), Slice::new("count(*)")]?),
//!     rows,
//!     steps: 9,
//!     groups: 1,
//! };
//! answer.rows.row(0)                      // its values
//! ```
//!
//! Rows are handled by their numbers: whoever orders them orders these, and then picks the rows of
//! those that are left ([`AnswerRows::picked`]), side by side in that order.
//!
//! # Faults
//!
//! [`AnswerRows::push`] and [`AnswerRows::picked`] answer an error where memory lacks.
//!
//! # Cost
//!
//! The values of all rows lie one behind the other in one piece of memory, which grows as a vector
//! does, and beside it 16 bytes a row tell where they lie. From 65,536 values or rows on, either
//! takes room for two million at once, which costs nothing where it isn't written to. To cut rows,
//! or to show less of them, moves no value and gives none up. To give rows up
//! ([`AnswerRows::give_up`]) gives back what their values own, as the counts of inventories, and leaves
//! nulls in their places: the memory in which these lie stays. Where all rows are picked, and rows
//! of as many values lie one behind the other, they change places where they lie, and 4 bytes a row
//! are taken beside them. Else picked rows are moved once, to a piece of their size, which stands
//! beside the old one until then; the values of the others are given up with that.
#![tactic(auto)]

mod answer;
mod bringing;
mod places;
mod rows;
mod turns;

pub use answer::Answer;
pub use rows::AnswerRows;
