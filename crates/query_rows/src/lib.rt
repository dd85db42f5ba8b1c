//! The rows of a ledger as queries see them: the shapes of the values in their columns, and what
//! becomes of rows, which are grouped, put in order, told once and cut.
//!
//! What a query means and what a program gives are both told over these rows (`specs/Row`), so that
//! they can be compared. A ledger's table says which rows it has; whoever speaks of a query speaks
//! of a list of them.
//!
//! ```text
//! // date, account, number        ORDER BY number DESC LIMIT 2
//! 2014-01-02  Assets:Cash   5     2014-01-03  Assets:Bank  7
//! 2014-01-03  Assets:Bank   7     2014-01-02  Assets:Cash  5
//! 2014-01-04  Assets:Cash   1
//! ```
//!
//! # Shapes
//!
//! The typing of queries and the check of query files know of each value its kind, its decimals and
//! the most that its counts may be ([`Shape`]), by one table of rules. Of the ledgers that a query
//! runs on only their [`limits::Bounds`] are taken for granted: how many postings they have at most,
//! and how wide their counts are.
//!
//! ```text
//! let bounds = Bounds {
//!     schema: Version::Second,
//!     postings: 4_000_000,
//!     units_digits: 20,
//!     value_digits: 28,
//! };
//! column_shape(&bounds, Column::CostNumber)     // 8 decimals, below 10^20
//! let price = Shape::Number { places: 8, most: 99 };
//! binary_shape(Binary::Mul, price, price)       // Ok: a number of 16 decimals, at most 9801
//! binary_shape(Binary::Add, price, Shape::Text) // Err(Misfit::Kind)
//! ```
//!
//! Where an operation gives a shape, it may be applied to all values of its operands' shapes, and
//! its value can be held and is of that shape ([`operations_keep_shapes`]). Of lesser shapes it
//! gives lesser ones ([`rules_are_monotone`]), and shapes have least joins
//! ([`shapes_are_ordered`]). The same holds of what is gathered over at most so many values
//! ([`aggregates_keep_shapes`]). Within the limits of bounds each value of a column can be held
//! ([`columns_are_held`]).
//!
//! An operand that doesn't fit is one of another kind or of other decimals, or else gives a result
//! that might be too wide to be held ([`Misfit`]): a count beyond `2^127 - 1`, sign left off, or more
//! than 32 decimals.
//!
//! # Cost
//!
//! A few steps a rule. No memory. Of rows themselves there are definitions and laws alone, and
//! nothing runs.
#![tactic(auto)]

mod column_shapes;
mod laws;
pub mod rules;
mod shape;

pub use column_shapes::column_shape;
pub use laws::{
    aggregates_keep_shapes, columns_are_held, final_rows_are_one, lists_are_the_same_alike,
    operations_keep_shapes, rules_are_monotone, shaped_rows_have_short_texts, shapes_are_ordered,
};
pub use rules::{aggregate_shape, binary_shape};
pub use shape::{Misfit, Shape, fitting, joined};
