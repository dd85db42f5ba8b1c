//! The shapes of a query's expressions: which shape each leaf has, and each operation gives; what the
//! machine does for an operator, and which aggregate a function is.
//!
//! ```text
//! let number = column_shape(&bounds, Column::Number);      // 8 decimals, below 10^20
//! binary_shape(BinaryOperator::Times, number, number)      // Err(Misfit::TooWide)
//! let bounds = Bounds { units_digits: 14, ..bounds };
//! let number = column_shape(&bounds, Column::Number);
//! binary_shape(BinaryOperator::Times, number, number)      // Ok: 16 decimals
//! call_shape(&bounds, Function::Units, &[Shape::Text])     // Err(Misfit::Kind)
//! operation_of(BinaryOperator::Times)                      // Operation::Plain(Binary::Mul)
//! aggregate_for(Function::Sum, Some(number))               // Some(Aggregate::Sum(8))
//! ```
//!
//! # What is taken for granted
//!
//! Of the ledgers that a query runs on only their [`limits::Bounds`]: how many postings they
//! have at most, and how wide their counts are. A column has the shape that `query_rows` tells.
//!
//! # One table
//!
//! An operation of the query language is one of the machine's (`query_rows`), where numbers of
//! different decimals were brought to the greater count first. So what is given a shape here can be
//! computed there. Which operation an operator is, and which aggregate a function, is told here for
//! whoever types queries and whoever compiles them. A new function is a row in the code, and one in
//! `specs/`.
//!
//! # Misfits
//!
//! An operand of another kind than the operation takes, or a wrong count of arguments; else a value
//! that might be too wide to be held: a count beyond `2^127 - 1`, sign left off, or more than 32
//! decimals.
//!
//! # Cost
//!
//! A few steps for an operation, and for a list as many as it has members. No memory.
#![tactic(auto)]

mod calls;
mod leaves;
mod operators;

pub use calls::{aggregate_for, call_shape};
pub use leaves::leaf_shape;
pub use operators::{Operation, binary_shape, operation_of, unary_shape};
