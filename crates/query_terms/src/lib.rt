//! What queries and their programs name: the columns of postings, and numbers.
//!
//! # Columns
//!
//! Queries name them and tables show them ([`Column`]). Names are the same in small and in capital
//! letters. A column of a transaction is the same for all its postings, and FROM knows it. The
//! accounts of a transaction are a column as well, which no query can name: `HAS_ACCOUNT` reads it.
//! Prices belong to the second schema ([`limits::Version`]), all other columns to both.
//!
//! ```text
//! let column = Column::named("Cost_Number");             // Some(Column::CostNumber)
//! let name = Column::CostNumber.name();                  // cost_number
//! Column::CostNumber.is_of_transaction();                // false
//! Column::CostNumber.number();                           // 13, in the file of a query
//! ```
//!
//! # Numbers
//!
//! A query may write numbers that are wider than those of a ledger ([`Decimal`]).
//!
//! # Cost
//!
//! A few steps a call; a column's name is looked for among all. No memory.
#![tactic(auto)]

mod column;
mod decimal;

pub use column::{COLUMNS, Column, columns_are_numbered_once};
pub use decimal::Decimal;
