//! What is computed for a query, numbered as a program has it.
//!
//! ```text
//! // "SELECT year, sum(number), 2 * sum(number) ORDER BY 2, max(month), year"
//! let query = parse_query(alloc, text)?;
//! let numbering = numbered(alloc, &query)?;
//! // numbering.shown:         year, sum(number), 2 * sum(number), and hidden behind them max(month)
//! // numbering.order:         1, 3, 0
//! // numbering.grouping.keys: year, since the query aggregates
//! // numbering.aggregates:    sum(number), once, and max(month)
//! ```
//!
//! A JOURNAL and a BALANCES are numbered as the SELECT that they stand for. So the rows of a BALANCES
//! have the rank of their account's root hidden behind what is shown, and are ordered by it.
//!
//! Of a query that has a type, each expression has a shape, and so has each of its parts, but for a
//! NULL that is a side of an equation: that is a law.
//!
//! # What is the same
//!
//! Expressions are the same where their trees are, places aside, and numbers where their counts and
//! decimals are. Targets and keys stand as they are written, also twice; where one is looked for,
//! the first counts. What only orders rows stands behind the targets, and aggregates are counted in
//! the order of reading over all of these; of both equal ones stand once.
//!
//! # Cost
//!
//! Each expression that is looked for is compared with those before it. A numbering takes memory for
//! its lists; expressions are lent.
#![tactic(auto)]

mod exprs;
mod laws;
mod plan;

pub use exprs::first_part;
pub use plan::{Numbering, numbered};
