//! What the machine computes for an expression of a query: over the columns of a row, or behind the
//! last row over the keys and the aggregates of a group.
//!
//! ```text
//! number > 1.5              Greater(number, Align 8 of 1.5)
//! payee = NULL              IsNull of payee
//! lineno IN (1, 2.5)        Among [1.0, 2.5] of (Align 1 of lineno)
//! 2 * sum(number)           Mul(2, the aggregate of index 0), behind the last row
//! ```
//!
//! Numbers are brought to the greater count of decimals where the machine wants equal ones; a side
//! that is NULL asks whether the other is null. Behind the last row the largest part that is the same
//! as a key is that key, and an aggregate is that of its index.
//!
//! # Faults
//!
//! None but want of memory: the expression has a shape within the bounds, and so has each of its
//! parts.
//!
//! # Cost
//!
//! Each part is compared with the keys and the aggregates, and the shapes of the operands of sums,
//! comparisons and lists are found anew, so sums and comparisons in one another cost their parts
//! times their height, which is at most 200. ANDs, ORs and products ask for no shape. Memory is taken
//! for each part.
#![tactic(auto)]

mod kind;
mod leaves;
mod lists;
mod lowering;
mod operations;
mod scope;

pub use lowering::{lower, lower_all};
pub use scope::Scope;
