//! Queries that have a type: each of their expressions has a shape within bounds of ledgers, and
//! what they ask stands where it may.
//!
//! ```text
//! let bounds = Bounds {
//!     schema: Version::Second,
//!     postings: 4_000_000,
//!     units_digits: 20,
//!     value_digits: 28,
//! };
//! let query = parse_query(alloc, "SELECT account, sum(position)")?;
//! type_query(alloc, &query, &bounds)              // Ok: the query with these bounds
//! // "SELECT account + 1"                            KindClash at 7
//! // "SELECT sum(number * number)"                   TooWide at 11
//! // "SELECT account, count(*) GROUP BY year"        NotGrouped at 7
//! ```
//!
//! # What is taken for granted
//!
//! That the bounds are some that a query may have: at most 4,000,000 postings, or 1,000,000 in the
//! first schema, 20 digits of units and 28 of values. Nothing of the query.
//!
//! # Faults
//!
//! A fault has the place of a byte, the first of the smallest expression at fault.
//!
//! - `Y1` ([`TypeCauseKind::KindClash`]): an operand is of another kind than the operation takes, or
//!   there are more or fewer of them; a filter is no truth value.
//! - `Y2` ([`TypeCauseKind::AggregateMisplaced`]): an aggregate stands inside an aggregate, in a
//!   filter, in a group item, or in an order item of a query that doesn't aggregate.
//! - `Y3` ([`TypeCauseKind::NotGrouped`]): in a query that aggregates a column or a metadata entry
//!   stands outside aggregates and outside what is the same as a key.
//! - `Y4` ([`TypeCauseKind::NotOrderable`]): an order item is no number, text or day.
//! - `Y5` ([`TypeCauseKind::TooWide`]): a value might be too wide to be held, on some ledger within the
//!   bounds.
//! - `Y6` ([`TypeCauseKind::BalanceMisplaced`]): the running balance stands in a filter, or in a query
//!   that aggregates.
//!
//! What stands where it may not has a shape all the same, so what is around it is looked at too.
//! All causes of the whole query are looked at, and the least is told: by place, and at one place
//! by number. What an item that names a target is refused for is told at the item.
//!
//! # Cost
//!
//! Linear in the query, but for columns of queries that aggregate, which are looked for among the
//! keys. A target is looked at once, however many items name it. A call takes memory for the shapes
//! of its arguments, and a query for the list of its keys and of what its targets are.
#![tactic(auto)]

pub mod aggregates;
mod balances;
mod cause;
pub mod gathered;
pub mod grouped;
pub mod grouping;
mod items;
mod laws;
pub mod same;
pub mod shaped;
mod targets;
mod typed;
mod typing;

pub use cause::{TypeCause, TypeCauseKind};
pub use typed::Typed;
pub use typing::type_query;
