//! Reductions: which lots are taken where an account gives up some of what it holds.
//!
//! An account that holds 10 shares at 100 USD and 5 at 110 USD sells 12: its booking method says of
//! which lot. [`reduce`] answers what is taken of each, in order, and changes nothing: the caller
//! adds the takes to the inventory where it keeps the sale.
//!
//! ```text
//! let any = Selector { currency: shares, cost: None, day: None, label: None };
//! let takes = reduce(alloc, &held, &any, Num::parse("12")?.negated(), Method::Fifo)?;
//! // two takes: -10 of the first lot, -2 of the second
//! ```
//!
//! # What may be taken
//!
//! The candidates are the lots of the selector's currency that are held with the opposite sign of
//! the units that are asked for, and that agree with each part of the selector that is given: the
//! cost, the day and the label. So selling takes of lots that are held, and buying takes of lots
//! that are owed; a want of 0 has no candidate. A cost of 100 USD agrees with a lot at 100.00 USD.
//!
//! # What is taken
//!
//! Candidates are taken in order of day, the earliest first, under `Lifo` the latest first, and
//! those of one day in the order in which they came into the inventory. Each is taken whole before
//! the next is touched, and the takes together are what is asked for. Under `Strict` either there
//! is one candidate, or all are taken whole. There is at most one such list of takes, and `reduce`
//! answers it wherever there is one. Where there is none it answers
//!
//! - `F13`, where there is no candidate,
//! - `F14`, where the method is `Strict` and there are several,
//! - `F15` otherwise: the candidates together are too few.
//!
//! [`reduce_after`] answers the same for what is left of an inventory by takes that aren't in it
//! yet, which stand in an inventory of their own, and copies none. It looks at a rest of the
//! inventory that has all that is left, so that what is gone isn't passed by each of many reductions.
//! [`has_opposite`] tells whether some lot of a currency has the opposite sign, where it is known how
//! many there are of each.
//!
//! # Cost
//!
//! `reduce` looks at all that is held and sorts the candidates. `reduce_after` does so over the rest,
//! but where lots came in the order of their days, it looks at those about a selector's day alone;
//! and where it takes the earliest or the latest first, no further than the candidates that come to
//! the want. Under `Lifo` these are the first of the last day that has any; only where they are too
//! few, the last are gathered, with all others of their days. Under `Strict` it ends at several
//! candidates that come to more than the want, since these are ambiguous. Where a selector names a
//! cost or a label, and the inventory knows of which day the lots at it are, or how those that have
//! it were bought, only the one lot that may be a candidate is looked at, under each method.
//! `has_opposite` looks at counts alone.
#![tactic(auto)]

mod cause;
mod reduction;

pub use cause::LotCause;
pub use reduction::{Method, Selector, has_opposite, reduce, reduce_after};
