//! The values of queries, and the operations on them.
//!
//! ```text
//! let a = Value::Number { places: 2, count: 1_250 };        // 12.50
//! let b = Value::Number { places: 2, count: 50 };
//! let sum = arithmetic::add(&a, &b);                        // 13.00
//! let parent = part::parent(&Value::Text(Slice::new("Assets:Cash")));   // Assets
//! let pattern = Pattern::new(alloc, "cash$")?;
//! let mut finder = pattern.finder(alloc)?;                  // one for each run
//! let is_cash = membership::matches(&account, &mut finder);
//! let mut total = Aggregate::SumInventory(8).start(alloc)?;
//! Aggregate::SumInventory(8).add(&mut total, &position)?;   // one input after the other
//! ```
//!
//! # Values
//!
//! A [`Value`] is null, a truth value, a number, a text, a day, a set of texts, an amount, a
//! position or an inventory. Names, texts, sets and the keys of positions are lent from where they
//! are kept ([`Lent`]), so that a value is small and an operation on numbers or texts takes no
//! memory; an inventory ([`Bag`]) owns its entries and lies apart ([`OwnBag`]). A value is itself what
//! contracts speak of: its counts and decimals have no bounds of their own, and `is_held` says which
//! a machine can hold. Null is the same as null, and comes first; comparisons with it but `equal`,
//! patterns and memberships are false, and arithmetic and parts of it are null.
//!
//! # What may be asked
//!
//! An operation that computes counts wants to know that its result is held: at most 32 decimals,
//! and a count of at most `2^127 - 1`, sign left off. `align`, `add` and `sub` want numbers whose
//! decimals fit, and `root` at least one component. For units and costs of an inventory no sum on
//! the way may be too large. All else takes any value.
//!
//! # Faults and cost
//!
//! `C2` ([`PatternCause`]), where a text is no regular expression or one that would be too large.
//! Else memory may lack, for patterns and inventories alone. An operation takes a few steps; on texts
//! it is linear in the text, on a list in the list, and on inventories it looks up each entry, by
//! going through the others where these are few. An inventory takes 48 bytes for each of its entries,
//! whose keys are lent ([`BagKey`]), and a copy that shares its keys ([`share_keys`]) 48 bytes in all
//! where it has at most five.
#![tactic(auto)]

pub mod arithmetic;
mod cause;
pub mod comparison;
mod component;
mod gathering;
pub mod membership;
mod number;
mod operation;
pub mod part;
mod pattern;
mod text_set;
mod value;

pub use cause::PatternCause;
pub use gathering::share_keys;
pub use operation::{Aggregate, Binary};
pub use pattern::{Finder, Pattern};
pub use query_bags::{Bag, OwnBag};
pub use query_holdings::{BagKey, Entry, Holding, Holdings, InOrder, Lent};
pub use text_set::TextSet;
pub use value::Value;
