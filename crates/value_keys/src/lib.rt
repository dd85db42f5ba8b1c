//! Lists of values as the keys of tables.
//!
//! ```text
//! let mut seen = IndexSet::new(alloc);
//! let row = ValueKey::new(vec![in alloc; Value::Number { places: 1, count: 50 }, Value::Null]?);
//! seen.insert(row)?;                   // 5.00 and null are there then, too
//! let is_seen = seen.contains(&LentKey::new(&values));    // no key is made for that
//! ```
//!
//! Two keys are the same where they have as many values and each is the same as the other's: null
//! as null, numbers by value, inventories by what they hold, in any order.
//!
//! # Faults
//!
//! None.
//!
//! # Cost
//!
//! Nothing takes memory. Of an inventory the hash tells the sum of what its entries are hashed to, so
//! that the order of these doesn't matter.
#![tactic(auto)]

mod feeding;
mod key;
mod lent_key;

pub use key::ValueKey;
pub use lent_key::LentKey;
