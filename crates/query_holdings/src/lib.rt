//! What the inventories of queries hold: counts under keys that are lent from the ledger.
//!
//! ```text
//! let mut held = Holding::new(alloc);
//! held.add(BagKey::of(position.key()), 1_000)?;      // lends the key of the position
//! held.add(BagKey::bare(Lent::new(&usd)), 500)?;
//! held.get(&BagKey::bare(Lent::new(&usd)));          // 500
//! ```
//!
//! A [`Holding`] is seen as an account's inventory is, as the list of its positions in order of
//! entry, but knows nothing of lots that booking asks for: 48 bytes for each key ([`BagKey`]), which
//! is lent ([`Lent`]), and its count.
//!
//! A running balance is copied for each of its rows, and most rows have the keys of the row before. So
//! a copy of few positions ([`Kept`]) has no more than their counts, in a piece of 48 bytes, and their
//! keys stand once for all copies that have the same, in order of entry and in their own order.
//!
//! ```text
//! held.share_keys()?;
//! let kept = held.kept()?;             // None where positions are many, or a count has more than 64 bits
//! ```
//!
//! # Cost
//!
//! Few keys are compared one by one, and more are hashed, so that one is found in constant time. What
//! comes to 0 leaves a hole, until half of all are holes. To copy is linear in what is held. Entries in
//! the order of their keys ([`InOrder`]) are lent, 32 bytes for each; of a [`Kept`] they are there.
#![tactic(auto)]

mod bag_key;
mod entry;
mod holding;
mod holdings;
mod kept;
mod keys;
mod lent;

pub use bag_key::BagKey;
pub use entry::{Entry, InOrder};
pub use holding::Holding;
pub use holdings::Holdings;
pub use kept::Kept;
pub use lent::Lent;
