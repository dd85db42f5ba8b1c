//! Inventories: what an account holds.
//!
//! An account that buys 10 shares at 100 USD and later 5 at 110 USD holds two lots. An
//! [`Inventory`] keeps them, each under the key of its currency, cost, day and label, beside what
//! is held of a currency without a lot.
//!
//! ```text
//! let mut held = Inventory::new(alloc);
//! held.add(first, 1_000_000_000)?;        // 10 shares, as a count of 10^-8
//! ```
//!
//! # Cost
//!
//! Keys are compared one by one where they are few, and hashed where they are more, so `get` and
//! `add` take constant time, whatever is held: what is gone leaves a hole, and holes are swept out
//! where they are half of all, those behind all that is held at once, but for a few. A key that comes
//! back while its hole is there goes last, which is linear where that isn't the last slot. Lots are
//! counted by currency and sign, so that `has_lot` and `signs_of` take constant time too.
//!
//! What is held is looked at from either end. Where lots came in the order of their days,
//! `Positions::about` finds those of a day by halves. Where there are more than a few,
//! `positions_at` finds the lot of a cost in constant time, if the lots at costs of that number,
//! whatever the currency, are of one day and without a label, and `positions_labelled` the lot of a
//! label, if the lots that have it were bought at one cost on one day. What tells it takes some 60
//! bytes for each number that lots cost, and some 120 for each label. No contract shows what is kept.
#![tactic(auto)]

pub mod inventory;

pub use inventory::{Inventory, Signs};
