//! Inventories of queries: what they hold, with the decimals of their counts.
//!
//! ```text
//! let bag = Bag { places: 8, held: Holding::new(alloc) };
//! let mut own = OwnBag::new(alloc, bag)?;                  // in memory of its own
//! own.add(BagKey::of(position.key()), 1_000)?;
//! let copy = own.clone()?;                                 // 48 bytes where it has few positions
//! let units = own.units(alloc)?;                           // without its lots
//! ```
//!
//! A [`Bag`] counts in `10^-places`. An [`OwnBag`] is a bag that lies apart, so that what has one among
//! other values stays small; contracts see the bag itself. A running balance is copied for each of its
//! rows: so a copy lies in few bytes where its positions are few, and where they are many a copy that is
//! only gone through ([`OwnBag::listed`]) is a list.
//!
//! # What may be asked
//!
//! For units and costs no sum on the way may be too large, and costs want room for 8 decimals more. To
//! add a count wants to know that the sum fits.
//!
//! # Faults and cost
//!
//! Memory may lack. A copy is linear in what is held, and so are units and costs.
#![tactic(auto)]

mod bag;

pub use bag::{Bag, OwnBag};
