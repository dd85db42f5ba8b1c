//! The lots that accounts hold, and what a transaction leaves of them.
//!
//! ```text
//! let mut holdings = Holdings::new(alloc);
//! for posted in bought {                          // 10 X at 100 USD and 5 at 110 USD
//!     holdings.post(alloc, posted, 0)?;
//! }
//! let held = holdings.of(&shares, &nothing);      // these two lots
//! ```
//!
//! What an account holds is the sum of its postings, each held under its currency and its lot. Of
//! that [`Holdings`] keep the lots alone, since reductions and balances ask for nothing else: a
//! posting whose units have no lot is only counted.
//!
//! What a transaction takes of lots isn't taken from what is held until all of it is known: its
//! [`Takes`] are summed up beside, in [`Inventories`] of their own. [`LotsLeft`] tells how many lots
//! of each sign these leave, and [`Rests`] where they stand.
//!
//! # Cost
//!
//! [`Inventories`] are looked up by account, and change where they stand. A caller that numbers
//! accounts, from 0, may give the number with a posting: where the account was the last one with
//! that number its name is compared alone. For that 8 bytes are kept for each number up to the
//! greatest. [`Holdings`] count all postings: each sum is at most `10^20` times that count, which is
//! below `2^40`. Takes have no such count, since what they come to is a part of what is held. No
//! contract shows how either is kept. A take is counted in constant time among the lots that are
//! left, and the first and the last lots of an account that are taken whole are passed once for all
//! takes of a transaction.
#![tactic(auto)]

mod holdings;
mod inventories;
mod known;
mod lots_left;
mod posted;
mod rests;
mod takes;

pub use holdings::Holdings;
pub use inventories::Inventories;
pub use lots_left::LotsLeft;
pub use posted::Posted;
pub use rests::Rests;
pub use takes::Takes;
