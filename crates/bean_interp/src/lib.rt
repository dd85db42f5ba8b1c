//! What transactions weigh, what they lack, and whether they balance.
//!
//! ```text
//! // 2014-01-02 * "Shares"
//! //   Assets:Shares  3 X @ 0.335 USD
//! //   Assets:Fees    0.00 USD
//! //   Assets:Cash
//! let price = Amount { number: Num::parse("0.335")?, currency: usd };
//! let shares = Whole { units: three_x, decimals: 0, worth: Worth::PerUnit(price) };
//! let fees = Whole { units: no_usd, decimals: 2, worth: Worth::Units };
//! let legs = [Leg::Whole(shares), Leg::Whole(fees), Leg::MissingAmount];
//!
//! let mut scales = Scales::new(alloc);
//! let fills = scales.complete(alloc, &legs)?;     // leg 2 takes -1.00 USD: -1.005, to the even
//! ```
//!
//! A [`Leg`] is a posting as this crate sees it: its units and what they are worth, or what it
//! lacks. A weight is exact, in counts of `10^-16`: units times cost; else, with a price for each
//! unit, units times price; else, with a total price, the total with the sign of the units; else
//! the units. A transaction balances where the weights in each currency sum to no more than its
//! tolerance: half a unit of the last decimal, by the least positive count of decimals that is
//! written for units in it, and 0 where none has decimals.
//!
//! A leg that lacks its number takes minus what its currency sums to, rounded to those decimals, of
//! two as near to the even one, and exact where there are none; one that lacks its amount takes the
//! same of each currency that doesn't sum to 0, in order of first appearance. The calls change
//! nothing that they are lent.
//!
//! # Faults
//!
//! Two legs lack an amount, two a number of one currency, or one the one and one the other: `F11`.
//! A weight of `10^28` counts or more, a sum of `10^38` or more, signs left off, or an amount that
//! is no number of a ledger: `F17`.
//!
//! # Cost
//!
//! Linear in the legs. [`Scales`] are used again for the next transaction, so that memory is taken
//! only where legs lack something, or where more currencies come than before.
#![tactic(auto)]

mod cause;
mod due;
mod fill;
mod lacks;
mod leg;
mod precision;
mod scales;
mod sums;
mod weight;

pub use cause::{CompletionCause, WeighCause, completion_refusal};
pub use fill::Fill;
pub use leg::{Leg, Whole, Worth};
pub use scales::Scales;
pub use weight::{TooWide, Weight};
