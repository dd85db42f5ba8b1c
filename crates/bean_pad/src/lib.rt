//! Pads and balances: what pads insert, and which balances fail.
//!
//! A ledger says what an account holds when a day begins (a balance), and from which account it is
//! filled up to that (a pad). A [`Padder`] is told of the postings of written transactions, of pads
//! and of balances one after the other, while they are booked, and answers at the end what is
//! inserted behind each pad and what is at fault.
//!
//! ```text
//! // 2014-01-02 * "A"
//! //   Assets:Cash  30.00 USD
//! //   Equity:Open  -30.00 USD
//! // 2014-01-03 pad Assets:Cash Equity:Open
//! // 2014-01-05 balance Assets:Cash 100.00 USD
//! let mut padder = Padder::new(alloc);
//! padder.post(&cash, &thirty_usd)?;
//! padder.post(&open, &minus_thirty_usd)?;
//! padder.pad(pad, day, place)?;
//! padder.balance(&balance, place, false)?;
//! let padded = padder.finish()?;
//! // padded.pads: the pad, with one note: a padding of 70.00 USD; padded.faults: none
//! ```
//!
//! # What is inserted
//!
//! A pad waits for the first balance on its account in each currency, up to the next pad on it.
//! Where that balance is out of tolerance, a padding is inserted directly behind the pad: the
//! difference to the account, and minus it to the source, several in the order of their balances.
//! The difference is the balance's number less what the account and those below it hold by written
//! transactions, and less what earlier paddings of the account's own pads added to it.
//!
//! A tolerance is what is written for it, else one unit in the last decimal of the number, and 0
//! where the number is whole; a difference as great as the tolerance is within it.
//!
//! # Faults
//!
//! - `F21`, at the pad, where the account itself holds a lot of the currency: nothing is inserted.
//!   Whether it does is told with the balance.
//! - `F17`, at the pad, else, where the difference has more than 12 whole digits.
//! - `F20`, at the pad, where nothing came of it: no padding, no `F21` and no `F17`.
//! - `F19`, at the balance, where it is out of tolerance once all paddings stand, those of accounts
//!   below and of sources too. So a balance that was padded may fail.
//!
//! Where memory lacks, what the padder knew is lost.
//!
//! # Cost
//!
//! A posting takes a look-up of its account's name, and for the account and each above it one by a
//! number and a currency; so do the two postings of a padding. Nothing is hashed where what is looked
//! for stands where it was found last: a name by how it ends, a count by the number of its account and
//! its currency, that of an account above by the count of the one below. The first posting on an
//! account goes through its components too: each is looked up below the number of what stands above
//! it. So does a balance on an account that has no postings of its own. A pad and a balance take a few
//! look-ups more. `finish` goes over pads and balances alone. Memory is taken for each account and each
//! above it, and for each of their currencies, for each pad and for each balance. Sums are of 128 bits:
//! each is at most `10^20` times the number of steps, which is below `2^40`.
#![tactic(auto)]

mod balanced;
mod check;
mod counts;
mod laws;
mod note;
mod padder;
mod slot;
mod step;
mod sums;
mod table;
mod tolerance;
mod tree;

pub use note::{Note, NotedPad, Outcome};
pub use padder::{Padded, Padder};
pub use step::Step;
