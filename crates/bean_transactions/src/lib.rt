//! Transactions that are tried against what is held: what one is booked as, or its first fault.
//!
//! ```text
//! // 2014-02-01 * "Sell"
//! //   Assets:Shares  -12 X {}
//! //   Assets:Cash    1300.00 USD
//! //   Income:Gain
//! let methods = Methods::new(alloc, Method::Fifo);
//! let mut holdings = Holdings::new(alloc);        // Assets:Shares has lots of 10 at 100 USD and
//! let mut scales = Scales::new(alloc);            // of 5 at 110 USD
//! let head = Head { day: parse_day("2014-02-01")?, line: 7 };
//! let weighing = Weighing::Always;
//! match try_transaction(alloc, &holdings, &methods, &mut scales, spare, head, postings, weighing) {
//!     // -10 X at 100 USD, -2 X at 110 USD, 1300.00 USD, and -80.00 USD for Income:Gain
//!     Ok(tried) => book(tried.posted),
//!     Err(Refusal::Refused(fault)) => report(fault),
//!     Err(Refusal::OutOfMemory) => return Err(AllocError),
//! }
//! ```
//!
//! A trial changes nothing: what is held changes once the whole transaction is known, when its
//! postings are posted one by one. So a transaction is booked whole or not at all, and nothing has
//! to be taken back.
//!
//! # What a posting comes to
//!
//! Units with a cost in braces are a reduction where a lot of their currency that is left in the
//! account has the opposite sign, unless the account's method is `None`. What is left is what the
//! account held before the transaction, less what the transaction's own earlier postings took; its
//! own additions don't count. A reduction becomes one posting for each lot that it takes, as
//! [`bean_reductions::reduce`] says.
//!
//! All other units in braces are added as a lot, of the cost in the braces, of their day or else
//! the transaction's, and of their label. Units without braces are held as they are.
//!
//! Then the transaction is completed: postings without a number or an amount take what is lacking,
//! as [`bean_interp::Scales::complete`] says. The decimals that count are those of the numbers that
//! are written; the takes of a reduction have those of its number.
//!
//! # Faults
//!
//! The first of these, in this order; `F13` to `F16` at the posting, the others at the transaction:
//!
//! - `F12`, where the form of a posting is outside the profile,
//! - posting by posting: of a reduction `F13`, `F14` or `F15`, as [`bean_reductions::reduce`] answers
//!   them; of an addition `F12`, where its braces have no cost, and `F16`, where that is below 0,
//! - `F11`, where too much is lacking to be filled in,
//! - `F17`, where a weight, a sum of weights or what is filled in is too wide.
//!
//! One thing comes of a transaction: its postings or its fault, by a law of this crate. Whether one
//! that is kept balances is told by [`balances`], and with the trial where no posting has a cost or
//! lacks something, or the last its amount alone: it is booked as it is written, and weighed once.
//! Where that isn't asked, and nothing stands beside the units of its postings, it isn't weighed.
//!
//! # Cost
//!
//! For each posting in braces, and for no other, a look-up in its account and what a reduction
//! costs in [`bean_reductions`]; that it is one is told by how many lots of each sign are left,
//! which are counted take by take. The first and the last lots of an account that are taken whole
//! are passed once for all sales of the transaction, and its takes are added up only where a later
//! posting in braces asks for what they leave. What is filled in is looked at once, and where the last
//! posting alone lacks its amount the others are laid on the scales as they are booked. What the
//! transaction is booked as stands in the memory of a list that is given, as that of an earlier one.
#![tactic(auto)]

mod completed;
mod lacking;
mod laws;
mod legs;
mod line;
mod lines;
mod outcome;
mod plain;
mod setting;
mod stock;
mod stop;
mod trial;

pub use legs::whole;
pub use line::{Line, Tried};
pub use setting::Head;
pub use stop::LineFault;
pub use trial::{Weighing, balances, try_transaction};
