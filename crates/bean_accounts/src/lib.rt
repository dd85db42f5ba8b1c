//! Accounts while a ledger is booked: which are opened, which are closed, what they may hold, and
//! how they choose among their lots.
//!
//! ```text
//! // 2014-01-01 open Assets:Cash USD
//! // 2014-03-01 close Assets:Cash
//! let mut accounts = Accounts::new(alloc);
//! let mut faults = FaultLog::new(alloc);
//! accounts.open(alloc, &cash, &[usd])?;
//! accounts.note_posting(&mut cash, &eur, at, &mut faults)?; // F8
//! accounts.close(&cash);
//! accounts.note_posting(&mut cash, &usd, at, &mut faults)?; // F7
//! ```
//!
//! [`Accounts`] are told of opens and closes one after the other. The first open of an account
//! counts, with its currencies; later ones are ignored. A close of an account that is open closes
//! it for good, any other does nothing.
//!
//! # Faults
//!
//! - `F6`, of a posting to an account that isn't opened by then; of pads and balances likewise,
//! - `F7`, of a posting to an account that is closed,
//! - `F8`, of a posting of a currency that the account's open doesn't list, where it lists some,
//! - `F9`, of an open of an account that was opened before,
//! - `F10`, of a close of an account that isn't open,
//! - `F23`, of a first open with the name of no method. [`method_named`] knows those there are.
//!
//! They go to a [`FaultLog`], which keeps them where anyone asks for them, and else stays as it is.
//!
//! # Cost
//!
//! A look-up by the account's name for each call, which of a posting is seldom more than a look where
//! an account with such an end was found last; a posting also looks for its currency among those that
//! the account's open lists, through all of them where they are few, else in a table. Memory is taken
//! for each account, and for each currency of its open.
//!
//! [`Methods`] knows the booking method of each account, by a look-up.
//!
//! A posting is told a number at which what else is kept of its account is looked for first, mostly
//! without a look-up; nothing rests on it. It is given the name that the open wrote too, so that all
//! postings on an account lend their names from one place.
#![tactic(auto)]

mod accounts;
mod currencies;
mod life;
mod log;
mod method;
mod methods;
mod step;

pub use accounts::Accounts;
pub use currencies::Currencies;
pub use life::Life;
pub use log::FaultLog;
pub use method::method_named;
pub use methods::Methods;
pub use step::Step;
