//! Booking: what the directives of a ledger come to, one after the other.
//!
//! ```text
//! let loaded = load(alloc, &texts)?;
//! let booked = book_directives(alloc, loaded, FaultLog::new(alloc), bookings)?;
//! // booked.bookings: what has taken the transactions that are kept, each with the postings that
//! // it is booked as, and the places of pads, in the order of the directives;
//! // booked.pads: the pads, each with what it inserts;
//! // booked.faults: all that is wrong, since a log is given that keeps faults
//! ```
//!
//! Directives are taken in their order. A transaction is tried against what accounts hold, by the
//! method of each account ([`bean_transactions`]); its postings change what they hold where it is kept.
//! Opens and closes change which accounts are open ([`bean_accounts`]), and pads and balances are
//! told to a padder, with the postings that are booked before them ([`bean_pad`]). What is booked of
//! a directive is handed over at once ([`Bookings`]), and nothing of it is kept but what accounts
//! hold and pads and balances see; what comes of a pad is known once all directives are taken.
//!
//! The method of an account is the one that its first open names, for all transactions; else the
//! last that a line of the settings names; else `Strict`. A name of no method counts as not given.
//!
//! # Faults
//!
//! Those of a transaction that is dropped, `F11` to `F17`; of one that is kept `F18`, where it
//! doesn't balance, and `F6` to `F8` of its postings; `F6` of pads and balances; `F9`, `F10`; `F23`
//! of opens and of lines of the settings; and those of pads and balances, `F17` and `F19` to `F21`.
//! They go to a log that the caller gives. They change nothing of what is booked, so where the log is
//! off it isn't asked whether transactions balance, nor whether accounts are open.
//!
//! # Cost
//!
//! What the trials cost, and for each posting, pad and balance a few look-ups by names. A transaction
//! that was handed over is given up at once, and the next is booked in the memory of its postings.
#![tactic(auto)]

mod accounts;
mod booked;
mod booker;
mod booking;
mod bookings;
mod cause;
mod handed;
mod laws;
mod methods;
mod placed;
mod postings;
mod sizes;
mod steps;
mod written;

pub use booked::{Booked, book_directives};
pub use booking::{Booking, Kept};
pub use bookings::Bookings;
pub use cause::BookCause;
pub use laws::one_booking;
pub use sizes::booked_ledgers_are_small;
pub use written::{Written, WrittenParts};
