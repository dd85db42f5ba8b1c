//! Booking: the postings of a loaded ledger, as the table that is listed and queried, and all that
//! is wrong in it.
//!
//! ```text
//! let loaded = load(alloc, &texts)?;
//! let ledger = book(alloc, loaded, Details::All)?;
//! ledger.len()                                 // how many postings there are
//!
//! let faults = find_faults(alloc, loaded)?;    // by file, line and number, equal ones once
//! ```
//!
//! What the directives come to is told by [`bean_replay`]. In their order, each transaction that is
//! kept gives a row for each posting that it is booked as, and each pad two for each balance that
//! uses it up. A row has what its transaction says too: payee, narration, tags, links, accounts and
//! metadata. The caller chooses how much of this is told ([`Details`]): all, or all but the set of
//! accounts, or neither that set nor tags, links and metadata. What is booked with few details is what
//! is booked with all of them but for those that aren't told.
//!
//! # Display decimals
//!
//! A currency shows as many decimals as the longest number that is written for units of it in a
//! transaction that is kept.
//!
//! # Faults
//!
//! `B1`: there are more than 4,000,000 postings. It is answered exactly there.
//!
//! # Cost
//!
//! What [`bean_replay`] costs, and the rows: those of a transaction are made as soon as it is booked,
//! and nothing else of it is kept. Where pads insert rows, all are moved once, piece by piece. Rows
//! hold slices of the ledger's texts, and no text is copied but those with an escape; what the
//! postings of a transaction have in common stands once. [`book`] looks for no fault that only tells
//! of what is booked, and [`find_faults`] makes no row, and counts those that there would be.
#![tactic(auto)]

mod booked;
mod counts;
mod decimals;
mod details;
mod entries;
mod faults;
mod laws;
mod ledger;
mod level;
mod metadata;
mod paddings;
mod rows;

pub use bean_replay::BookCause;
pub use booked::{book, find_faults};
pub use details::Details;
pub use laws::{details_refuse_nothing, one_book, only_details_are_left_out};
