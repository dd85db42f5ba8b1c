//! The book of texts: a ledger from its texts to its booked postings and its faults.
//!
//! ```text
//! let texts = gather(alloc, &mut store, "main.beancount")?;
//! let details = Details::All;
//! let ledger = book_of(alloc, &texts, details)?;    // its postings
//! let faults = faults_in(alloc, &texts)?;           // all that is wrong
//! ```
//!
//! [`bean_load`] reads what the texts say together, and [`bean_book`] books it. Texts have one book,
//! and not both a book and too many postings: that is proved beside (`OneBook`). The caller chooses
//! how much is told of transactions and postings ([`bean_book::Details`]): the book is the same but
//! for what isn't told.
//!
//! # Refusals
//!
//! `B1`: the texts have more than 4,000,000 postings. It is answered exactly there.
#![tactic(auto)]

mod booking;
mod laws;

pub use booking::{book_of, faults_in};
pub use laws::{details_refuse_nothing, only_details_are_left_out};
