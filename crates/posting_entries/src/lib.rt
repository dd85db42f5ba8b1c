//! What the postings of a transaction have in common, and what texts and metadata rows have.
//!
//! ```text
//! let none = NoExtras::new(alloc)?;                // once for all entries
//! let entry = Entry::new(alloc, &none, EntryParts {
//!     date: parse_day("2014-01-02")?,
//!     flag: EntryFlag::Written(Flag::Complete),
//!     payee: None,
//!     narration: PlainText::lent("Lunch"),
//!     tags: none.no_texts()?,
//!     ..                                           // links, accounts, metadata
//! })?;
//! entry.cell(Column::Narration)                    // Value::Text of Lunch
//! entry.metadata().text_under("receipt")           // None
//! ```
//!
//! A text ([`PlainText`]) is a slice of the ledger's text, and is made only where it is written with
//! an escape or stands for no text. The set of no tags may stand once for all ([`Shared`]), and so may
//! the [`Metadata`] of a written posting that became several.
//!
//! # Entries
//!
//! There is one for each transaction of a ledger, so an [`Entry`] takes 72 bytes. Nearly all have a
//! narration as it is written, and a payee that is so too, or none; few have tags, links or metadata.
//! So an entry keeps two slices, the accounts, the day and the mark, and refers to all else, which
//! stands once for all entries that have nothing of it ([`NoExtras`]). Contracts see the parts
//! ([`EntryParts`]) of which it was made.
//!
//! # Cells
//!
//! What an entry has in a [`Column`](query_terms::Column) is a `Value` of queries, lent from the entry:
//! texts as slices, sets by reference (`Lent`). Contracts see what is lent as the thing itself.
//!
//! # Cost
//!
//! `cell` takes a few steps, `text_under` looks at each item. The only cause of an error is want of
//! memory; `share` takes none, and fails only where a value is held as often as can be counted.
#![tactic(auto)]

mod entry;
mod extras;
mod metadata;
mod plain_text;
mod shared;

pub use entry::{Entry, EntryFlag, EntryParts, PlainParts};
pub use extras::NoExtras;
pub use metadata::{MetaItem, Metadata};
pub use plain_text::PlainText;
pub use shared::Shared;
