//! The table of postings that booking makes and that listings and queries read.
//!
//! A [`Ledger`] is a list of [`Row`]s, one for each booked posting, and a map of display decimals:
//! how many decimals a table shows at least of each currency.
//!
//! ```text
//! let mut ledger = Ledger::new(alloc);
//! let entry = Shared::new(alloc, Entry::new(alloc, &none, EntryParts {
//!     date: parse_day("2014-01-02")?,
//!     flag: EntryFlag::Written(Flag::Complete),
//!     payee: None,
//!     narration: PlainText::lent("Lunch"),
//!     ..                                           // tags, links, accounts, metadata
//! })?)?;
//! ledger.push(Row {
//!     entry: entry.share()?,
//!     account: parse_account("Assets:Cash")?,
//!     flag: None,
//!     position: Position {
//!         key: Key { currency: parse_currency("USD")?, lot: None },
//!         count: 10_000_000_000,                   // 100 USD, in units of 10^-8
//!     },
//!     weight: Weight { count: 1_000_000_000_000_000_000, currency: parse_currency("USD")? },
//!     price: None,
//!     metadata: Metadata::empty(),
//!     line: 7,
//! })?;
//! ledger.set_display(parse_currency("USD")?, 2)?;
//! let account = ledger.cell(0, Column::Account);   // Value::Text of Assets:Cash
//! let number = ledger.row(0).cell(Column::Number); // the same for several cells of a row
//! let date = ledger.row(0).date();                 // 2014-01-02
//! let receipt = ledger.row(0).entry_meta("receipt");   // None
//! let fits = ledger.fits(&bounds);
//! ```
//!
//! # Rows
//!
//! What the postings of a transaction have in common, its entry (`posting_entries`), stands once for
//! all of them, and so does the metadata of a written posting that became several. What units of a
//! currency are held as without a lot stands once for all rows of the currency, and a weight is kept
//! only where it isn't that of the units themselves.
//!
//! # Cells
//!
//! What a row has in a [`Column`] is a `Value` of queries, lent from where the row is kept: names
//! and texts as slices, sets and the keys of positions by reference (`Lent`). Contracts see what is
//! lent as the thing itself. By itself a posting has no balance. What listings show, its date, its
//! flag, its account, and the key and the count of its position, a row ([`HeldRow`]) lends without a
//! value around it, as it does what stands under a key of its metadata.
//!
//! # What may be asked
//!
//! `push` wants room, since a ledger holds at most [`limits::MOST_POSTINGS`], and a row whose cells lie in
//! the shapes that its columns have by the widest bounds: its texts are short and its counts small
//! ([`rows_of_small_parts_are_shaped`]). So in a ledger that is within narrower bounds
//! ([`Ledger::fits`]) they lie in the shapes by these. `cell` wants a row that is there, as does
//! `row`, which lends it whole. Rows are taken out, to be put back with others between them, by
//! `take_rows` and `put_back`; or part by part, to be given up one part after the other, by
//! `take_parts`. Of the other calls one that answers with an error left the ledger as it was; the only
//! cause is want of memory. `push_plain` adds a row that has nothing of its own but what it adds to its
//! account, as most have, and needn't look for more.
//!
//! # Cost
//!
//! A row is moved in once, and once more where it is taken out and put back; it takes 48 bytes. Where
//! it has a lot, a weight, a flag or metadata of its own, these lie apart. Rows lie in pieces of
//! 48 KiB, so that none is moved when there are more, and they take memory that others gave up.
//! `cell` and `len` take a few steps, `push` and `set_display` a few on the average, `meta` and
//! `entry_meta` look at each entry, and `fits` at each row, but for the widest bounds at none. `new`
//! takes no memory.
#![tactic(auto)]

mod beside;
mod bounded;
mod cells;
mod display;
mod held;
mod keys;
mod laws;
mod ledger;
mod row;

pub use display::Display;
pub use held::HeldRow;
pub use laws::{cells_lie_in_their_shapes, rows_of_small_parts_are_shaped};
pub use ledger::Ledger;
pub use ledger::parts::{LedgerPart, LedgerParts};
pub use ledger::taken::TakenRows;
pub use query_terms::Column;
pub use row::{PlainRow, Row, Weight};
