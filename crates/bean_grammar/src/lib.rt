//! What the lines of a ledger are made of: days, texts, number expressions, amounts, metadata, tags
//! and links, each read from the front of a list of tokens.
//!
//! ```text
//! let found = tokens(alloc, "1 + 2.50 * 2 USD")?;
//! // amount(found.as_slice()): 6.00 USD, and no token behind it.
//! ```
//!
//! A rule of the grammar stands in `specs/` as a form, and its reader has the same name: it gives a
//! value exactly where a front of the tokens is of the form, and that one, with what stands behind
//! it. What is read in one way by a rule has no other reading.
//!
//! # Out of range
//!
//! A day that the calendar lacks, and a number that is no number of the ledger, are read all the
//! same and make what they stand in [`Ranged::Outside`], so that what has no tree comes first. In
//! an expression each part counts, partial sums and products too.
//!
//! # Cost
//!
//! Linear in the tokens. Expressions are read to their values with no tree, and nest at most 200
//! deep. What takes memory: lists of tags, links and values. What these name ([`Tag`], [`Link`], [`MetaKey`])
//! is a slice of a token.
#![tactic(auto)]

pub mod amount;
pub mod entry;
pub mod expression;
pub mod front;
mod grammar;
pub mod literal;
pub mod mark;
mod metadata;
mod names;
pub mod number;
mod ranged;

pub use amount::AmountParts;
pub use mark::Mark;
pub use metadata::{MetaEntry, Value};
pub use names::{Link, MetaKey, Tag};
pub use ranged::Ranged;
