//! Postings: the lines of a transaction that change an account, with what they cost and what they
//! are priced at, each read from the front of a list of tokens.
//!
//! ```text
//! let found = tokens(alloc, "Assets:Inv  3 X {1 + 2.50 * 2 USD}")?;
//! // posting(alloc, found.as_slice()): a posting of 3 X at a cost of 6.00 USD.
//! ```
//!
//! A rule of the grammar stands in `specs/` as a form, and its reader has the same name, as in
//! `bean_grammar`: it gives a value exactly where a front of the tokens is of the form.
//!
//! # Outside the profile
//!
//! Forms that the language has and the books don't (total costs, prices without a number and the
//! like) are read and kept as a mark alone.
//!
//! # Cost
//!
//! Linear in the tokens. A posting has its amount and its line at hand, and lies apart where it has a
//! flag, a cost, a price, metadata or a number that is seldom as large ([`WrittenPosting`]): these, a lot
//! and a price take memory.
#![tactic(auto)]

mod cost;
mod cost_part;
mod details;
mod grammar;
mod posting;
pub mod posting_line;
mod price;
mod written_posting;

pub use cost::{Cost, LotParts};
pub use details::DetailParts;
pub use posting::{Posting, Units};
pub use price::Price;
pub use written_posting::WrittenPosting;
