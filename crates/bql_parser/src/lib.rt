//! Texts of queries, from bytes to what is asked.
//!
//! ```text
//! let query = parse_query(alloc, "SELECT account, sum(position) AS total ORDER BY total")?;
//! // the targets `account` and `total`, ordered by the target of index 1
//! parse_query(alloc, "SELECT foo")               // Part(PartCause::unknown_name(7))
//! parse_query(alloc, "SELECT number / 2")        // Part(PartCause::outside_profile(14))
//! parse_query(alloc, "SELECT account WHERE")     // Syntax(20)
//! ```
//!
//! A query is a SELECT, or a JOURNAL or a BALANCES, which stand for one, with at most one `;` behind
//! it. A target's name is what follows AS, or else its own text. An item that is a target's name, or
//! a bare whole number from 1, is that target ([`ItemKind::Target`]). Names ignore the case.
//!
//! # Faults
//!
//! The grammar stands in `bql_grammar/specs/Grammar`, over the tokens of the text, and what is asked in
//! `specs/Settled`. [`parse_query`] accepts exactly the texts of the grammar that have no cause.
//!
//! - `Q1` ([`QueryCause::Syntax`]): the text is outside the grammar. The place is that of the token
//!   that can't go on, or the text's end: the tokens before it begin a query.
//! - `Q2` ([`bql_tree::PartCauseKind::UnknownName`]): a name, or the number of a target, that isn't
//!   known.
//! - `Q3` ([`bql_tree::PartCauseKind::OutsideProfile`]): the language has it, and the profile leaves
//!   it out; or it stands above a limit: 65,535 bytes, 255 targets, 255 items of GROUP BY, 255 of
//!   ORDER BY, expressions 200 high. Of a text outside the grammar it is told where the token that
//!   can't go on is a `/`, a word that is left out, or a parenthesis, sign or NOT inside 200 others.
//!
//! In a text of the grammar the least place of all causes counts, and at one place `Q2`.
//!
//! # Cost
//!
//! Linear in the text, but for items that are names, which are looked for among the targets. A
//! query takes memory for its tokens, a box for each part of an expression, and its lists.
#![tactic(auto)]

mod asking;
mod cause;
mod laws;
mod parse;
mod query;
mod settling;
mod standing;

pub use cause::QueryCause;
pub use parse::parse_query;
pub use query::{Filters, Item, ItemKind, Order, Query, Target};
