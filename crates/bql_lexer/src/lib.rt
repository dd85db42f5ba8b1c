//! The tokens of a query: words, names, numbers, texts, days and signs, each the longest at its
//! place, with spaces, tabs, carriage returns and line feeds freely between them.
//!
//! ```text
//! let found = tokens(alloc, "SELECT account WHERE date >= 2014-02-01")?;
//! // the words SELECT and WHERE, the names account and date, the sign >= and the day
//! ```
//!
//! A word of the language is the same in small and in capital letters. A name is letters, digits
//! and `_`, and begins with no digit. A text stands in single or in double quotes, without escapes.
//! Ten characters of the shape `YYYY-MM-DD` are a day, whether the calendar has it or not.
//!
//! # Faults
//!
//! Where no token begins, or a text isn't closed, the last token is a [`Kind::Fault`], which is all
//! that is left.
//!
//! # Cost
//!
//! Linear in the text. A token is a slice of it; [`tokens`] takes the memory of its list.
#![tactic(auto)]

mod classes;
mod found;
mod kind;
mod token;

pub use kind::Kind;
pub use token::{Token, tokens};
