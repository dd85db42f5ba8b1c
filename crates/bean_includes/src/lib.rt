//! The include lines of a ledger's text, found before the rest of it is read.
//!
//! ```text
//! let lines = include_lines(alloc, "include \"2013.beancount\"\n2014-01-01 open Assets:Cash\n")?;
//! // One, on line 1, with the name 2013.beancount.
//! ```
//!
//! They are those among the settings that the text's blocks give, in their order, which is a law
//! ([`include_lines_are_settings`]). So a text says the same of its includes here as where it is
//! parsed, and what stands in a block at fault or within quotes is none.
//!
//! # Faults
//!
//! None: what is wrong with a block is told where the text is parsed.
//!
//! # Cost
//!
//! A text in which no line begins with the word `include` is searched for that by its bytes. Of any
//! other the tokens are read, and of its blocks those alone that begin with the word.
#![tactic(auto)]

mod includes;
mod laws;

pub use includes::{IncludeLine, include_lines};
pub use laws::include_lines_are_settings;
