//! What the words of a command line ask for.
//!
//! ```text
//! request_in(alloc, &["list", "books"])?;       // Some(Request::List("books"))
//! request_in(alloc, &["batch", "0", "l", "f"])?; // None: a turn has one step or more
//! ```
//!
//! Each command has a name and the words behind it, as clap takes them (`specs/Commands`): a request
//! is one of them with its words.
//!
//! # Faults
//!
//! An error where memory lacks.
//!
//! # Cost
//!
//! Linear in the words.
#![tactic(auto)]

mod words;

pub use words::{Name, Request, request_in};
