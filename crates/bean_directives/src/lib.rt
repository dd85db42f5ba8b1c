//! The first lines of blocks: directives, settings, pushes and pops, each with its type and its
//! reader.
//!
//! ```text
//! let found = tokens(alloc, "2014-01-01 open Assets:Cash USD")?;
//! // head(alloc, found.as_slice()): the day, and an Open of Assets:Cash that holds USD.
//! ```
//!
//! A rule of the grammar stands in `specs/Head` or `specs/Undated` as a form, and its reader has
//! the same name: it gives a value exactly where a front of the tokens is of the form, and that
//! one. Each first line is read in one way.
//!
//! What stands under a first line is read in bean_parser, which makes whole directives of both.
//!
//! # Out of range
//!
//! A line with a day that the calendar lacks, or with a number that is no number of the ledger, is
//! read all the same, to [`bean_grammar::Ranged::Outside`]. A tolerance below 0 is none, in range
//! or not.
//!
//! # Cost
//!
//! Linear in the tokens. Lists alone take memory, and a tolerance, whose sign is told of its exact
//! value.
#![tactic(auto)]

mod accounts;
mod apart;
mod directive;
pub mod head;
mod notes;
mod numbers;
mod payee;
mod stretch;
mod transaction;
pub mod undated;
mod worth;

pub use accounts::{Close, Open, Pad};
pub use apart::ApartDirective;
pub use directive::{Directive, DirectiveKind};
pub use notes::{Custom, Document, Event, Note, Query};
pub use numbers::{Balance, Commodity, Price};
pub use payee::Payee;
pub use stretch::Stretch;
pub use transaction::Transaction;
pub use undated::{Bound, PushName, Pushed, Setting, SettingKind, Undated, UndatedKind};
