//! The directives of a ledger's text, its settings and its faults.
//!
//! ```text
//! let parsed = parse(alloc, "2014-01-01 open Assets:Cash\n\
//!     2014-01-02 * \"Shop\" \"Bread\"\n  Assets:Cash  -1.50 USD\n  Expenses:Food  1.50 USD\n")?;
//! // parsed.directives: an Open on line 1; a Transaction on line 2 with the payee Shop, the
//! // narration Bread and two postings. parsed.settings, parsed.faults: none.
//! ```
//!
//! A block is a line with a token in the first column, with the indented lines behind it; each
//! block gives its directive, its setting, its push or pop, or its one fault. The grammar, which
//! stands in `specs/Grammar`, has at most one tree for a block, and a text says one thing.
//!
//! Under a transaction stand postings, metadata entries and lines of tags and links, under another
//! directive entries alone. An entry belongs to the posting above it, or to the directive where no
//! posting precedes; the first entry of a key stands.
//!
//! A push gives its tag or entry to the transactions up to its pop, behind their own; of one tag or
//! key the latest push that is open gives alone. A pop takes back the latest push of its name.
//!
//! [`next_block`] and [`read_block`] read the blocks of a text one by one, for who wants some of them
//! alone.
//!
//! Names and texts are slices of the ledger's text: they cost no memory, and live as long as it
//! does. So nothing that a text says is larger than the text, which is a law
//! ([`texts_say_what_is_small`]).
//!
//! # Faults
//!
//! Of a block, the first of these, at its first line (`F1` at its token's), in file 0, by line:
//!
//! - `F1`, where it holds a token that is none of the language,
//! - `F2`, where the grammar has no tree for it,
//! - `F3`, where it has one, and a day that the calendar lacks stands there, or a number with more
//!   than 12 whole digits or 8 decimals,
//! - `F4`, where it is a pop of nothing, or a push that is open at the text's end; it gives
//!   nothing,
//! - `F5`, where it is a plugin or an option that the books don't have; it is ignored.
//!
//! # Cost
//!
//! Linear in the text, but that each tag and key that is open looks at each directive, once however
//! often it is pushed. It takes the memory of what it answers, of the tokens of the longest block,
//! and of the names of pushes and pops.
#![tactic(auto)]

mod block;
mod directives;
mod grammar;
mod next;
pub mod parse;
mod part;
mod plain;
mod reader;
mod sizes;
mod statement;
mod transaction;
mod under;

pub use bean_directives::{
    ApartDirective, Directive, DirectiveKind, Setting, SettingKind, Transaction,
};
pub use block::{Outcome, read_block};
pub use parse::Parsed;
pub use reader::next_block;
pub use sizes::texts_say_what_is_small;
pub use statement::Statement;
