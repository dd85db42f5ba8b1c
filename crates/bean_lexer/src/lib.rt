//! The tokens of a ledger's text: each the longest slice at its place that is of a kind, or a
//! fault.
//!
//! ```text
//! let found = tokens(alloc, "2014-01-02 * \"Shop\" #home ; noon\n  Assets:Cash  -1.50 USD")?;
//! // the day, the sign *, the text and the tag on line 1; the account, the sign -, the number and
//! // the currency on line 2. The account's place is Indented, the day's is ColumnOne, the others'
//! // Inside.
//!
//! let mut lexer = Lexer::new("1 USD");
//! let number = lexer.next_token();       // Some, of the kind Number, whose text is "1"
//! ```
//!
//! A token is a slice of the text, with the place of its first byte, its line from 1, and its place
//! in the line. A text has one list of tokens.
//!
//! # What stands between tokens
//!
//! White space, line feeds, comments (from a `;` up to its line's end), and lines that begin with
//! `*`, `:` or `#` in the first column. A line feed within a text ends no line: the token behind
//! that text isn't in the first column, whatever stands before it.
//!
//! # Faults
//!
//! Tokens of the kind `Fault`: a text without an end, which reaches to the end of what is read; a
//! text with an unknown escape; a character that begins no token. The lexer goes on behind them.
//!
//! # Cost
//!
//! Linear in the text. [`tokens`] takes the memory of its list alone, and [`Lexer`] takes none.
#![tactic(auto)]

mod classes;
mod digits;
mod found;
mod gaps;
mod kind;
mod lexer;
mod names;
mod tables;
mod texts;
mod token;
pub mod token_at;
mod token_list;
mod words;

pub use classes::Space;
pub use digits::day_or_number;
pub use found::{Counted, Found, on_one_line};
pub use gaps::{Lead, Spot, gap_at};
pub use kind::{Keyword, Kind, Place, Sign};
pub use lexer::Lexer;
pub use names::{account_at, account_or_currency, is_code};
pub use tables::begins_token;
pub use token::Token;
pub use token_list::tokens;
