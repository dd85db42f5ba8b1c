//! The tokens of a ledger's text by the kind that is expected next: nearly all postings have the same few, and
//! what else might stand there isn't looked at.
//!
//! ```text
//! let mut lexer = Lexer::new("2014-01-02 *\n  Assets:Cash  -1.50 USD\n");
//! let day = next_day(&mut lexer);           // Some: 2014-01-02
//! let star = next_inside(&mut lexer);       // Some: the sign *, the last token of its line
//! let account = next_account(&mut lexer);   // Some: Assets:Cash, which begins the next line
//! let number = next_number(&mut lexer);     // None: a sign stands there, and the lexer stays where it is
//! ```
//!
//! Each of these takes the token that is next, as [`bean_lexer`] defines it, or none and leaves the lexer as it
//! was. Where a token of the kind stands behind a gap that few texts have, as a comment, it may take none: so who
//! gets none asks the lexer itself. Nothing takes memory.
#![tactic(auto)]

mod expected;
mod spaces;
mod taking;

pub use taking::{
    is_before_column_one, next_account, next_currency, next_day, next_inside, next_minus,
    next_number, next_past_column_one,
};
