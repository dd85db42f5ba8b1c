//! What happens to accounts.

use bean_base::{Account, Currency, List};

/// What happens to accounts, one after the other.
#[derive(Drop)]
pub enum Step<'a> {
    /// The opening of an account, with the currencies that it may hold: all where none is listed.
    Open(Account<'a>, List<Currency<'a>>),
    Close(Account<'a>),
}
