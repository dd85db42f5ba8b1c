//! What pads and balances see of a ledger, step by step.

use bean_base::{Account, Amount, Day, Place};
use bean_directives::{Balance, Pad};

/// What pads and balances see of a ledger, one after the other.
#[derive(Drop)]
pub enum Step<'a> {
    /// So much goes to an account, by a posting of a written transaction.
    Posting(Account<'a>, Amount<'a>),
    /// A pad, with its day and its place.
    Pad(Pad<'a>, Day, Place),
    /// A balance, with its place and whether its account itself holds a lot of its currency.
    Balance(Balance<'a>, Place, bool),
}
