//! The postings of a transaction while it is tried.

use bean_base::{Account, Currency, List};
use bean_holdings::Posted;

/// What comes of a written posting before its transaction is completed.
#[derive(Drop)]
pub enum Line<'a> {
    /// Units as they are written, held as a lot or not.
    Posted(Posted<'a>),
    /// What a reduction takes of one lot.
    Take(Posted<'a>),
    /// A number of the currency is missing.
    MissingNumber(Account<'a>, Currency<'a>, usize),
    MissingAmount(Account<'a>, usize),
}

/// A transaction that was tried and can be booked.
#[derive(Drop)]
pub struct Tried<'a> {
    /// The postings that it is booked as.
    pub posted: List<Posted<'a>>,
    /// Whether it balances by them, where the trial weighed them.
    pub balances: Option<bool>,
}
