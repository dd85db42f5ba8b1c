//! What is the same for all postings of a transaction.

use bean_base::Day;

/// The day of a transaction, and its first line.
#[derive(Clone, Copy, PartialEq, Eq)]
pub struct Head {
    pub day: Day,
    pub line: usize,
}
