//! Places in texts.

/// Where something is written in a ledger.
#[derive(Clone, Copy, Debug, Drop, PartialEq, Eq)]
pub struct Place {
    /// The number of its text in reading order, from 0.
    pub file: usize,
    /// Its line there, from 1.
    pub line: usize,
}
