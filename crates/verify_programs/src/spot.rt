//! What causes stand at.
use crate::CodeCause;

/// What a cause stands at.
#[derive(Clone, Copy, Debug, Drop, PartialEq, Eq)]
pub enum Spot {
    /// The bounds of the header.
    Bounds,
    /// An entry of the pool, by its number.
    Pool(usize),
    /// An instruction of the filter, by its number; its end has the number behind the last.
    Filter(usize),
    /// One of the row section, or its end.
    Row(usize),
    /// One of the last section, or its end.
    Last(usize),
}

/// A cause and what it stands at.
#[derive(Clone, Copy, Debug, Drop, PartialEq, Eq)]
pub struct Fault {
    pub cause: CodeCause,
    pub spot: Spot,
}
