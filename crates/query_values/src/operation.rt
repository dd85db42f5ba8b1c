//! The operations on two values, and what is gathered over many.

/// An operation on two values.
#[derive(Clone, Copy, Drop, PartialEq, Eq)]
pub enum Binary {
    Add,
    Sub,
    Mul,
    Equal,
    NotEqual,
    Less,
    AtMost,
    Greater,
    AtLeast,
    InSet,
}

/// What is gathered over the postings of a group.
#[derive(Clone, Copy, Drop, PartialEq, Eq)]
pub enum Aggregate {
    /// How many postings there are.
    CountRows,
    /// How many values there are.
    Count,
    /// A sum of numbers of so many decimals.
    Sum(u8),
    /// An inventory of amounts of so many decimals, or of positions at 8.
    SumInventory(u8),
    First,
    Last,
    Min,
    Max,
}
