//! Expressions of a query, as trees.

use crate::function::Function;
use bean_base::{Day, Slice};
use query_terms::{Column, Decimal};

/// Whose metadata an entry is.
#[derive(Clone, Copy, Drop, PartialEq, Eq)]
pub enum MetadataOwner {
    /// `META`: the posting's.
    Posting,
    /// `ENTRY_META`: the transaction's.
    Transaction,
    /// `ANY_META`: the posting's, or else the transaction's.
    Any,
}

/// An expression without parts.
#[derive(Drop)]
pub enum Leaf<'a> {
    Column(Column),
    /// Stands as one side of `=` or `!=` alone.
    Null,
    Number(Decimal),
    /// A number that no machine holds: its digits, but for zeros in front of the whole part.
    TooWide(Slice<'a>),
    Text(Slice<'a>),
    Day(Day),
    Truth(bool),
    /// `COUNT(*)`
    Rows,
    /// The value of a metadata key.
    Meta(MetadataOwner, Slice<'a>),
    /// Whether an account of the transaction matches a pattern.
    HasAccount(Slice<'a>),
}

/// An operation on one expression.
#[derive(Drop)]
pub enum UnaryOperator<'a> {
    Not,
    Minus,
    /// `~` and its pattern.
    Matches(Slice<'a>),
    /// The first components of an account, so many.
    Root(u8),
}

/// An operation that stands between two expressions.
#[derive(Clone, Copy, Drop, PartialEq, Eq)]
pub enum BinaryOperator {
    Or,
    And,
    Equal,
    NotEqual,
    Less,
    LessOrEqual,
    Greater,
    GreaterOrEqual,
    In,
    Plus,
    Minus,
    Times,
}

/// An expression, each part with the place of its first byte in the query: that of an operation
/// between two is the first byte of its first, parentheses included. Parentheses and a `+` in front
/// are no parts. It is at most 200 parts high.
#[derive(Drop)]
pub enum Expr<'a> {
    Leaf(usize, Leaf<'a>),
    One(usize, UnaryOperator<'a>, Box<Expr<'a>>),
    Two(usize, BinaryOperator, Box<Expr<'a>>, Box<Expr<'a>>),
    Call(usize, Function, Vec<Expr<'a>>),
}
