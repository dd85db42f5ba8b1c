//! Instructions: what stands in the sections of a program.

use query_values::Binary;

/// An instruction that gives a value.
#[derive(Clone, Copy, Drop, PartialEq, Eq)]
pub enum Push {
    True,
    False,
    /// A constant of the pool.
    Const(u16),
    /// A column of the posting.
    LoadColumn(u8),
    /// A key of the group.
    LoadKey(u8),
    /// An aggregate of the group.
    LoadAggregate(u8),
    /// A metadata entry of the posting, by a key of the pool.
    Meta(u16),
    /// One of the transaction.
    EntryMeta(u16),
    /// One of the posting, else of the transaction.
    AnyMeta(u16),
}

/// An instruction that works on one value.
#[derive(Clone, Copy, Drop, PartialEq, Eq)]
pub enum Unary {
    /// To so many decimals.
    Align(u8),
    Neg,
    Abs,
    Not,
    IsNull,
    /// Whether a text matches a pattern of the pool.
    Match(u16),
    /// Whether some member of a set does.
    MatchAny(u16),
    /// Whether a value is in a list of the pool.
    InList(u16),
    Year,
    Month,
    Day,
    /// So many components of an account.
    Root(u8),
    Parent,
    Leaf,
    Length,
    Units,
    Cost,
    Number,
    Currency,
    RootRank,
}

/// An instruction.
#[derive(Clone, Copy, Drop, PartialEq, Eq)]
pub enum Instruction {
    Push(Push),
    Unary(Unary),
    Binary(Binary),
    LoadSlot(u8),
    StoreSlot(u8),
    /// To an instruction of its section, by its number.
    Jump(u16),
    JumpIfFalse(u16),
}
