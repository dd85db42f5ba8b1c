//! What keeps the code of a file from being well shaped.
ghost use Rattle.std.specs.Prelude.{◌≡◌};
ghost use Rattle.verify_programs.specs.CodeCause as spec;

use thiserror::Error;

/// What keeps the code of a file from being well shaped, and what comes with it: its bounds and its
/// patterns.
#[derive(Clone, Copy, Debug, Drop, PartialEq, Eq, PartialOrd, Ord, Error)]
pub enum CodeCause {
    /// A jump that doesn't lead on, or leads past the end of its section.
    #[error("V7 jump")]
    Jump,
    /// Fewer operands on the stack than are taken.
    #[error("V8 too few operands")]
    TooFew,
    /// More values on the stack than may stand there.
    #[error("V9 stack too deep")]
    TooDeep,
    /// Operands of a kind or of decimals that aren't taken, or paths that meet with others.
    #[error("V10 operands")]
    Operands,
    /// A column, a key or an aggregate that isn't known in the section.
    #[error("V11 unknown column, key or aggregate")]
    Unknown,
    /// A slot that isn't there, or that might be unset.
    #[error("V12 slot")]
    Slot,
    /// An entry of the pool that isn't there, or is of another kind.
    #[error("V13 pool entry")]
    PoolEntry,
    /// A value that might be too wide to be held.
    #[error("V14 too wide")]
    TooWide,
    /// Values at the end of a section that aren't those that it has to leave.
    #[error("V15 values at the end")]
    Values,
    /// A pattern that isn't built.
    #[error("V16 pattern")]
    Pattern,
    /// Bounds outside their limits.
    #[error("V17 bounds")]
    Bounds,
    /// A place that nothing leads to.
    #[error("V18 unreachable")]
    Unreachable,
}

impl CodeCause {
    /// The number that users see.
    pub fn number(self) -> &'static str
        ensures { result.now ≡ spec.code_of self }
    {
        match self {
            CodeCause::Jump => "V7",
            CodeCause::TooFew => "V8",
            CodeCause::TooDeep => "V9",
            CodeCause::Operands => "V10",
            CodeCause::Unknown => "V11",
            CodeCause::Slot => "V12",
            CodeCause::PoolEntry => "V13",
            CodeCause::TooWide => "V14",
            CodeCause::Values => "V15",
            CodeCause::Pattern => "V16",
            CodeCause::Bounds => "V17",
            CodeCause::Unreachable => "V18",
        }
    }
}
