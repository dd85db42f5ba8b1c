//! Why a query has no program.
use refusals::Cause;
use thiserror::Error;

/// What keeps a query from being compiled.
#[derive(Clone, Copy, Debug, Drop, PartialEq, Eq, Error)]
pub enum CompileCause {
    /// A section or the pool would be longer than a file holds, or there are too many aggregates.
    #[error("C1 too long")]
    TooLong,
    /// A pattern is no regular expression, or one that would be too large.
    #[error("C2 pattern")]
    NotBuilt,
    /// More values would stand on the stack than it holds.
    #[error("C3 too deep")]
    TooDeep,
}

impl Cause for CompileCause {
    ghost use Rattle.bql_compiler.specs.CompileCause as rule;

    ghost code_of = { rule.code_of };

    ghost place_of = { rule.place_of };

    fn code(&self) -> &'static str {
        match self {
            CompileCause::TooLong => "C1",
            CompileCause::NotBuilt => "C2",
            CompileCause::TooDeep => "C3",
        }
    }

    fn place(&self) -> Option<usize> {
        None
    }
}
