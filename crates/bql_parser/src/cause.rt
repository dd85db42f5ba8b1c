//! Why a text is no query.
use bql_tree::PartCause;
use refusals::Cause;
use thiserror::Error;

/// Why a text is no query.
#[derive(Clone, Copy, Debug, Drop, PartialEq, Eq, Error)]
pub enum QueryCause {
    /// It is outside the grammar: no token of it can stand at this byte.
    #[error("Q1 at {0}")]
    Syntax(usize),
    /// A part of it is unknown, or left out by the profile.
    #[error("{0}")]
    Part(PartCause),
}

impl Cause for QueryCause {
    ghost use Rattle.bql_parser.specs.QueryCause as rule;

    ghost code_of = { rule.code_of };

    ghost place_of = { rule.place_of };

    fn code(&self) -> &'static str {
        match self {
            QueryCause::Syntax(_) => "Q1",
            QueryCause::Part(cause) => cause.code(),
        }
    }

    fn place(&self) -> Option<usize> {
        match self {
            QueryCause::Syntax(place) => Some(*place),
            QueryCause::Part(cause) => cause.place(),
        }
    }
}
