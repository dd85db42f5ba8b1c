//! Why a text is no pattern.
use refusals::Cause;
use thiserror::Error;

/// What keeps a text from being a pattern.
#[derive(Clone, Copy, Debug, Drop, PartialEq, Eq, Error)]
pub enum PatternCause {
    /// It is no regular expression, or one that would be too large.
    #[error("C2 pattern")]
    NotBuilt,
}

impl Cause for PatternCause {
    ghost use Rattle.query_values.specs.PatternCause as rule;

    ghost code_of = { rule.code_of };

    ghost place_of = { rule.place_of };

    fn code(&self) -> &'static str {
        match self {
            PatternCause::NotBuilt => "C2",
        }
    }

    fn place(&self) -> Option<usize> {
        None
    }
}
