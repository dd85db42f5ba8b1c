//! Why a run of a batch has no turn.
use refusals::Cause;
use thiserror::Error;

/// What keeps a run from a turn.
#[derive(Clone, Copy, Debug, Drop, PartialEq, Eq, Error)]
pub enum BatchCause {
    /// The batch has no run of this number.
    #[error("Z1 no such run")]
    NoSuchRun,
}

impl Cause for BatchCause {
    ghost use Rattle.query_batch.specs.BatchCause as rule;

    ghost code_of = { rule.code_of };

    ghost place_of = { rule.place_of };

    fn code(&self) -> &'static str {
        match self {
            BatchCause::NoSuchRun => "Z1",
        }
    }

    fn place(&self) -> Option<usize> {
        None
    }
}
