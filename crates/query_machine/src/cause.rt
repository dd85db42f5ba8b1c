//! Why a program isn't run over a ledger.
use refusals::Cause;
use thiserror::Error;

/// What keeps a program from being run over a ledger.
#[derive(Clone, Copy, Debug, Drop, PartialEq, Eq, Error)]
pub enum RunCause {
    /// The ledger isn't within the bounds of the program.
    #[error("M1 ledger outside the bounds")]
    OutsideBounds,
}

impl Cause for RunCause {
    ghost use Rattle.query_machine.specs.RunCause as rule;

    ghost code_of = { rule.code_of };

    ghost place_of = { rule.place_of };

    fn code(&self) -> &'static str {
        match self {
            RunCause::OutsideBounds => "M1",
        }
    }

    fn place(&self) -> Option<usize> {
        None
    }
}
