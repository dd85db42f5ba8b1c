//! Why a file gives no table.
use query_machine::RunCause;
use query_verifier::VerifierCause;
use refusals::Cause;
use std::fmt;

/// What keeps a file from giving a table over a ledger.
#[derive(Clone, Copy, Debug, Drop, PartialEq, Eq)]
pub enum AnswerCause {
    /// The verifier doesn't accept it.
    NotAccepted(VerifierCause),
    /// Its program isn't run over the ledger.
    NotRun(RunCause),
}

impl Cause for AnswerCause {
    ghost use Rattle.query_tables.specs.AnswerCause as rule;

    ghost code_of = { rule.code_of };

    ghost place_of = { rule.place_of };

    fn code(&self) -> &'static str {
        match self {
            AnswerCause::NotAccepted(cause) => cause.code(),
            AnswerCause::NotRun(cause) => cause.code(),
        }
    }

    fn place(&self) -> Option<usize> {
        match self {
            AnswerCause::NotAccepted(cause) => cause.place(),
            AnswerCause::NotRun(cause) => cause.place(),
        }
    }
}

impl fmt::Display for AnswerCause {
    fn fmt<W: fmt::Write>(&self, f: &mut fmt::Formatter<W>) -> fmt::Result {
        match self {
            AnswerCause::NotAccepted(cause) => fmt::Display::fmt(cause, f),
            AnswerCause::NotRun(cause) => fmt::Display::fmt(cause, f),
        }
    }
}
