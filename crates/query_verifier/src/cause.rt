//! Why a file isn't accepted.
ghost use Rattle.std.specs.Prelude.{◌≡◌};

use query_code::FileCause;
use refusals::Cause;
use std::fmt;
use verify_programs::CodeCause;

/// What keeps bytes from being a query file that is accepted, and at which byte.
#[derive(Clone, Copy, Debug, Drop, PartialEq, Eq)]
pub enum VerifierCause {
    /// They are no query file.
    File(FileCause),
    /// They are one, of a program that has no shapes, or with bounds or patterns that can't be.
    Code { cause: CodeCause, place: usize },
}

impl Cause for VerifierCause {
    ghost use Rattle.query_verifier.specs.VerifierCause as rule;

    ghost code_of = { rule.code_of };

    ghost place_of = { rule.place_of };

    fn code(&self) -> &'static str {
        match self {
            VerifierCause::File(file) => file.code(),
            VerifierCause::Code { cause, .. } => cause.number(),
        }
    }

    fn place(&self) -> Option<usize> {
        match self {
            VerifierCause::File(file) => file.place(),
            VerifierCause::Code { place, .. } => Some(*place),
        }
    }
}

impl fmt::Display for VerifierCause {
    fn fmt<W: fmt::Write>(&self, f: &mut fmt::Formatter<W>) -> fmt::Result {
        match self {
            VerifierCause::File(file) => fmt::Display::fmt(file, f),
            VerifierCause::Code { cause, place } => write!(f, "{cause} at {place}"),
        }
    }
}
