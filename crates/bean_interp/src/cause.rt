//! Why a transaction can't be weighed or completed.
ghost use Rattle.std.specs.Prelude.{◌≡◌};
ghost use Rattle.bean_interp.specs.Causes.{of_weighing};

use refusals::{Cause, Refusal};
use thiserror::Error;

/// Why legs can't be weighed.
#[derive(Clone, Copy, Debug, Drop, PartialEq, Eq, Error)]
pub enum WeighCause {
    /// A weight, a sum of weights or an amount that is due.
    #[error("F17 too wide")]
    TooWide,
}

impl Cause for WeighCause {
    ghost use Rattle.bean_interp.specs.Causes as rule;

    ghost code_of = { rule.weighing_code };

    ghost place_of = { rule.weighing_place };

    fn code(&self) -> &'static str {
        match self {
            WeighCause::TooWide => "F17",
        }
    }

    fn place(&self) -> Option<usize> {
        None
    }
}

/// Why a transaction can't be completed.
#[derive(Clone, Copy, Debug, Drop, PartialEq, Eq, Error)]
pub enum CompletionCause {
    /// Two legs lack an amount, two a number of one currency, or one the one and one the other.
    #[error("F11 several missing amounts")]
    LackTooMuch,
    /// A weight, a sum of weights or an amount that is due.
    #[error("F17 too wide")]
    TooWide,
}

impl Cause for CompletionCause {
    ghost use Rattle.bean_interp.specs.Causes as rule;

    ghost code_of = { rule.completion_code };

    ghost place_of = { rule.completion_place };

    fn code(&self) -> &'static str {
        match self {
            CompletionCause::LackTooMuch => "F11",
            CompletionCause::TooWide => "F17",
        }
    }

    fn place(&self) -> Option<usize> {
        None
    }
}

/// What keeps legs from being weighed keeps them from being completed.
pub fn completion_refusal(refusal: Refusal<WeighCause>) -> Refusal<CompletionCause>
    ensures { result ≡ of_weighing refusal }
{
    match refusal {
        Refusal::OutOfMemory => Refusal::OutOfMemory,
        Refusal::Refused(WeighCause::TooWide) => Refusal::Refused(CompletionCause::TooWide),
    }
}
