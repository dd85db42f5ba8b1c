//! Why a transaction isn't booked.
ghost use Rattle.std.specs.Prelude.{◌≡◌, Err, List};
ghost use Rattle.bean_interp.specs.Completion.{Completes};
ghost use Rattle.bean_interp.specs.declared.leg.Leg.{Leg};
ghost use Rattle.bean_transactions.specs.Lined.{fault_at};
ghost use Rattle.bean_transactions.specs.Outcome.{StopsAt};
ghost use Rattle.bean_transactions.specs.Tried.{LacksOrIsWide};

use bean_base::FaultKind;
use bean_interp::CompletionCause;
use refusals::Refusal;

/// A fault, with its line.
#[derive(Clone, Copy, Debug, PartialEq, Eq)]
pub struct LineFault {
    pub kind: FaultKind,
    pub line: usize,
}

pub(crate) fn refusal_at(kind: FaultKind, line: usize) -> Refusal<LineFault>
    ensures { result ≡ Refusal.Refused (fault_at kind line) }
{
    Refusal::Refused(LineFault { kind, line })
}

/// The fault of a transaction that can't be completed.
pub(crate) fn refusal_of(refusal: Refusal<CompletionCause>, line: usize) -> Refusal<LineFault>
    ensures { (legs : List Leg) → Completes legs (Err refusal)
        → StopsAt (LacksOrIsWide line legs) result }
{
    match refusal {
        Refusal::Refused(CompletionCause::LackTooMuch) => {
            refusal_at(FaultKind::SeveralMissingAmounts, line)
        }
        Refusal::Refused(CompletionCause::TooWide) => refusal_at(FaultKind::TooWide, line),
        Refusal::OutOfMemory => Refusal::OutOfMemory,
    }
}
