//! What an answer says, and the status that tells it.
ghost use Rattle.std.specs.Prelude.{◌≡◌};
ghost use Rattle.endings.specs.Verdict.{status_of};
ghost use Rattle.endings.specs.Verdict as spec;

use bean_base::Fault;
use fault_printer::are_serious;

/// What an answer says of what was asked about.
#[derive(Clone, Copy, Drop, PartialEq, Eq)]
pub enum Verdict {
    /// Books are fine, or it wasn't asked whether they are.
    Fine,
    /// Books have a fault that says more than that a line is ignored.
    Faulty,
    /// A ledger is outside the bounds of one of several programs.
    OutsideBounds,
    /// Memory lacked for one of several programs.
    OutOfMemory,
}

impl Verdict {
    /// 0; 1 where books have faults; and as in a refusal 2 where a ledger is outside bounds and 4
    /// where memory lacked.
    pub fn status(self) -> u8
        ensures { result ≡ status_of self }
    {
        match self {
            Verdict::Fine => 0,
            Verdict::Faulty => 1,
            Verdict::OutsideBounds => 2,
            Verdict::OutOfMemory => 4,
        }
    }
}

/// What the faults of books say of them.
pub fn verdict_of(faults: &[Fault]) -> Verdict
    ensures { result ≡ spec.verdict_of faults.now }
{
    if are_serious(faults) {
        Verdict::Faulty
    } else {
        Verdict::Fine
    }
}
