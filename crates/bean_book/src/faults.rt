//! Faults in the order in which they are reported.
ghost use Rattle.std.specs.Prelude.{OnOk, ◌≡◌};
ghost use Rattle.bean_book.specs.Reported.{reported};

use bean_base::Fault;
use std::alloc::AllocError;

/// Puts faults in the order of their files, then of their lines, then of their numbers, and equal
/// ones once.
pub(crate) fn report(faults: &mut Vec<Fault>) -> Result<(), AllocError>
    ensures { OnOk result (faults.new.items ≡ reported faults.old.items) }
{
    faults.sort_by_key(|fault| ((fault.place.file, fault.place.line), fault.kind.number()))?;
    faults.dedup();
    Ok(())
}
