//! What becomes of the programs of a batch.
ghost use Rattle.std.specs.Prelude.{◌≤◌, IfOk, map};
ghost use Rattle.query_fates.specs.Fates.{AreFates, IsFate, verified};
ghost use Rattle.query_batch.specs.Rounds.{IsEnd};

use bean_base::List;
use posting_table::Ledger;
use query_batch::{Member, run_to_end};
use query_machine::RunCause;
use query_tables::tabulated;
use refusals::Refusal;
use std::alloc::{AllocError, Global};
use verified_program::Checked;

/// What becomes of a program over a ledger.
#[derive(Drop)]
pub enum Fate {
    /// The table of what it comes to.
    Table(List<u8>),
    /// The ledger is outside its bounds.
    OutsideBounds,
    /// Memory lacked for its run or its table.
    OutOfMemory,
}

/// What becomes of a program whose run can't go on.
fn fate_of(alloc: Global, program: &Checked<'_>, run: &Member<'_, '_>, ledger: &Ledger<'_>) -> Fate
    requires { IsEnd ledger.now program.now run.now }
    ensures { IsFate ledger.now (verified program.now) result }
{
    match run.answer() {
        Ok(Some(answer)) => match tabulated(alloc, program, ledger, answer) {
            Ok(text) => Fate::Table(List::new(text)),
            Err(AllocError) => Fate::OutOfMemory,
        },
        Ok(None) => unreachable!(),
        Err(Refusal::OutOfMemory) => Fate::OutOfMemory,
        Err(Refusal::Refused(RunCause::OutsideBounds)) => Fate::OutsideBounds,
    }
}

/// What becomes of each program over the ledger. Their runs have turns of so many steps each, round
/// by round.
pub fn fates(
    alloc: Global,
    programs: &[Checked<'_>],
    ledger: &Ledger<'_>,
    k: u64,
) -> Result<Vec<Fate>, AllocError>
    requires { 1 ≤ k }
    ensures { IfOk result (λ fates. AreFates ledger.now (map verified programs.now) fates.items) }
{
    let batch = run_to_end(alloc, programs, ledger, k)?;
    let mut fates = Vec::with_capacity(alloc, programs.len())?;
    for (number, program) in programs.iter().enumerate() {
        fates.push(fate_of(alloc, program, batch.member(number), ledger))?;
    }
    Ok(fates)
}
