//! Batches of query files.
ghost use Rattle.std.specs.Prelude.{◌≤◌, IfOk, map};
ghost use Rattle.std.specs.List.{AllByRecursion};
ghost use Rattle.query_fates.specs.Fates.{AreFatesOf, AreFilesFor, HasProgram, IsFileFor, verified};

use crate::tabulating::{Fate, fates};
use bean_base::List;
use posting_table::Ledger;
use query_verifier::check_file;
use std::alloc::{AllocError, Global};
use verified_program::Checked;

/// The program of a file that is accepted.
fn program_in<'f>(alloc: Global, file: &'f List<u8>) -> Result<Checked<'f>, AllocError>
    ensures { IfOk result (λ checked. IsFileFor file.now (verified checked)) }
{
    match check_file(alloc, file.as_slice()) {
        Ok(checked) => Ok(checked),
        // It is accepted, so memory lacks.
        Err(_) => Err(AllocError),
    }
}

/// The programs of files that are accepted.
fn programs_in<'f>(alloc: Global, files: &'f [List<u8>]) -> Result<Vec<Checked<'f>>, AllocError>
    ensures { IfOk result (λ programs. AreFilesFor files.now (map verified programs.items)) }
{
    let mut programs = Vec::with_capacity(alloc, files.len())?;
    for file in files {
        let program = program_in(alloc, file)?;
        programs.push(program)?;
    }
    Ok(programs)
}

/// What becomes over the ledger of the program of each file, as [`fates`] tells it. Each of the files
/// is accepted.
pub fn file_fates(
    alloc: Global,
    files: &[List<u8>],
    ledger: &Ledger<'_>,
    k: u64,
) -> Result<Vec<Fate>, AllocError>
    requires some { 1 ≤ k }
    requires accepted { ∥ AllByRecursion HasProgram files.now ∥₁ }
    ensures { IfOk result (λ fates. AreFatesOf ledger.now files.now fates.items) }
{
    let programs = programs_in(alloc, files)?;
    let ended = fates(alloc, &programs, ledger, k)?;
    Ok(ended)
}
