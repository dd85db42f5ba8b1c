//! What is told of query files, and made of them.
ghost use Rattle.query_files.specs.Files.{Lists, Outlines, Upgrades};

use query_code::{FileCause, show, upgrade};
use query_file::{decode, encode};
use query_verifier::{VerifierCause, check_file};
use refusals::Refusal;
use std::alloc::Global;

/// How deep the stack of a program becomes, and how many instructions its sections have.
#[derive(Clone, Copy, Drop, PartialEq, Eq)]
pub struct Outline {
    /// The most values that stand on its stack at once.
    pub depth: u16,
    pub filter: usize,
    pub row: usize,
    pub last: usize,
}

/// The outline of a query file that is accepted; or why it isn't.
pub fn outlined(alloc: Global, file: &[u8]) -> Result<Outline, Refusal<VerifierCause>>
    ensures { Outlines file.now result }
{
    let checked = check_file(alloc, file)?;
    Ok(Outline {
        depth: checked.depth(),
        filter: checked.filter().len(),
        row: checked.row().len(),
        last: checked.last().len(),
    })
}

/// The file, in the second version, of the program of a query file that is accepted; or why it
/// isn't.
pub fn upgraded(alloc: Global, file: &[u8]) -> Result<Vec<u8>, Refusal<VerifierCause>>
    ensures { Upgrades file.now result }
{
    let checked = check_file(alloc, file)?;
    let program = upgrade(alloc, &checked.program)?;
    let file = encode(alloc, &program)?;
    Ok(file)
}

/// The listing of a query file, accepted or not; or why the bytes are none.
pub fn listing(alloc: Global, file: &[u8]) -> Result<Vec<u8>, Refusal<FileCause>>
    ensures { Lists file.now result }
{
    let program = decode(alloc, file)?;
    let text = show(alloc, &program)?;
    Ok(text)
}
