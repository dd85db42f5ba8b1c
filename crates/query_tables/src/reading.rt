//! Whether the program of a query file reads the accounts of transactions.
ghost use Rattle.std.specs.Prelude.{◌≡◌, IfOk, false};
ghost use Rattle.plain_machine.specs.Unread as unread;
ghost use Rattle.query_code.specs.QueryFile.{IsFile};
ghost use Rattle.query_code.specs.declared.program.Parts.{Parts};
ghost use Rattle.query_tables.specs.Unread.{FileNeedsNoAccounts};

use query_file::decode;
use refusals::Refusal;
use std::alloc::{AllocError, Global};

/// Whether the program of a query file reads the accounts of transactions. Where it doesn't, a
/// ledger may be booked without them for it: what the file answers is the same
/// ([`unread_accounts_may_be_left_out`](crate::unread_accounts_may_be_left_out)). The file is
/// decoded for it and no more: whether it is accepted is left to [`answer_file`](crate::answer_file).
/// Of bytes that are no file it is told that they do.
pub fn reads_accounts(alloc: Global, file: &[u8]) -> Result<bool, AllocError>
    // Where it is told that it doesn't, it doesn't.
    ensures unread { IfOk result (λ reads. reads ≡ false → FileNeedsNoAccounts file.now) }
    // And of the file of a program it is told whether that does.
    ensures exact { (p : Parts) → IsFile file.now p
        → IfOk result (λ reads. reads ≡ unread.reads_accounts p) }
{
    match decode(alloc, file) {
        Ok(program) => Ok(verified_program::reads_accounts(&program)),
        Err(Refusal::OutOfMemory) => Err(AllocError),
        Err(Refusal::Refused(_)) => Ok(true),
    }
}
