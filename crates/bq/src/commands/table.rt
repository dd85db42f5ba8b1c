//! The table of a query file, which several commands ask for once they have a ledger.
ghost use Rattle.bq.specs.Ran.{HasTable};

use endings::{Cause, Refusal};
use posting_table::Ledger;
use query_tables::{AnswerCause, answer_file};
use std::alloc::Global;
use table_printer::TableText;

/// The table of what a query file that is accepted answers over a ledger.
pub fn table_of(alloc: Global, file: &[u8], ledger: &Ledger<'_>) -> Result<TableText, Refusal>
    ensures { HasTable file.now ledger.now result }
{
    match answer_file(alloc, file, ledger) {
        Ok(text) => Ok(text),
        Err(refusals::Refusal::Refused(AnswerCause::NotRun(_))) => {
            Err(Refusal::Refused(Cause::OutsideBounds))
        }
        // It is accepted, so memory lacks.
        Err(_) => Err(Refusal::OutOfMemory),
    }
}
