//! The table of a verified program.
ghost use Rattle.std.specs.Prelude.{◌≡◌, IfOk, true};
ghost use Rattle.posting_table.specs.Rows.{rows_of};
ghost use Rattle.query_machine.specs.RunOf.{IsRunOf};
ghost use Rattle.query_rows.specs.Fits.{fits};
ghost use Rattle.query_tables.specs.Table.{IsTableOf, Tabulates};

use posting_table::Ledger;
use query_answer::Answer;
use query_machine::{RunCause, run};
use refusals::Refusal;
use std::alloc::{AllocError, Global};
use table_printer::{AnswerTable, print};
use verified_program::Checked;

/// The table of what a run of a program answered over a ledger, which is within its bounds.
pub fn tabulated(
    alloc: Global,
    program: &Checked<'_>,
    ledger: &Ledger<'_>,
    answer: &Answer<'_>,
) -> Result<Vec<u8>, AllocError>
    requires within { fits program.now.program.parts.bounds (rows_of ledger.now) ≡ true }
    requires answered { IsRunOf program.now.program.parts (rows_of ledger.now) answer.now }
    ensures { IfOk result (λ text. IsTableOf program.now.program.parts program.now.depth ledger.now
        text.items) }
{
    // So its cells lie in the shapes that columns have by the program's bounds.
    prove!(ledger.fits(&program.program.parts.bounds));
    let text = print(alloc, &AnswerTable::of(answer), ledger.display())?;
    Ok(text)
}

/// The table of what a program answers over a ledger, or `M1` where the ledger is outside its
/// bounds.
pub fn table(
    alloc: Global,
    program: &Checked<'_>,
    ledger: &Ledger<'_>,
) -> Result<Vec<u8>, Refusal<RunCause>>
    ensures { Tabulates program.now ledger.now result }
{
    let answer = match run(alloc, program, ledger) {
        Ok(answer) => answer,
        Err(refusal) => return Err(refusal),
    };
    let text = tabulated(alloc, program, ledger, &answer)?;
    Ok(text)
}
