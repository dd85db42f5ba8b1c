//! What a query file answers over a ledger.
ghost use Rattle.std.specs.Prelude.{◌≡◌, IfOk, true};
ghost use Rattle.bql_parser.specs.Answer.{query_of};
ghost use Rattle.bql_parser.specs.declared.query.Query.{Query};
ghost use Rattle.limits.specs.declared.bounds.Bounds.{Bounds};
ghost use Rattle.posting_table.specs.Rows.{rows_of};
ghost use Rattle.query_code.specs.QueryFile.{IsFile};
ghost use Rattle.query_code.specs.declared.program.Parts.{Parts};
ghost use Rattle.query_machine.specs.RunOf.{IsRunOf};
ghost use Rattle.query_rows.specs.Fits.{fits};
ghost use Rattle.query_tables.specs.Headline.{AnswersFile, AreCompiled, ComesTo, RunsChecked};
ghost use Rattle.query_tables.specs.Table.{IsTableOf, IsTableOfQuery};
ghost use Rattle.well_shaped.specs.Program.{IsWellShaped};

use crate::cause::AnswerCause;
use crate::giving_up::print_and_give_up;
use posting_table::Ledger;
use query_answer::Answer;
use query_machine::run;
use query_verifier::check_file;
use refusals::Refusal;
use std::alloc::{AllocError, Global};
use table_printer::TableText;
use verified_program::Checked;

/// The table of what a run of a program answered over a ledger, which is within its bounds. The rows
/// are given up as they are printed.
fn printed(
    alloc: Global,
    program: &Checked<'_>,
    ledger: &Ledger<'_>,
    answer: Answer<'_>,
) -> Result<TableText, AllocError>
    requires within { fits program.now.program.parts.bounds (rows_of ledger.now) ≡ true }
    requires answered { IsRunOf program.now.program.parts (rows_of ledger.now) answer }
    ensures { IfOk result (IsTableOf program.now.program.parts program.now.depth ledger.now) }
{
    // So its cells lie in the shapes that columns have by the program's bounds.
    prove!(ledger.fits(&program.program.parts.bounds));
    let text = print_and_give_up(alloc, answer, ledger.display())?;
    Ok(text)
}

/// The table of a program that was checked, with the causes of files.
fn run_checked(
    alloc: Global,
    program: &Checked<'_>,
    ledger: &Ledger<'_>,
) -> Result<TableText, Refusal<AnswerCause>>
    ensures { RunsChecked program.now.program.parts program.now.depth ledger.now result }
{
    let answer = match run(alloc, program, ledger) {
        Ok(answer) => answer,
        Err(Refusal::OutOfMemory) => return Err(Refusal::OutOfMemory),
        Err(Refusal::Refused(cause)) => return Err(Refusal::Refused(AnswerCause::NotRun(cause))),
    };
    let text = printed(alloc, program, ledger, answer)?;
    Ok(text)
}

/// The table of what a query file answers over a ledger; or why it gives none. The rows are given up
/// as they are printed. It is for a process that ends with its answer, which takes back the memory in
/// which they lay; [`table`] gives that up too.
pub fn answer_file(
    alloc: Global,
    file: &[u8],
    ledger: &Ledger<'_>,
) -> Result<TableText, Refusal<AnswerCause>>
    // The bytes are the file of a well shaped program. It ends over the ledger, which is within its
    // bounds, without a fault and within its budget, and the text is the table of its rows. Else the
    // cause of the refusal holds.
    ensures answers { AnswersFile file.now ledger.now result }
    // Where the bytes are the file of a well shaped program there is such a text if the ledger is
    // within its bounds, and M1 if it isn't, memory and patterns that aren't built aside.
    ensures only { (p : Parts) → IsFile file.now p → IsWellShaped p → ComesTo p ledger.now result }
    // Where the compiler made the file, the text is the table of what its query means.
    ensures means { (b : Bounds) (q : Query) → AreCompiled file.now b q
        → IfOk result (λ text. IsTableOfQuery b (query_of q) ledger.now text) }
{
    match check_file(alloc, file) {
        Ok(program) => run_checked(alloc, &program, ledger),
        Err(Refusal::OutOfMemory) => Err(Refusal::OutOfMemory),
        Err(Refusal::Refused(cause)) => Err(Refusal::Refused(AnswerCause::NotAccepted(cause))),
    }
}
