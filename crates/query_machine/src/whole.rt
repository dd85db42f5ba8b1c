//! Runs in one turn.
ghost use Rattle.query_machine.specs.Starts.{Runs};

use crate::cause::RunCause;
use crate::runs::Run;
use posting_table::Ledger;
use query_answer::Answer;
use refusals::Refusal;
use std::alloc::Global;
use verified_program::Checked;

/// What the program answers over the ledger: a run, and one turn of the budget.
pub fn run<'r>(
    alloc: Global,
    program: &'r Checked<'r>,
    ledger: &'r Ledger<'_>,
) -> Result<Answer<'r>, Refusal<RunCause>>
    ensures { Runs program.now ledger.now result }
{
    let mut run = match Run::start(alloc, program, ledger) {
        Ok(run) => run,
        Err(refusal) => return Err(refusal),
    };
    let postings = ledger.len() as u32;
    run.turn(program.budget(postings, postings));
    match run.into_answer() {
        Some(answer) => Ok(answer),
        None => Err(Refusal::OutOfMemory),
    }
}
