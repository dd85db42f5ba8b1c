//! Runs that take turns.
ghost use Rattle.std.specs.Prelude.{◌≡◌, IfSome};
ghost use Rattle.std.specs.Option.{option_copied};
ghost use Rattle.plain_machine.specs.Pool.{pattern_in};

use crate::advancing::{told, turn_on};
use crate::cause::RunCause;
use crate::progress::{Progress, Standing};
use crate::turn::Turn;
use posting_table::Ledger;
use query_answer::Answer;
use query_runs::{Inputs, reads_running, start};
use refusals::Refusal;
use std::alloc::Global;
use std::marker::Model;
use verified_program::Checked;

/// A run of a program over a ledger, which goes on in turns. Contracts see its program, its ledger
/// and how far it has come; it stands where the plain machine does after as many steps.
pub struct Run<'r, 'a> {
    alloc: Global,
    input: Inputs<'r, 'a>,
    progress: Progress<'r>,
}

/// Written out, so that crates which give one up need to know nothing of what is in it.
impl Drop for Run<'_, '_> {
    fn drop(self) {
        let Run {
            alloc: _,
            input: _,
            progress: _,
        } = self;
    }
}

impl<'r, 'a> Model for Run<'r, 'a> {
    ghost use Rattle.std.specs.Coded.{codes};
    ghost use Rattle.posting_table.specs.Decimals.{decimals_code};
    ghost use Rattle.query_machine.specs.Run as runs;

    ghost Value = { runs.Run };

    ghost coded = { Prim.hlevel (codes, decimals_code) };

    ghost use Rattle.query_machine.specs.Progress.{IsSound, place_of};
    ghost use Rattle.query_runs.specs.Stands.{rows_in};

    ghost view = { λ r. record {
      parts = r.input.parts.now;
      ledger = r.input.ledger.now;
      place = place_of r.progress;
    } };

    ghost invariant = { λ r. IsSound r.input.parts.now (rows_in r.input) r.progress };
}

impl<'r, 'a> Run<'r, 'a> {
    ghost use Rattle.query_machine.specs.RunOf.{IsRunOf};
    ghost use Rattle.query_machine.specs.Run.{rows_under};
    ghost use Rattle.query_machine.specs.Starts.{Starts};
    ghost use Rattle.query_machine.specs.Turns.{IsTurned, answer_at, told_at};

    /// A run of the program over the ledger, before its first turn. Its stack takes its memory
    /// here, once and for all. A ledger outside the program's bounds is refused without memory.
    pub fn start(
        alloc: Global,
        program: &'r Checked<'r>,
        ledger: &'r Ledger<'a>,
    ) -> Result<Run<'r, 'a>, Refusal<RunCause>>
        ensures { Starts program.now ledger.now result }
    {
        let parts = &program.program.parts;
        if !ledger.fits(&parts.bounds) {
            return Err(Refusal::Refused(RunCause::OutsideBounds));
        }
        let input = Inputs {
            parts,
            ledger,
            reads_running: reads_running(parts),
        };
        let depth = program.depth() as usize;
        let run = start(alloc, &input, program.patterns.as_slice(), depth)?;
        Ok(Run {
            alloc,
            input,
            progress: Progress::Standing(Standing {
                run,
                steps: 0,
                dropped: 0,
            }),
        })
    }

    /// Goes on by so many steps, at most to the end, and tells where that leads. Where memory
    /// lacks the run has failed, for good. One that is done or has failed takes no memory and
    /// stays as it is.
    pub fn turn(&mut self, k: u64) -> Turn
        ensures { IsTurned k self.old self.new result }
    {
        turn_on(self.alloc, &self.input, &mut self.progress, k);
        told(&self.progress)
    }

    /// Where its last turn left it. One that had none is going.
    pub fn standing(&self) -> Turn
        ensures { result ≡ told_at self.now.place }
    {
        told(&self.progress)
    }

    /// What it answers, where a turn has left it done.
    pub fn answer(&self) -> Option<&Answer<'r>>
        ensures there { option_copied result ≡ answer_at self.now.place }
        ensures is { IfSome result (λ answer.
            IsRunOf self.now.parts (rows_under self.now) answer.now) }
    {
        match &self.progress {
            Progress::Ended(answer) => Some(answer),
            _ => None,
        }
    }

    /// Its answer, where a turn has left it done.
    pub fn into_answer(self) -> Option<Answer<'r>>
        ensures there { result ≡ answer_at self.entry.place }
        ensures is { IfSome result (IsRunOf self.entry.parts (rows_under self.entry)) }
    {
        let Run {
            alloc: _,
            input: _,
            progress,
        } = self;
        match progress {
            Progress::Ended(answer) => Some(answer),
            _ => None,
        }
    }
}
