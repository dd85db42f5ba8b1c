//! How a run begins.
ghost use Rattle.std.specs.Prelude.{◌≡◌, ◌≤◌, IfOk, map};
ghost use Rattle.plain_machine.specs.Pool.{pattern_in};
ghost use Rattle.query_runs.specs.Stands.{rows_in, run_after, stand_of};
ghost use Rattle.query_runs.specs.Turns.{IsSafe};

use crate::ends::start_row;
use crate::run::{Inputs, Run, Stage};
use query_answer::AnswerRows;
use query_groups::Groups;
use query_sections::{Finders, Frame};
use query_values::{Aggregate, Pattern};
use std::alloc::{AllocError, Global};

/// A run before its first instruction, or at its end where there is none. Its stack takes memory
/// for so many values, once.
pub fn start<'r>(
    alloc: Global,
    input: &Inputs<'r, '_>,
    patterns: &'r [Option<Pattern>],
    depth: usize,
) -> Result<Run<'r>, AllocError>
    requires built { patterns.now ≡ map pattern_in input.now.parts.now.code.pool }
    requires safe { IsSafe input.now.parts.now
        (run_after input.now.parts.now (rows_in input.now) 0) depth }
    ensures stands { IfOk result (λ run. stand_of (rows_in input.now) run
        ≡ run_after input.now.parts.now (rows_in input.now) 0) }
    ensures built { IfOk result (λ run.
        run.finders ≡ map pattern_in input.now.parts.now.code.pool) }
    ensures room { IfOk result (λ run. depth ≤ run.frame.stack.room) }
{
    let running = Aggregate::SumInventory(8).start(alloc)?;
    let mut run = Run {
        stage: Stage::Done,
        row: 0,
        group: 0,
        frame: Frame::new(alloc, depth)?,
        finders: Finders::new(alloc, patterns)?,
        running,
        groups: Groups::new(alloc),
        rows: AnswerRows::new(alloc),
    };
    start_row(alloc, input, &mut run)?;
    Ok(run)
}
