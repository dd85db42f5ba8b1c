//! The pass over the instructions of a section.
ghost use Rattle.std.specs.Prelude.{◌≡◌, ◌+◌, ◌<◌, true, length, OnOk};
ghost use Rattle.std.specs.List.{list_all};
ghost use Rattle.plain_machine.specs.SectionRun as runs;
ghost use Rattle.well_shaped.specs.Sections.{shape_acts};
ghost use Rattle.verify_programs.specs.Loading.{has_members};
ghost use Rattle.verify_programs.specs.Pass as spec;
ghost use Rattle.verify_programs.specs.Passing.{Advances, Arrives, Passes, IsPlaced};

use crate::waiting::{Waiting, begun, bring, taken};
use crate::{CodeCause, Loads, StateShape};
use query_code::{Constant, Instruction};
use refusals::Refusal;
use std::alloc::{AllocError, Global};

/// What is known of a section that has shapes.
#[derive(Drop)]
pub struct Passed {
    /// What is known at its end.
    pub end: StateShape,
    /// The most values on its stack.
    pub depth: usize,
}

/// Why a section has no shapes.
#[derive(Clone, Copy, Debug, Drop, PartialEq, Eq)]
pub struct SectionCause {
    pub cause: CodeCause,
    /// The number of the instruction; the end has the number behind the last.
    pub place: usize,
}

/// How far a pass has come.
#[derive(Drop)]
struct Walk {
    /// What has come to each place that isn't passed yet, the end included.
    waiting: Vec<Waiting>,
    /// The most values on the stack of the places that are passed.
    depth: usize,
}

/// Whether an instruction, if it is a jump, leads behind its own place and at most to the end.
fn leads_on(len: usize, place: usize, instruction: Instruction) -> bool
    ensures { result ≡ runs.leads_on len place instruction }
{
    match instruction {
        Instruction::Jump(to) | Instruction::JumpIfFalse(to) => {
            place < to as usize && to as usize <= len
        }
        _ => true,
    }
}

/// Brings a state shape to the places that an instruction leads to.
fn spread(
    alloc: Global,
    waiting: &mut Vec<Waiting>,
    place: usize,
    instruction: Instruction,
    state: StateShape,
) -> Result<(), AllocError>
    requires within { place + 1 < length waiting.old.items }
    requires on { spec.IsWithin (length waiting.old.items) instruction }
    ensures { OnOk result
        (waiting.new.items ≡ spec.spread instruction place state waiting.old.items) }
{
    match instruction {
        Instruction::Jump(to) => bring(waiting, to as usize, state),
        Instruction::JumpIfFalse(to) => {
            if to as usize != place + 1 {
                bring(waiting, to as usize, state.copied(alloc)?);
            }
            bring(waiting, place + 1, state);
        }
        _ => bring(waiting, place + 1, state),
    }
    Ok(())
}

impl Walk {
    /// What has come to a place along all paths.
    fn arrive(&mut self, place: usize) -> Result<StateShape, Refusal<CodeCause>>
        requires { place < length self.old.waiting.items }
        ensures { Arrives place result self.old.waiting.items self.new.waiting.items
            self.old.depth self.new.depth }
    {
        match taken(&mut self.waiting, place) {
            Waiting::Nothing => Err(Refusal::Refused(CodeCause::Unreachable)),
            Waiting::Clash => Err(Refusal::Refused(CodeCause::Operands)),
            Waiting::Shaped(state) => {
                self.depth = self.depth.max(state.depth());
                Ok(state)
            }
        }
    }

    /// Passes one place, of which the instruction is given.
    fn advance(
        &mut self,
        alloc: Global,
        pool: &[Constant<'_>],
        loads: &Loads,
        code: &[Instruction],
        place: usize,
    ) -> Result<(), Refusal<CodeCause>>
        requires some { list_all has_members pool.now ≡ true }
        requires within { place < length code.now }
        requires stands { spec.Stands (shape_acts pool.now loads.now) code.now place
            self.old.waiting.items self.old.depth }
        ensures { Advances pool.now loads.now code.now place result self.new.waiting.items
            self.new.depth }
    {
        let mut state = match self.arrive(place) {
            Ok(state) => state,
            Err(refusal) => return Err(refusal),
        };
        let instruction = code[place];
        if !leads_on(code.len(), place, instruction) {
            return Err(Refusal::Refused(CodeCause::Jump));
        }
        if let Err(refusal) = state.apply(pool, loads, instruction) {
            return Err(refusal);
        }
        spread(alloc, &mut self.waiting, place, instruction, state)?;
        Ok(())
    }
}

/// The cause at its place.
fn at_place<T: Drop>(
    answer: Result<T, Refusal<CodeCause>>,
    place: usize,
) -> Result<T, Refusal<SectionCause>>
    ensures { IsPlaced place answer result }
{
    match answer {
        Ok(value) => Ok(value),
        Err(Refusal::OutOfMemory) => Err(Refusal::OutOfMemory),
        Err(Refusal::Refused(cause)) => Err(Refusal::Refused(SectionCause { cause, place })),
    }
}

/// The least state shapes of a section that may load so much: what is known at its end, and the most
/// values on its stack; or the first place that keeps it from having any.
pub fn pass(
    alloc: Global,
    pool: &[Constant<'_>],
    loads: &Loads,
    code: &[Instruction],
) -> Result<Passed, Refusal<SectionCause>>
    requires { list_all has_members pool.now ≡ true }
    ensures { Passes pool.now loads.now code.now result }
{
    let mut walk = Walk {
        waiting: begun(alloc, code.len())?,
        depth: 0,
    };
    for place in 0..code.len() {
        at_place(walk.advance(alloc, pool, loads, code, place), place)?;
    }
    match at_place(walk.arrive(code.len()), code.len()) {
        Ok(end) => Ok(Passed {
            end,
            depth: walk.depth,
        }),
        Err(refusal) => Err(refusal),
    }
}
