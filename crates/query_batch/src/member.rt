//! The runs of a batch.
use posting_table::Ledger;
use query_answer::Answer;
use query_machine::{Run, RunCause, Turn};
use refusals::Refusal;
use std::alloc::{AllocError, Global};
use verified_program::Checked;

/// A run of a batch.
#[derive(Drop)]
pub enum Member<'r, 'a> {
    /// The ledger is outside the bounds of its program, so there is none.
    OutsideBounds,
    Run(Run<'r, 'a>),
}

impl<'r, 'a> Member<'r, 'a> {
    ghost use Rattle.std.specs.Prelude.{◌≡◌, IfOk, IfSome, MatchResult, Ok, Err};
    ghost use Rattle.std.specs.Option.{option_copied};
    ghost use Rattle.query_batch.specs.Members.{IsAnswerOf, IsTurnedMember, JoinsIn, answer_in};

    /// The run of a program over the ledger, where there is one.
    pub(crate) fn start(
        alloc: Global,
        program: &'r Checked<'r>,
        ledger: &'r Ledger<'a>,
    ) -> Result<Member<'r, 'a>, AllocError>
        ensures { IfOk result (JoinsIn ledger.now program.now) }
    {
        match Run::start(alloc, program, ledger) {
            Ok(run) => Ok(Member::Run(run)),
            Err(Refusal::Refused(RunCause::OutsideBounds)) => Ok(Member::OutsideBounds),
            Err(Refusal::OutOfMemory) => Err(AllocError),
        }
    }

    /// A turn of so many steps.
    pub(crate) fn turn(&mut self, k: u64) -> Turn
        ensures { IsTurnedMember k self.old self.new result }
    {
        match self {
            Member::OutsideBounds => Turn::Failed,
            Member::Run(run) => run.turn(k),
        }
    }

    /// What it answers; nothing so far, where it can go on; or why it never will.
    pub fn answer(&self) -> Result<Option<&Answer<'r>>, Refusal<RunCause>>
        ensures tells { MatchResult result (λ there. answer_in self.now ≡ Ok (option_copied there))
            (λ refusal. answer_in self.now ≡ Err refusal) }
        ensures is { IfOk result (λ there. IfSome there (λ answer. IsAnswerOf self.now answer.now)) }
    {
        match self {
            Member::OutsideBounds => Err(Refusal::Refused(RunCause::OutsideBounds)),
            Member::Run(run) => match run.standing() {
                Turn::Failed => Err(Refusal::OutOfMemory),
                Turn::Going | Turn::Done => Ok(run.answer()),
            },
        }
    }
}
