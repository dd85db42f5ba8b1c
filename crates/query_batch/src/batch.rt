//! Runs side by side.
ghost use Rattle.query_batch.specs.Batch.{AreJoined, TakesTurn};
ghost use Rattle.std.specs.Prelude.{◌≡◌, ◌<◌, IfOk, Some, length, slice_get};

use crate::cause::BatchCause;
use crate::member::Member;
use posting_table::Ledger;
use query_machine::Turn;
use std::alloc::{AllocError, Global};
use std::marker::Model;
use verified_program::Checked;

/// Runs of several programs over one ledger. Its value is the list of them.
pub struct Batch<'r, 'a> {
    runs: Vec<Member<'r, 'a>>,
}

/// The slice of a list of runs. What comes first is there for its two lifetimes alone: with them those
/// of a run have the same numbers here as in the type of the generic call (3 and 4), and else the
/// checker compares, for this call, all that a run leads to, field by field.
fn slice_of<'b, 'r, 'a>(_: (&(), &()), runs: &'b Vec<Member<'r, 'a>>) -> &'b [Member<'r, 'a>]
    ensures { result.now ≡ runs.now.items }
{
    runs.as_slice()
}

/// Written out, so that crates which give one up need to know nothing of what is in it.
impl Drop for Batch<'_, '_> {
    fn drop(self) {
        let Batch { runs: _ } = self;
    }
}

impl<'r, 'a> Model for Batch<'r, 'a> {
    ghost use Rattle.std.specs.Prelude.{List};
    ghost use Rattle.std.specs.Coded.{codes};
    ghost use Rattle.posting_table.specs.Decimals.{decimals_code};
    ghost use Rattle.query_batch.specs.declared.member.Member.{Member};

    ghost Value = { List Member };

    ghost coded = { Prim.hlevel (codes, decimals_code) };

    ghost view = { λ b. b.runs.items };
}

impl<'r, 'a> Batch<'r, 'a> {
    /// A run of each program over the ledger, before its first turn. One whose bounds the ledger is
    /// outside stands for that refusal.
    pub fn new(
        alloc: Global,
        ledger: &'r Ledger<'a>,
        programs: &'r [Checked<'r>],
    ) -> Result<Batch<'r, 'a>, AllocError>
        ensures { IfOk result (AreJoined ledger.now programs.now) }
    {
        let mut runs = Vec::with_capacity(alloc, programs.len())?;
        for program in programs {
            runs.push(Member::start(alloc, program, ledger)?)?;
        }
        Ok(Batch { runs })
    }

    /// A turn of so many steps for the run of this number. Nothing that one run meets changes
    /// another.
    pub fn turn(&mut self, number: usize, k: u64) -> Result<Turn, BatchCause>
        ensures { TakesTurn number k self.old self.new result }
    {
        if number >= self.len() {
            return Err(BatchCause::NoSuchRun);
        }
        let run = &mut self.runs[number];
        Ok(run.turn(k))
    }

    /// The runs, in the order of the programs.
    fn runs(&self) -> &[Member<'r, 'a>]
        ensures { result.now ≡ self.now }
    {
        slice_of((&(), &()), &self.runs)
    }

    /// How many runs there are.
    pub fn len(&self) -> usize
        ensures { result ≡ length self.now }
    {
        self.runs().len()
    }

    /// The run of this number, in the order of the programs, which tells what it answers.
    pub fn member(&self, number: usize) -> &Member<'r, 'a>
        requires { number < length self.now }
        ensures { Some result.now ≡ slice_get self.now number }
    {
        &self.runs()[number]
    }
}
