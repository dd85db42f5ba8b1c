//! Turns round by round.
ghost use Rattle.std.specs.Prelude.{◌≡◌, ◌<◌, ◌≤◌, IfOk, All, length};
ghost use Rattle.std.specs.List.{list_any};
ghost use Rattle.query_batch.specs.Rounds as spec;
ghost use Rattle.query_batch.specs.Rounds.{AreAllTurned, GoesOn, HaveEnded, IsBrief};
ghost use Rattle.query_batch.specs.Rounds.{IsTurnTold};

use crate::batch::Batch;
use posting_table::Ledger;
use query_machine::{Turn, turns_add_up};
use std::alloc::{AllocError, Global};
use verified_program::Checked;

/// The most steps of a program over so many postings, where they are within its bounds.
fn most_of(program: &Checked<'_>, postings: usize) -> u64
    ensures { IsBrief postings result program.now }
{
    if postings <= program.program.parts.bounds.postings as usize {
        program.budget(postings as u32, postings as u32)
    } else {
        0
    }
}

/// The most steps of any of the programs.
fn most_steps(programs: &[Checked<'_>], postings: usize) -> u64
    ensures { All (IsBrief postings result) programs.now }
{
    let mut most = 0;
    for program in programs {
        most = most_of(program, postings).max(most);
    }
    most
}

/// Whether a run can go on that was left so.
fn is_going(turn: Turn) -> bool
    ensures { result ≡ spec.is_told_going turn }
{
    matches!(turn, Turn::Going)
}

/// A turn of so many steps for the run of this number, which is there. Tells whether it can go on.
fn turn_of(batch: &mut Batch<'_, '_>, number: usize, k: u64) -> bool
    requires { number < length batch.old }
    ensures { IsTurnTold number k batch.old batch.new result }
{
    match batch.turn(number, k) {
        Ok(told) => is_going(told),
        Err(_) => unreachable!(),
    }
}

/// A turn of so many steps for each run. Tells whether any can go on.
fn round(batch: &mut Batch<'_, '_>, k: u64) -> bool
    ensures turned { AreAllTurned k batch.old batch.new }
    ensures goes { result ≡ list_any spec.is_going batch.new }
{
    let mut is_any_going = false;
    for number in 0..batch.len() {
        is_any_going |= turn_of(batch, number, k);
    }
    is_any_going
}

/// Rounds of turns until no run can go on, or as many as there may be.
fn go_on(batch: &mut Batch<'_, '_>, k: u64, most: u64)
    ensures { GoesOn most k batch.old batch.new }
{
    for _ in 0..most {
        if !round(batch, k) {
            return;
        }
    }
}

/// The runs of the programs, after turns of so many steps for each, round by round, until none can
/// go on.
pub fn run_to_end<'r, 'a>(
    alloc: Global,
    programs: &'r [Checked<'r>],
    ledger: &'r Ledger<'a>,
    k: u64,
) -> Result<Batch<'r, 'a>, AllocError>
    requires { 1 ≤ k }
    ensures { IfOk result (HaveEnded ledger.now programs.now) }
{
    let mut batch = Batch::new(alloc, ledger, programs)?;
    let most = most_steps(programs, ledger.len());
    turns_add_up();
    round(&mut batch, k);
    go_on(&mut batch, k, most);
    Ok(batch)
}
