//! How far runs have come.

use query_answer::Answer;
use query_runs::Run;

/// A run that can go on.
#[derive(Drop)]
pub struct Standing<'r> {
    pub run: Run<'r>,
    /// How many steps it has made.
    pub steps: u64,
    /// How many rows it let go of, since they can't come out any more.
    pub dropped: u64,
}

/// How far a run has come.
#[derive(Drop)]
pub enum Progress<'r> {
    /// Before an instruction, or before its first turn.
    Standing(Standing<'r>),
    /// At its end.
    Ended(Answer<'r>),
    /// Memory lacked.
    Failed,
}
