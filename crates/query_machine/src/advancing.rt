//! What a turn does, from where a run stands to where it stands then.
ghost use Rattle.std.specs.Prelude.{◌≡◌, ◌<◌, ◌≤◌, ◌+◌, true, false, IfOk, OnOk};
ghost use Rattle.query_machine.specs.Progress.{IsSound, IsUnderWay, place_of};
ghost use Rattle.query_machine.specs.Run.{At};
ghost use Rattle.query_machine.specs.RunOf.{IsRunOf};
ghost use Rattle.query_machine.specs.Turns.{HasEnded, Moves, StandsAfter, told_at};
ghost use Rattle.query_machine.specs.declared.progress.Progress.TheVariants as progress;
ghost use Rattle.query_runs.specs.Stands.{rows_in};
ghost use Rattle.query_runs.specs.Turns.{is_at_end};

use crate::progress::{Progress, Standing};
use crate::turn::Turn;
use bean_base::{List, Slice};
use final_rows::{finish, trim};
use query_answer::Answer;
use query_code::{Output, Parts};
use query_runs::{Inputs, go_on, is_done};
use std::alloc::{AllocError, Global};
use std::mem::replace;

/// How many steps are made at most before rows are let go of that can't come out any more.
const STRETCH: u64 = 4096;

/// The same where each row may hold a copy of the running inventory, which may be large.
const SHORT_STRETCH: u64 = 64;

/// How many steps are made at most before rows of the program are let go of.
fn longest_stretch(input: &Inputs<'_, '_>) -> u64
    ensures { 0 < result }
{
    if input.reads_running {
        SHORT_STRETCH
    } else {
        STRETCH
    }
}

/// The names of what is shown.
fn headers_of<'r>(alloc: Global, output: &Output<'r>) -> Result<Vec<Slice<'r>>, AllocError>
    ensures { IfOk result (λ headers. headers.items ≡ output.now.targets) }
{
    let targets = output.targets.as_slice();
    let mut headers = Vec::with_capacity(alloc, targets.len())?;
    for target in targets {
        headers.push(target.lend())?;
    }
    Ok(headers)
}

/// What a run answers that has come to its end.
fn answer_of<'r>(
    alloc: Global,
    input: &Inputs<'r, '_>,
    standing: Standing<'r>,
) -> Result<Answer<'r>, AllocError>
    requires under_way { IsUnderWay input.now.parts.now (rows_in input.now) standing }
    requires ended { is_at_end standing.run.stage ≡ true }
    ensures is { IfOk result (IsRunOf input.now.parts.now (rows_in input.now)) }
    ensures steps { IfOk result (λ answer. answer.steps ≡ standing.entry.steps) }
{
    let Standing {
        run,
        steps,
        dropped,
    } = standing;
    let rows = run.into_rows();
    let groups = dropped + rows.len() as u64;
    let headers = List::new(headers_of(alloc, &input.parts.output)?);
    let rows = finish(alloc, &input.parts.output, rows)?;
    Ok(Answer {
        headers,
        rows,
        steps,
        groups,
    })
}

/// Lets go of rows that can't come out any more, where there are many.
fn drop_rows<'r>(
    alloc: Global,
    input: &Inputs<'r, '_>,
    standing: &mut Standing<'r>,
) -> Result<(), AllocError>
    requires { IsUnderWay input.now.parts.now (rows_in input.now) standing.old }
    ensures under_way { OnOk result
        (IsUnderWay input.now.parts.now (rows_in input.now) standing.new) }
    ensures stage { standing.new.run.stage ≡ standing.old.run.stage }
    ensures steps { standing.new.steps ≡ standing.old.steps }
{
    let before = standing.run.rows.len();
    trim(alloc, &input.parts.output, &mut standing.run.rows)?;
    standing.dropped += (before - standing.run.rows.len()) as u64;
    Ok(())
}

/// Goes on by so many steps, at most to the end, lets go of rows that can't come out any more, and
/// tells how many steps they were.
fn stretch<'r>(
    alloc: Global,
    input: &Inputs<'r, '_>,
    standing: &mut Standing<'r>,
    k: u64,
) -> Result<u64, AllocError>
    requires under_way { IsUnderWay input.now.parts.now (rows_in input.now) standing.old }
    requires some { 0 < k }
    requires inside { is_at_end standing.old.run.stage ≡ false }
    ensures under_way { OnOk result
        (IsUnderWay input.now.parts.now (rows_in input.now) standing.new) }
    ensures few { IfOk result (λ made. made ≤ k) }
    ensures some { IfOk result (λ made. 0 < made) }
    ensures steps { IfOk result (λ made. standing.new.steps ≡ standing.old.steps + made) }
{
    let made = go_on(alloc, input, &mut standing.run, k)?;
    standing.steps += made;
    drop_rows(alloc, input, standing)?;
    Ok(made)
}

/// Goes on by so many steps, at most to the end, and tells whether that is where it stands.
fn advance<'r>(
    alloc: Global,
    input: &Inputs<'r, '_>,
    standing: &mut Standing<'r>,
    k: u64,
) -> Result<bool, AllocError>
    requires { IsUnderWay input.now.parts.now (rows_in input.now) standing.old }
    ensures under_way { OnOk result
        (IsUnderWay input.now.parts.now (rows_in input.now) standing.new) }
    ensures ends { IfOk result (λ ended. ended ≡ is_at_end standing.new.run.stage) }
    ensures within { OnOk result (standing.new.steps ≤ standing.old.steps + k) }
    ensures stands { IfOk result (λ ended. ended ≡ false
        → StandsAfter input.now.parts.now (rows_in input.now) (standing.old.steps + k)
        (At standing.new.steps)) }
{
    let longest = longest_stretch(input);
    let mut made = 0;
    while made < k && !is_done(&standing.run) {
        made += stretch(alloc, input, standing, (k - made).min(longest))?;
    }
    Ok(is_done(&standing.run))
}

/// What becomes of a run that has come to its end: its rows come out, where memory doesn't lack.
fn ended<'r>(alloc: Global, input: &Inputs<'r, '_>, standing: Standing<'r>) -> Progress<'r>
    requires under_way { IsUnderWay input.now.parts.now (rows_in input.now) standing }
    requires ended { is_at_end standing.run.stage ≡ true }
    ensures sound { IsSound input.now.parts.now (rows_in input.now) result }
    ensures ended { HasEnded (place_of result) }
    ensures stands { StandsAfter input.now.parts.now (rows_in input.now) standing.entry.steps
        (place_of result) }
{
    match answer_of(alloc, input, standing) {
        Ok(answer) => Progress::Ended(answer),
        Err(_) => Progress::Failed,
    }
}

/// A turn of so many steps. Where it comes to the end the rows come out; what has ended, or failed,
/// stays as it is.
#[tactic(auto, using(crate::proofs::Ends::later_end))]
pub fn turn_on<'r>(alloc: Global, input: &Inputs<'r, '_>, progress: &mut Progress<'r>, k: u64)
    requires { IsSound input.now.parts.now (rows_in input.now) progress.old }
    ensures sound { IsSound input.now.parts.now (rows_in input.now) progress.new }
    ensures moves { Moves input.now.parts.now (rows_in input.now) k (place_of progress.old)
        (place_of progress.new) }
{
    let stands = match progress {
        Progress::Standing(standing) => advance(alloc, input, standing, k),
        Progress::Ended(_) | Progress::Failed => return,
    };
    match stands {
        Ok(false) => {}
        Ok(true) => {
            if let Progress::Standing(standing) = replace(progress, Progress::Failed) {
                *progress = ended(alloc, input, standing);
            }
        }
        Err(_) => *progress = Progress::Failed,
    }
}

/// What is told where a run stands there.
pub fn told(progress: &Progress<'_>) -> Turn
    ensures { result ≡ told_at (place_of progress.now) }
{
    match progress {
        Progress::Standing(_) => Turn::Going,
        Progress::Ended(_) => Turn::Done,
        Progress::Failed => Turn::Failed,
    }
}
