//! Runs that go on, instruction by instruction.
ghost use Rattle.std.specs.Prelude.{◌≡◌, ◌≢◌, true, false, ◌<◌, ◌≤◌, ◌∷◌, [], IfOk, OnOk, length, map};
ghost use Rattle.std.specs.Prelude.{option_map};
ghost use Rattle.plain_machine.specs.PlainMachine.{balance_in};
ghost use Rattle.plain_machine.specs.Pool.{pattern_in};
ghost use Rattle.query_runs.specs.Stands.{rows_in, stand_of};
ghost use Rattle.query_sections.specs.Reading.{running_in};
ghost use Rattle.query_runs.specs.Turns.{FilterWent, GoesOn, IsSafe, is_at_end, true_load};
ghost use Rattle.query_runs.specs.declared.run.Stage.TheVariants as stage;

use crate::ends::{end_last, end_row, fails, pass, start_filter, start_row};
use crate::run::{Inputs, Run, Stage};
use query_code::{Instruction, Mode, Parts, Push};
use query_sections as sections;
use query_sections::{Loads, Running, Section, Source};
use query_values::Value;
use std::alloc::{AllocError, Global};

/// Whether a filter is TRUE alone, as where a query asks nothing of a posting.
#[inline(always)]
fn passes_all(filter: &[Instruction]) -> bool
    ensures { result ≡ true → filter.now ≡ true_load ∷ [] }
{
    matches!(filter, [Instruction::Push(Push::True)])
}

/// The running inventory, where it may be read. Where rows are told once its copies are compared.
fn readable<'s, 'r>(parts: &Parts<'_>, running: &'s Value<'r>) -> Option<Running<'r, 's>>
    ensures { option_map running_in result ≡ balance_in parts.now.mode running.now }
{
    match parts.mode {
        Mode::Plain if parts.output.is_distinct => Some(Running::Compared(running)),
        Mode::Plain => Some(Running::Listed(running)),
        Mode::Grouped => None,
    }
}

/// Goes on in the filter at one posting by so many instructions, at most to its end.
#[inline(always)]
fn at_posting<'r>(
    alloc: Global,
    input: &Inputs<'r, '_>,
    section: &Section<'r, '_>,
    run: &mut Run<'r>,
    most: u64,
) -> Result<u64, AllocError>
    requires instructions { section.now.instructions.now ≡ input.now.parts.now.code.filter }
    requires pool { section.now.pool.now ≡ input.now.parts.now.code.pool }
    requires stage { run.old.stage ≡ stage.Filter }
    requires more { 0 < most }
    requires built { run.old.finders ≡ map pattern_in input.now.parts.now.code.pool }
    requires safe { IsSafe input.now.parts.now (stand_of (rows_in input.now) run.old)
        run.old.frame.stack.room }
    ensures few { IfOk result (λ made. made ≤ most) }
    ensures some { IfOk result (λ made. 0 < made) }
    ensures went { IfOk result (λ made. FilterWent input.now.parts.now (rows_in input.now) made
        (stand_of (rows_in input.now) run.old) run.new) }
    ensures stage { run.new.stage ≡ stage.Filter }
    ensures there { IfOk result (λ made. run.new.row < length (rows_in input.now)) }
    ensures finders { run.new.finders ≡ run.old.finders }
    ensures room { run.new.frame.stack.room ≡ run.old.frame.stack.room }
{
    let loads = Loads {
        schema: input.parts.bounds.schema,
        source: Source::Posting {
            row: input.ledger.row(run.row),
            running: None,
        },
    };
    let made = sections::go_on(
        alloc,
        &loads,
        section,
        &mut run.finders,
        &mut run.frame,
        most,
    )?;
    Ok(made)
}

/// Goes on past a filter that is TRUE alone, which is one instruction.
#[inline(always)]
fn pass_at_once<'r>(
    alloc: Global,
    input: &Inputs<'r, '_>,
    run: &mut Run<'r>,
) -> Result<(), AllocError>
    requires filter { input.now.parts.now.code.filter ≡ true_load ∷ [] }
    requires stage { run.old.stage ≡ stage.Filter }
    requires first { run.old.frame.place ≡ 0 }
    requires safe { IsSafe input.now.parts.now (stand_of (rows_in input.now) run.old)
        run.old.frame.stack.room }
    ensures goes { OnOk result (GoesOn input.now.parts.now 1
        (stand_of (rows_in input.now) run.old) (stand_of (rows_in input.now) run.new)) }
    ensures finders { run.new.finders ≡ run.old.finders }
    ensures room { run.new.frame.stack.room ≡ run.old.frame.stack.room }
{
    pass(alloc, input, run)
}

/// Goes on in the filter by so many instructions, from posting to posting while they don't pass,
/// at most to the first that does or to the groups.
pub fn filter_on<'r>(
    alloc: Global,
    input: &Inputs<'r, '_>,
    run: &mut Run<'r>,
    most: u64,
) -> Result<u64, AllocError>
    requires stage { run.old.stage ≡ stage.Filter }
    requires more { 0 < most }
    requires built { run.old.finders ≡ map pattern_in input.now.parts.now.code.pool }
    requires safe { IsSafe input.now.parts.now (stand_of (rows_in input.now) run.old)
        run.old.frame.stack.room }
    ensures few { IfOk result (λ made. made ≤ most) }
    ensures some { IfOk result (λ made. 0 < made) }
    ensures goes { IfOk result (λ made. GoesOn input.now.parts.now made
        (stand_of (rows_in input.now) run.old) (stand_of (rows_in input.now) run.new)) }
    ensures finders { run.new.finders ≡ run.old.finders }
    ensures room { run.new.frame.stack.room ≡ run.old.frame.stack.room }
{
    let section = Section {
        instructions: input.parts.code.filter.as_slice(),
        pool: input.parts.code.pool.as_slice(),
    };
    // What most queries ask of a posting before all else needs no look at what it is.
    if passes_all(section.instructions) && run.frame.place == 0 {
        pass_at_once(alloc, input, run)?;
        return Ok(1);
    }
    let mut made = 0;
    while made < most {
        made += at_posting(alloc, input, &section, run, most - made)?;
        if run.frame.place != section.instructions.len() {
            return Ok(made);
        }
        if !fails(input, run) {
            pass(alloc, input, run)?;
            return Ok(made);
        }
        if run.row >= input.ledger.len() {
            start_row(alloc, input, run)?;
            return Ok(made);
        }
        start_filter(alloc, input, run)?;
    }
    Ok(made)
}

/// Goes on in the row section by so many instructions, at most to its end and what follows there.
pub fn row_on<'r>(
    alloc: Global,
    input: &Inputs<'r, '_>,
    run: &mut Run<'r>,
    most: u64,
) -> Result<u64, AllocError>
    requires stage { run.old.stage ≡ stage.Row }
    requires more { 0 < most }
    requires built { run.old.finders ≡ map pattern_in input.now.parts.now.code.pool }
    requires safe { IsSafe input.now.parts.now (stand_of (rows_in input.now) run.old)
        run.old.frame.stack.room }
    ensures few { IfOk result (λ made. made ≤ most) }
    ensures some { IfOk result (λ made. 0 < made) }
    ensures goes { IfOk result (λ made. GoesOn input.now.parts.now made
        (stand_of (rows_in input.now) run.old) (stand_of (rows_in input.now) run.new)) }
    ensures finders { run.new.finders ≡ run.old.finders }
    ensures room { run.new.frame.stack.room ≡ run.old.frame.stack.room }
{
    let section = Section {
        instructions: input.parts.code.row.as_slice(),
        pool: input.parts.code.pool.as_slice(),
    };
    let loads = Loads {
        schema: input.parts.bounds.schema,
        source: Source::Posting {
            row: input.ledger.row(run.row),
            running: readable(input.parts, &run.running),
        },
    };
    let made = sections::go_on(
        alloc,
        &loads,
        &section,
        &mut run.finders,
        &mut run.frame,
        most,
    )?;
    if run.frame.place == section.instructions.len() {
        end_row(alloc, input, run)?;
    }
    Ok(made)
}

/// Goes on in the last section by so many instructions, at most to its end and what follows there.
pub fn last_on<'r>(
    alloc: Global,
    input: &Inputs<'r, '_>,
    run: &mut Run<'r>,
    most: u64,
) -> Result<u64, AllocError>
    requires stage { run.old.stage ≡ stage.Last }
    requires more { 0 < most }
    requires built { run.old.finders ≡ map pattern_in input.now.parts.now.code.pool }
    requires safe { IsSafe input.now.parts.now (stand_of (rows_in input.now) run.old)
        run.old.frame.stack.room }
    ensures few { IfOk result (λ made. made ≤ most) }
    ensures some { IfOk result (λ made. 0 < made) }
    ensures goes { IfOk result (λ made. GoesOn input.now.parts.now made
        (stand_of (rows_in input.now) run.old) (stand_of (rows_in input.now) run.new)) }
    ensures finders { run.new.finders ≡ run.old.finders }
    ensures room { run.new.frame.stack.room ≡ run.old.frame.stack.room }
{
    let section = Section {
        instructions: input.parts.code.last.as_slice(),
        pool: input.parts.code.pool.as_slice(),
    };
    let loads = Loads {
        schema: input.parts.bounds.schema,
        source: Source::Group {
            keys: run.groups.get(run.group).keys,
            aggregates: run.groups.get(run.group).totals,
        },
    };
    let made = sections::go_on(
        alloc,
        &loads,
        &section,
        &mut run.finders,
        &mut run.frame,
        most,
    )?;
    if run.frame.place == section.instructions.len() {
        end_last(alloc, input, run)?;
    }
    Ok(made)
}

/// Goes on in the section that the run is in.
fn stage_on<'r>(
    alloc: Global,
    input: &Inputs<'r, '_>,
    run: &mut Run<'r>,
    most: u64,
) -> Result<u64, AllocError>
    requires stage { run.old.stage ≢ stage.Done }
    requires more { 0 < most }
    requires built { run.old.finders ≡ map pattern_in input.now.parts.now.code.pool }
    requires safe { IsSafe input.now.parts.now (stand_of (rows_in input.now) run.old)
        run.old.frame.stack.room }
    ensures few { IfOk result (λ made. made ≤ most) }
    ensures some { IfOk result (λ made. 0 < made) }
    ensures goes { IfOk result (λ made. GoesOn input.now.parts.now made
        (stand_of (rows_in input.now) run.old) (stand_of (rows_in input.now) run.new)) }
    ensures finders { run.new.finders ≡ run.old.finders }
    ensures room { run.new.frame.stack.room ≡ run.old.frame.stack.room }
{
    match run.stage {
        Stage::Filter => filter_on(alloc, input, run, most),
        Stage::Row => row_on(alloc, input, run, most),
        Stage::Last => last_on(alloc, input, run, most),
        Stage::Done => unreachable!(),
    }
}

/// Whether a run has come to its end.
pub fn is_done(run: &Run<'_>) -> bool
    ensures { result ≡ is_at_end run.now.stage }
{
    matches!(run.stage, Stage::Done)
}

/// Whether a run goes on that made so many instructions: until they are as many as it may make, or
/// it has come to its end.
#[inline(always)]
fn goes_on(run: &Run<'_>, made: u64, most: u64) -> bool
    ensures few { result ≡ true → made < most }
    ensures inside { result ≡ true → is_at_end run.now.stage ≡ false }
    ensures ends { result ≡ false → made < most → is_at_end run.now.stage ≡ true }
{
    made < most && !is_done(run)
}

/// Goes on by so many instructions, at most to the end, and tells how many they were.
pub fn go_on<'r>(
    alloc: Global,
    input: &Inputs<'r, '_>,
    run: &mut Run<'r>,
    most: u64,
) -> Result<u64, AllocError>
    requires built { run.old.finders ≡ map pattern_in input.now.parts.now.code.pool }
    requires safe { IsSafe input.now.parts.now (stand_of (rows_in input.now) run.old)
        run.old.frame.stack.room }
    ensures few { IfOk result (λ made. made ≤ most) }
    ensures ends { IfOk result (λ made. made < most → is_at_end run.new.stage ≡ true) }
    ensures goes { IfOk result (λ made. GoesOn input.now.parts.now made
        (stand_of (rows_in input.now) run.old) (stand_of (rows_in input.now) run.new)) }
    ensures finders { run.new.finders ≡ run.old.finders }
    ensures room { run.new.frame.stack.room ≡ run.old.frame.stack.room }
{
    let mut made = 0;
    while goes_on(run, made, most) {
        made += stage_on(alloc, input, run, most - made)?;
    }
    Ok(made)
}
