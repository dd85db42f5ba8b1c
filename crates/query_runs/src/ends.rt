//! What comes between two sections.
ghost use Rattle.std.specs.Prelude.{◌≡◌, ◌≢◌, ◌<◌, ◌+◌, [], Some, None, OnOk, drop, length, reverse};
ghost use Rattle.std.specs.Prelude.{option_and_then, slice_get, true, false};
ghost use Rattle.plain_machine.specs.PlainMachine.{Fault, begin_filter, begin_last, grouped_with};
ghost use Rattle.plain_machine.specs.Gathering.{running_with};
ghost use Rattle.plain_machine.specs.PlainMachine.{kept_with, with_row};
ghost use Rattle.query_runs.specs.Ends.{filter_ends, last_ends, passing, row_begins, row_ends};
ghost use Rattle.query_runs.specs.Stands.{keeps, kept_in, rows_in, stand_of};
ghost use Rattle.query_runs.specs.declared.run.Stage.TheVariants as stages;

use crate::run::{Inputs, Run, Stage};
use query_code::Mode;
use query_terms::Column;
use query_values::comparison::is_true;
use query_values::{Aggregate, share_keys};
use std::alloc::{AllocError, Global};

/// Goes to the next group, or to the end. Most turns go on at a posting: so it stays a call of its own.
#[inline(never)]
fn start_group<'r>(
    alloc: Global,
    input: &Inputs<'r, '_>,
    run: &mut Run<'r>,
) -> Result<(), AllocError>
    requires { begin_last input.now.parts.now (drop run.old.group run.old.groups)
        run.old.rows ≢ Fault }
    ensures stand { OnOk result (stand_of (rows_in input.now) run.new ≡ begin_last
        input.now.parts.now (drop run.old.group run.old.groups) run.old.rows) }
    ensures finders { run.new.finders ≡ run.old.finders }
    ensures room { run.new.frame.stack.room ≡ run.old.frame.stack.room }
{
    if run.group < run.groups.len() {
        run.frame.begin(alloc)?;
        run.stage = Stage::Last;
    } else {
        run.stage = Stage::Done;
    }
    Ok(())
}

/// Begins the filter at a posting.
#[inline(always)]
pub fn start_filter<'r>(
    alloc: Global,
    input: &Inputs<'r, '_>,
    run: &mut Run<'r>,
) -> Result<(), AllocError>
    requires there { run.old.row < length (rows_in input.now) }
    requires fine { begin_filter input.now.parts.now (drop run.old.row (rows_in input.now))
        (kept_in run.old) ≢ Fault }
    ensures stand { OnOk result (stand_of (rows_in input.now) run.new ≡ begin_filter
        input.now.parts.now (drop run.old.row (rows_in input.now)) (kept_in run.old)) }
    ensures stage { OnOk result (run.new.stage ≡ stages.Filter) }
    ensures finders { run.new.finders ≡ run.old.finders }
    ensures room { run.new.frame.stack.room ≡ run.old.frame.stack.room }
{
    run.frame.begin(alloc)?;
    run.stage = Stage::Filter;
    Ok(())
}

/// Goes to the next posting, or to the groups.
#[inline(always)]
pub fn start_row<'r>(
    alloc: Global,
    input: &Inputs<'r, '_>,
    run: &mut Run<'r>,
) -> Result<(), AllocError>
    requires { begin_filter input.now.parts.now (drop run.old.row (rows_in input.now))
        (kept_in run.old) ≢ Fault }
    ensures stand { OnOk result (stand_of (rows_in input.now) run.new ≡ begin_filter
        input.now.parts.now (drop run.old.row (rows_in input.now)) (kept_in run.old)) }
    ensures finders { run.new.finders ≡ run.old.finders }
    ensures room { run.new.frame.stack.room ≡ run.old.frame.stack.room }
{
    if run.row < input.ledger.len() {
        return start_filter(alloc, input, run);
    }
    run.group = 0;
    start_group(alloc, input, run)
}

/// Keeps what a section left as a row of the answer.
fn keep_row(run: &mut Run<'_>) -> Result<(), AllocError>
    ensures kept { OnOk result
        (kept_in run.new ≡ with_row (kept_in run.old) (reverse run.old.frame.stack.values)) }
    ensures row { run.new.row ≡ run.old.row }
    ensures group { run.new.group ≡ run.old.group }
    ensures finders { run.new.finders ≡ run.old.finders }
    ensures room { run.new.frame.stack.room ≡ run.old.frame.stack.room }
{
    run.frame.stack.move_to(&mut run.rows)
}

/// Gathers what a row section left: keys, and inputs above them.
#[inline(never)]
fn gather<'r>(input: &Inputs<'r, '_>, run: &mut Run<'r>) -> Result<(), AllocError>
    requires { grouped_with (keeps input.now.parts.now) input.now.parts.now (kept_in run.old)
        (reverse run.old.frame.stack.values) ≢ None }
    ensures kept { OnOk result (grouped_with (keeps input.now.parts.now) input.now.parts.now
        (kept_in run.old) (reverse run.old.frame.stack.values) ≡ Some (kept_in run.new)) }
    ensures row { run.new.row ≡ run.old.row }
    ensures finders { run.new.finders ≡ run.old.finders }
    ensures room { run.new.frame.stack.room ≡ run.old.frame.stack.room }
{
    let count = input.parts.code.keys as usize;
    let (keys, inputs) = run.frame.stack.as_slice().split_at(count);
    run.groups
        .put(input.parts.code.aggregates.as_slice(), keys, inputs)
}

/// Keeps what a row section left: a row of the answer, or a member of a group.
fn keep<'r>(input: &Inputs<'r, '_>, run: &mut Run<'r>) -> Result<(), AllocError>
    requires { kept_with (keeps input.now.parts.now) input.now.parts.now (kept_in run.old)
        run.old.frame.stack.values ≢ None }
    ensures kept { OnOk result (kept_with (keeps input.now.parts.now) input.now.parts.now
        (kept_in run.old) run.old.frame.stack.values ≡ Some (kept_in run.new)) }
    ensures row { run.new.row ≡ run.old.row }
    ensures finders { run.new.finders ≡ run.old.finders }
    ensures room { run.new.frame.stack.room ≡ run.old.frame.stack.room }
{
    match input.parts.mode {
        Mode::Plain => keep_row(run),
        Mode::Grouped => gather(input, run),
    }
}

/// Goes to the posting behind this one.
fn next_row<'r>(input: &Inputs<'r, '_>, run: &mut Run<'r>)
    requires { run.old.row < length (rows_in input.now) }
    ensures row { run.new.row ≡ run.old.row + 1 }
    ensures kept { kept_in run.new ≡ kept_in run.old }
    ensures finders { run.new.finders ≡ run.old.finders }
    ensures frame { run.new.frame ≡ run.old.frame }
{
    let is_there = run.row < input.ledger.len();
    prove!(is_there);
    run.row += 1;
}

/// Goes on behind the end of the row section.
#[inline(always)]
pub fn end_row<'r>(
    alloc: Global,
    input: &Inputs<'r, '_>,
    run: &mut Run<'r>,
) -> Result<(), AllocError>
    requires there { run.old.row < length (rows_in input.now) }
    requires fine { row_ends input.now.parts.now (drop run.old.row (rows_in input.now))
        (kept_in run.old) run.old.frame.stack.values ≢ Fault }
    ensures stand { OnOk result (stand_of (rows_in input.now) run.new ≡ row_ends
        input.now.parts.now (drop run.old.row (rows_in input.now)) (kept_in run.old)
        run.old.frame.stack.values) }
    ensures finders { run.new.finders ≡ run.old.finders }
    ensures room { run.new.frame.stack.room ≡ run.old.frame.stack.room }
{
    keep(input, run)?;
    next_row(input, run);
    start_row(alloc, input, run)
}

/// Begins the row section at a posting that passes; one without instructions ends at once.
fn begin_row<'r>(alloc: Global, input: &Inputs<'r, '_>, run: &mut Run<'r>) -> Result<(), AllocError>
    requires there { run.old.row < length (rows_in input.now) }
    requires fine { row_begins input.now.parts.now (drop run.old.row (rows_in input.now))
        (kept_in run.old) ≢ Fault }
    ensures stand { OnOk result (stand_of (rows_in input.now) run.new ≡ row_begins
        input.now.parts.now (drop run.old.row (rows_in input.now)) (kept_in run.old)) }
    ensures finders { run.new.finders ≡ run.old.finders }
    ensures room { run.new.frame.stack.room ≡ run.old.frame.stack.room }
{
    run.frame.begin(alloc)?;
    if input.parts.code.row.as_slice().is_empty() {
        return end_row(alloc, input, run);
    }
    run.stage = Stage::Row;
    Ok(())
}

/// The running inventory takes the position of the posting.
#[inline(never)]
fn add_position<'r>(input: &Inputs<'r, '_>, run: &mut Run<'r>) -> Result<(), AllocError>
    requires there { run.old.row < length (rows_in input.now) }
    requires fine { option_and_then (running_with run.old.running)
        (slice_get (rows_in input.now) run.old.row) ≢ None }
    ensures taken { OnOk result (option_and_then (running_with run.old.running)
        (slice_get (rows_in input.now) run.old.row) ≡ Some run.new.running) }
    ensures kept { kept_in run.new ≡ record {
      running = run.new.running;
      groups = run.old.groups;
      rows = run.old.rows;
    } }
    ensures row { run.new.row ≡ run.old.row }
    ensures finders { run.new.finders ≡ run.old.finders }
    ensures room { run.new.frame.stack.room ≡ run.old.frame.stack.room }
{
    let position = input.ledger.cell(run.row, Column::Position);
    Aggregate::SumInventory(8).add(&mut run.running, &position)?;
    share_keys(&mut run.running)
}

/// The running inventory takes the position of the posting, where the program reads it.
fn take_position<'r>(input: &Inputs<'r, '_>, run: &mut Run<'r>) -> Result<(), AllocError>
    requires there { run.old.row < length (rows_in input.now) }
    requires fine { option_and_then ((keeps input.now.parts.now).running_on run.old.running)
        (slice_get (rows_in input.now) run.old.row) ≢ None }
    ensures taken { OnOk result
        (option_and_then ((keeps input.now.parts.now).running_on run.old.running)
        (slice_get (rows_in input.now) run.old.row) ≡ Some run.new.running) }
    ensures kept { kept_in run.new ≡ record {
      running = run.new.running;
      groups = run.old.groups;
      rows = run.old.rows;
    } }
    ensures row { run.new.row ≡ run.old.row }
    ensures finders { run.new.finders ≡ run.old.finders }
    ensures room { run.new.frame.stack.room ≡ run.old.frame.stack.room }
{
    if input.reads_running {
        add_position(input, run)?;
    }
    Ok(())
}

/// Whether the posting doesn't pass, at the end of its filter. The run then stands at the posting
/// behind it.
#[inline(always)]
pub fn fails<'r>(input: &Inputs<'r, '_>, run: &mut Run<'r>) -> bool
    requires there { run.old.row < length (rows_in input.now) }
    requires fine { filter_ends input.now.parts.now (drop run.old.row (rows_in input.now))
        (kept_in run.old) run.old.frame.stack.values ≢ Fault }
    ensures fails { result ≡ true → filter_ends input.now.parts.now
        (drop run.old.row (rows_in input.now)) (kept_in run.old) run.old.frame.stack.values
        ≡ begin_filter input.now.parts.now (drop run.new.row (rows_in input.now))
        (kept_in run.new) }
    ensures passes { result ≡ false → filter_ends input.now.parts.now
        (drop run.old.row (rows_in input.now)) (kept_in run.old) run.old.frame.stack.values
        ≡ passing input.now.parts.now (drop run.new.row (rows_in input.now)) (kept_in run.new) }
    ensures there { result ≡ false → run.new.row < length (rows_in input.now) }
    ensures finders { run.new.finders ≡ run.old.finders }
    ensures room { run.new.frame.stack.room ≡ run.old.frame.stack.room }
{
    let passes = is_true(&run.frame.stack.pop());
    if !passes {
        next_row(input, run);
        return true;
    }
    false
}

/// Goes on at a posting that passes.
#[inline(always)]
pub fn pass<'r>(alloc: Global, input: &Inputs<'r, '_>, run: &mut Run<'r>) -> Result<(), AllocError>
    requires there { run.old.row < length (rows_in input.now) }
    requires fine { passing input.now.parts.now (drop run.old.row (rows_in input.now))
        (kept_in run.old) ≢ Fault }
    ensures stand { OnOk result (stand_of (rows_in input.now) run.new ≡ passing
        input.now.parts.now (drop run.old.row (rows_in input.now)) (kept_in run.old)) }
    ensures finders { run.new.finders ≡ run.old.finders }
    ensures room { run.new.frame.stack.room ≡ run.old.frame.stack.room }
{
    take_position(input, run)?;
    begin_row(alloc, input, run)
}

/// Goes on behind the end of the last section.
pub fn end_last<'r>(
    alloc: Global,
    input: &Inputs<'r, '_>,
    run: &mut Run<'r>,
) -> Result<(), AllocError>
    requires there { run.old.group < length run.old.groups }
    requires fine { last_ends input.now.parts.now (drop run.old.group run.old.groups)
        run.old.rows run.old.frame.stack.values ≢ Fault }
    ensures stand { OnOk result (stand_of (rows_in input.now) run.new ≡ last_ends
        input.now.parts.now (drop run.old.group run.old.groups) run.old.rows
        run.old.frame.stack.values) }
    ensures finders { run.new.finders ≡ run.old.finders }
    ensures room { run.new.frame.stack.room ≡ run.old.frame.stack.room }
{
    keep_row(run)?;
    let is_there = run.group < run.groups.len();
    prove!(is_there);
    run.group += 1;
    start_group(alloc, input, run)
}
