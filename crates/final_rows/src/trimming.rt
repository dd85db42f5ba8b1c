//! How many rows have to be kept while rows still come.
ghost use Rattle.std.specs.Prelude.{◌≡◌, ◌<◌, ◌≤◌, Some, IfOk, OnOk, filter, length, take};
ghost use Rattle.query_answer.specs.Rows.{ArePicked};
ghost use Rattle.final_rows.specs.Enough as spec;
ghost use Rattle.final_rows.specs.Enough.{AreEnough, AreFew, stays};
ghost use Rattle.final_rows.specs.Numbers.{rows_at};

use crate::ordering::{arrange, comes_before, numbers_of};
use query_answer::AnswerRows;
use query_code::Output;
use query_values::Value;
use std::alloc::{AllocError, Global};
use std::mem::replace;

/// How many rows in the front of the output's order are enough, whatever rows follow. Where rows
/// are told once there is no such number.
fn enough(output: &Output<'_>) -> Option<usize>
    ensures { result ≡ spec.enough_of output.now }
{
    if output.is_distinct {
        return None;
    }
    match output.limit {
        Some(most) => Some(most as usize),
        None => None,
    }
}

/// The one of two rows that comes later, the first where they tie.
fn later<'s, 'r>(output: &Output<'_>, a: &'s [Value<'r>], b: &'s [Value<'r>]) -> &'s [Value<'r>]
    ensures { result.now ≡ spec.later_of output.now a.now b.now }
{
    if comes_before(output, a, b) { b } else { a }
}

/// The row that comes last of so many in front: the first of those that tie.
fn last_of<'s, 'r>(output: &Output<'_>, rows: &'s AnswerRows<'r>, most: usize) -> &'s [Value<'r>]
    requires some { 0 < most }
    requires many { most ≤ length rows.now }
    ensures { result.now ≡ spec.last_of output.now (take most rows.now) }
{
    let mut last = rows.row(0);
    for number in 1..most {
        last = later(output, last, rows.row(number));
    }
    last
}

/// Keeps the numbers of the first rows, and of those that come before a row.
fn keep_before(
    output: &Output<'_>,
    rows: &AnswerRows<'_>,
    most: usize,
    last: &[Value<'_>],
    numbers: &mut Vec<usize>,
)
    ensures { numbers.new.items
        ≡ filter (stays output.now rows.now most last.now) numbers.old.items }
{
    numbers.retain(
        |number: &usize| -> bool
            ensures answer { result ≡ stays output.entry.now rows.entry.now most
                last.entry.now number.now }
            ensures output { output.exit.now ≡ output.entry.now }
            ensures rows { rows.exit.now ≡ rows.entry.now }
            ensures last { last.exit.now ≡ last.entry.now }
        { *number < most || comes_before(output, rows.row(*number), last) },
    );
}

/// The numbers of so many rows in front and of those behind them that come before the last of these.
fn thinned(
    alloc: Global,
    output: &Output<'_>,
    most: usize,
    rows: &AnswerRows<'_>,
) -> Result<Vec<usize>, AllocError>
    requires enough { spec.enough_of output.now ≡ Some most }
    requires many { most < length rows.now }
    ensures picked { IfOk result (λ numbers. ArePicked (length rows.now) numbers.items) }
    ensures enough { IfOk result (λ numbers.
        AreEnough output.now (rows_at rows.now numbers.items) rows.now) }
{
    let mut numbers = numbers_of(alloc, rows)?;
    if most > 0 {
        let last = last_of(output, rows, most);
        keep_before(output, rows, most, last, &mut numbers);
    }
    Ok(numbers)
}

/// The numbers of so many rows in the front of the order.
fn front(
    alloc: Global,
    output: &Output<'_>,
    most: usize,
    rows: &AnswerRows<'_>,
) -> Result<Vec<usize>, AllocError>
    requires enough { spec.enough_of output.now ≡ Some most }
    requires many { most < length rows.now }
    ensures picked { IfOk result (λ numbers. ArePicked (length rows.now) numbers.items) }
    ensures enough { IfOk result (λ numbers.
        AreEnough output.now (rows_at rows.now numbers.items) rows.now) }
    ensures few { IfOk result (λ numbers. length numbers.items ≤ most) }
{
    // Few are left to be sorted: where rows come in any order, most stand behind those in front.
    let mut numbers = thinned(alloc, output, most, rows)?;
    arrange(alloc, output, rows, &mut numbers)?;
    numbers.truncate(most);
    Ok(numbers)
}

/// Keeps so many rows in the front of the order, and the memory of these alone.
fn cut(
    alloc: Global,
    output: &Output<'_>,
    most: usize,
    rows: &mut AnswerRows<'_>,
) -> Result<(), AllocError>
    requires enough { spec.enough_of output.now ≡ Some most }
    requires many { most < length rows.old }
    ensures enough { OnOk result (AreEnough output.now rows.new rows.old) }
    ensures few { OnOk result (length rows.new ≤ most) }
{
    let numbers = front(alloc, output, most, rows)?;
    let all = replace(rows, AnswerRows::new(alloc));
    *rows = all.picked(alloc, &numbers)?;
    Ok(())
}

/// Lets go of rows that can't come out any more, whatever rows follow, where there are more than
/// twice as many as can.
pub fn trim(alloc: Global, output: &Output<'_>, rows: &mut AnswerRows<'_>) -> Result<(), AllocError>
    ensures enough { OnOk result (AreEnough output.now rows.new rows.old) }
    ensures few { OnOk result (AreFew output.now rows.new) }
    ensures less { OnOk result (length rows.new ≤ length rows.old) }
{
    if let Some(most) = enough(output) {
        if rows.len() > most && rows.len() - most > most {
            cut(alloc, output, most, rows)?;
        }
    }
    Ok(())
}
