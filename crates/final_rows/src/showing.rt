//! What rows show, each once where that is asked for, and at most so many.
ghost use Rattle.std.specs.Prelude.{◌≡◌, [], false, IfOk, OnOk, length, map, take};
ghost use Rattle.plain_machine.specs.Finishing.{ComesOut};
ghost use Rattle.query_answer.specs.Rows.{ArePicked};
ghost use Rattle.query_rows.specs.FinalRows.{limited};
ghost use Rattle.query_rows.specs.Same.{each_once, with_new};
ghost use Rattle.final_rows.specs.Numbers.{numbers_limited, numbers_with_new, rows_at};

use crate::ordering::{arrange, numbers_of};
use indexmap::IndexSet;
use query_answer::AnswerRows;
use query_code::Output;
use query_values::Value;
use std::alloc::{AllocError, Global};
use value_keys::LentKey;

/// The front of a row that is shown.
fn front<'s, 'r>(row: &'s [Value<'r>], width: usize) -> &'s [Value<'r>]
    ensures { result.now ≡ take width row.now }
{
    &row[..width.min(row.len())]
}

/// Notes what a row shows, and its number where none before it shows the same.
fn note<'s, 'r>(
    number: usize,
    shown: &'s [Value<'r>],
    seen: &mut IndexSet<LentKey<'r, 's>>,
    once: &mut Vec<usize>,
) -> Result<(), AllocError>
    ensures seen { OnOk result (seen.new.keys ≡ with_new seen.old.keys shown.now) }
    ensures once { OnOk result (once.new.items
        ≡ numbers_with_new seen.old.keys shown.now once.old.items number) }
{
    if seen.insert(LentKey::new(shown))? {
        once.push(number)?;
    }
    Ok(())
}

/// The numbers of rows without those that show the same as one before.
fn shown_once(
    alloc: Global,
    rows: &AnswerRows<'_>,
    numbers: &[usize],
    width: usize,
) -> Result<Vec<usize>, AllocError>
    requires { ArePicked (length rows.now) numbers.now }
    ensures picked { IfOk result (λ once. ArePicked (length rows.now) once.items) }
    ensures shown { IfOk result (λ once. map (take width) (rows_at rows.now once.items)
        ≡ each_once [] (map (take width) (rows_at rows.now numbers.now))) }
{
    let mut seen = IndexSet::new(alloc);
    let mut once = Vec::new(alloc);
    for number in numbers {
        let shown = front(rows.row(*number), width);
        note(*number, shown, &mut seen, &mut once)?;
    }
    Ok(once)
}

/// At most so many numbers.
fn limit_to(numbers: &mut Vec<usize>, limit: Option<u32>)
    ensures { numbers.new.items ≡ numbers_limited limit numbers.old.items }
{
    if let Some(most) = limit {
        numbers.truncate(most as usize);
    }
}

/// At most so many rows.
fn limit_rows(rows: &mut AnswerRows<'_>, limit: Option<u32>)
    ensures { rows.new ≡ limited limit rows.old }
{
    if let Some(most) = limit {
        rows.truncate(most as usize);
    }
}

/// What comes out where there is nothing to order by: the first rows, where they lie.
fn first_rows<'r>(output: &Output<'_>, rows: AnswerRows<'r>) -> AnswerRows<'r>
    requires none { output.now.order ≡ [] }
    requires all { output.now.is_distinct ≡ false }
    ensures { ComesOut output.now rows.entry result }
{
    let mut rows = rows;
    limit_rows(&mut rows, output.limit);
    rows.narrow(output.targets.as_slice().len());
    rows
}

/// The numbers of the rows that come out, in the order in which they do.
fn numbers_out(
    alloc: Global,
    output: &Output<'_>,
    rows: &AnswerRows<'_>,
) -> Result<Vec<usize>, AllocError>
    ensures picked { IfOk result (λ numbers. ArePicked (length rows.now) numbers.items) }
    ensures out { IfOk result (λ numbers. ComesOut output.now rows.now
        (map (take (length output.now.targets)) (rows_at rows.now numbers.items))) }
{
    let mut numbers = numbers_of(alloc, rows)?;
    arrange(alloc, output, rows, &mut numbers)?;
    if output.is_distinct {
        let width = output.targets.as_slice().len();
        let mut once = shown_once(alloc, rows, &numbers, width)?;
        limit_to(&mut once, output.limit);
        return Ok(once);
    }
    limit_to(&mut numbers, output.limit);
    Ok(numbers)
}

/// The rows that come out of those at the end of a program: in its order, what is shown of them,
/// each once where the program wants it, and no more than its limit.
pub fn finish<'r>(
    alloc: Global,
    output: &Output<'_>,
    rows: AnswerRows<'r>,
) -> Result<AnswerRows<'r>, AllocError>
    ensures { IfOk result (λ final. ComesOut output.now rows.entry final) }
{
    if output.order.as_slice().is_empty() && !output.is_distinct {
        return Ok(first_rows(output, rows));
    }
    let numbers = numbers_out(alloc, output, &rows)?;
    let mut out = rows.picked(alloc, &numbers)?;
    out.narrow(output.targets.as_slice().len());
    Ok(out)
}
