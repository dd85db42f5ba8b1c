//! How deep the stack of a program becomes.
ghost use Rattle.std.specs.Prelude.{◌≡◌, reverse, true};
ghost use Rattle.std.specs.List.{list_all};
ghost use Rattle.query_rows.specs.ColumnShape.{AreBounds};
ghost use Rattle.verify_programs.specs.Loading.{has_members};
ghost use Rattle.verify_programs.specs.Depths as spec;
ghost use Rattle.verify_programs.specs.declared.spot.Spot.TheVariants.{Filter, Row, Last};
ghost use Rattle.refusals.specs.declared.refusal.Refusal.TheVariants.{Refused};
ghost use Rattle.query_code.specs.declared.program.Mode.TheVariants.{Grouped};
ghost use Rattle.well_shaped.specs.Ends.{HandsOver};

use crate::ends::{ToLast, handed, is_one_truth, is_row};
use crate::spot::{Fault, Spot};
use crate::{CodeCause, Loads, Passed, SectionCause, pass};
use query_code::{Mode, Parts};
use refusals::Refusal;
use std::alloc::Global;

fn fault(cause: CodeCause, spot: Spot) -> Refusal<Fault>
    ensures { result ≡ Refused (record { cause = cause; spot = spot }) }
{
    Refusal::Refused(Fault { cause, spot })
}

/// The fault of a cause in the filter.
fn in_filter(refusal: Refusal<SectionCause>) -> Refusal<Fault>
    ensures { result ≡ spec.placed Filter refusal }
{
    match refusal {
        Refusal::OutOfMemory => Refusal::OutOfMemory,
        Refusal::Refused(at) => fault(at.cause, Spot::Filter(at.place)),
    }
}

/// The fault of a cause in the row section.
fn in_row(refusal: Refusal<SectionCause>) -> Refusal<Fault>
    ensures { result ≡ spec.placed Row refusal }
{
    match refusal {
        Refusal::OutOfMemory => Refusal::OutOfMemory,
        Refusal::Refused(at) => fault(at.cause, Spot::Row(at.place)),
    }
}

/// The fault of a cause in the last section.
fn in_last(refusal: Refusal<SectionCause>) -> Refusal<Fault>
    ensures { result ≡ spec.placed Last refusal }
{
    match refusal {
        Refusal::OutOfMemory => Refusal::OutOfMemory,
        Refusal::Refused(at) => fault(at.cause, Spot::Last(at.place)),
    }
}

/// The fault of a cause at the end of the row section, which has so many instructions.
fn at_end(refusal: Refusal<CodeCause>, instructions: usize) -> Refusal<Fault>
    ensures { result ≡ spec.ended (Row instructions) refusal }
{
    match refusal {
        Refusal::OutOfMemory => Refusal::OutOfMemory,
        Refusal::Refused(cause) => fault(cause, Spot::Row(instructions)),
    }
}

/// The depth of the filter, which leaves one truth value.
fn filter_depth(alloc: Global, parts: &Parts<'_>) -> Result<usize, Refusal<Fault>>
    requires bounds { AreBounds parts.now.bounds }
    requires some { list_all has_members parts.now.code.pool ≡ true }
    ensures { spec.FilterAnswers parts.now result }
{
    let loads = Loads::of_filter(alloc, parts.bounds);
    let code = parts.code.filter.as_slice();
    match pass(alloc, parts.code.pool.as_slice(), &loads, code) {
        Ok(passed) => {
            if !is_one_truth(passed.end.values()) {
                return Err(fault(CodeCause::Values, Spot::Filter(code.len())));
            }
            Ok(passed.depth)
        }
        Err(refusal) => Err(in_filter(refusal)),
    }
}

/// What is known of the row section.
fn row_passed(alloc: Global, parts: &Parts<'_>) -> Result<Passed, Refusal<Fault>>
    requires bounds { AreBounds parts.now.bounds }
    requires some { list_all has_members parts.now.code.pool ≡ true }
    ensures { spec.RowAnswers parts.now result }
{
    let loads = Loads::of_row(alloc, parts.mode, parts.bounds);
    let code = parts.code.row.as_slice();
    match pass(alloc, parts.code.pool.as_slice(), &loads, code) {
        Ok(passed) => Ok(passed),
        Err(refusal) => Err(in_row(refusal)),
    }
}

/// The depth of the last section, which leaves a row, over what is handed to it.
fn last_depth(
    alloc: Global,
    parts: &Parts<'_>,
    row: &Passed,
    to_last: ToLast,
) -> Result<usize, Refusal<Fault>>
    requires some { list_all has_members parts.now.code.pool ≡ true }
    requires row { spec.IsRowLeast parts.now row.now.end row.now.depth }
    requires handed { HandsOver parts.now.bounds.postings parts.now.code (reverse row.now.end.stack)
        to_last.keys to_last.totals }
    requires grouped { parts.now.mode ≡ Grouped }
    ensures { spec.LastAnswers parts.now to_last.keys to_last.totals result }
{
    // The clauses alone speak of the row section: it hands over what this one finds.
    let _ = row;
    let loads = Loads::of_last(to_last.keys, to_last.totals);
    let code = parts.code.last.as_slice();
    match pass(alloc, parts.code.pool.as_slice(), &loads, code) {
        Ok(passed) => {
            if !is_row(&parts.output, passed.end.values()) {
                return Err(fault(CodeCause::Values, Spot::Last(code.len())));
            }
            Ok(passed.depth)
        }
        Err(refusal) => Err(in_last(refusal)),
    }
}

/// The depth of the last section where postings are grouped.
fn grouped_depth(alloc: Global, parts: &Parts<'_>, row: &Passed) -> Result<usize, Refusal<Fault>>
    requires some { list_all has_members parts.now.code.pool ≡ true }
    requires row { spec.IsRowLeast parts.now row.now.end row.now.depth }
    requires grouped { parts.now.mode ≡ Grouped }
    ensures { spec.EndAnswers parts.now row.now.end result }
{
    match handed(alloc, parts.bounds.postings, &parts.code, row.end.values()) {
        Ok(to_last) => last_depth(alloc, parts, row, to_last),
        Err(refusal) => Err(at_end(refusal, parts.code.row.as_slice().len())),
    }
}

/// The depth behind the row section: that of the last section where postings are grouped, else 0.
fn depth_behind(alloc: Global, parts: &Parts<'_>, row: &Passed) -> Result<usize, Refusal<Fault>>
    requires some { list_all has_members parts.now.code.pool ≡ true }
    requires row { spec.IsRowLeast parts.now row.now.end row.now.depth }
    ensures { spec.EndAnswers parts.now row.now.end result }
{
    match parts.mode {
        Mode::Plain => {
            if !is_row(&parts.output, row.end.values()) {
                let end = Spot::Row(parts.code.row.as_slice().len());
                return Err(fault(CodeCause::Values, end));
            }
            Ok(0)
        }
        Mode::Grouped => grouped_depth(alloc, parts, row),
    }
}

/// How deep the stack of a program becomes that is well shaped; or the first fault that keeps it
/// from being so.
pub fn depth_of(alloc: Global, parts: &Parts<'_>) -> Result<usize, Refusal<Fault>>
    requires bounds { AreBounds parts.now.bounds }
    requires some { list_all has_members parts.now.code.pool ≡ true }
    ensures { spec.Answers parts.now result }
{
    let filter = match filter_depth(alloc, parts) {
        Ok(depth) => depth,
        Err(refusal) => return Err(refusal),
    };
    let row = match row_passed(alloc, parts) {
        Ok(row) => row,
        Err(refusal) => return Err(refusal),
    };
    match depth_behind(alloc, parts, &row) {
        Ok(behind) => Ok(filter.max(row.depth).max(behind)),
        Err(refusal) => Err(refusal),
    }
}
