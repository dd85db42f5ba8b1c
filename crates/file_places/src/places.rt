//! The places of what stands in the code of a file.
ghost use Rattle.query_code.specs.QueryFile.{IsFile};
ghost use Rattle.file_places.specs.Places as spec;

use crate::lengths::{code_len, pool_len};
use query_code::Parts;

/// The first byte of an instruction of the last section, or the byte behind it.
pub fn place_in_last(bytes: &[u8], parts: &Parts<'_>, instruction: usize) -> usize
    requires { IsFile bytes.now parts.now }
    ensures { spec.IsPlace bytes.now (spec.from_last parts.now.code instruction) result }
{
    let end = bytes.len();
    let steps = parts.code.last.as_slice();
    let (_, rest) = steps.split_at(instruction.min(steps.len()));
    end - code_len(rest)
}

/// The first byte of an instruction of the row section, or the byte behind it.
pub fn place_in_row(bytes: &[u8], parts: &Parts<'_>, instruction: usize) -> usize
    requires { IsFile bytes.now parts.now }
    ensures { spec.IsPlace bytes.now (spec.from_row parts.now.code instruction) result }
{
    let last = place_in_last(bytes, parts, 0);
    let steps = parts.code.row.as_slice();
    let (_, rest) = steps.split_at(instruction.min(steps.len()));
    last - 2 - code_len(rest)
}

/// The first byte of an instruction of the filter, or the byte behind it.
pub fn place_in_filter(bytes: &[u8], parts: &Parts<'_>, instruction: usize) -> usize
    requires { IsFile bytes.now parts.now }
    ensures { spec.IsPlace bytes.now (spec.from_filter parts.now.code instruction) result }
{
    let row = place_in_row(bytes, parts, 0);
    let steps = parts.code.filter.as_slice();
    let (_, rest) = steps.split_at(instruction.min(steps.len()));
    row - 2 - code_len(rest)
}

/// The first byte of an entry of the pool.
pub fn place_in_pool(bytes: &[u8], parts: &Parts<'_>, entry: usize) -> usize
    requires { IsFile bytes.now parts.now }
    ensures { spec.IsPlace bytes.now (spec.from_pool parts.now.code entry) result }
{
    let filter = place_in_filter(bytes, parts, 0);
    let entries = parts.code.pool.as_slice();
    let (_, rest) = entries.split_at(entry.min(entries.len()));
    filter - 2 - pool_len(rest)
}
