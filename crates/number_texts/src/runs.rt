//! Runs of one byte.
ghost use Rattle.std.specs.Prelude.{◌≡◌, ◌++◌, replicate, OnOk};
ghost use Rattle.bean_base.specs.Character.{space};

use std::alloc::AllocError;

/// Adds a byte so many times.
pub fn push_run(out: &mut Vec<u8>, byte: u8, count: usize) -> Result<(), AllocError>
    ensures { OnOk result (out.new.items ≡ out.old.items ++ replicate count byte) }
{
    // Many columns are full without it.
    if count == 0 {
        return Ok(());
    }
    out.reserve(count)?;
    out.resize(out.len() + count, byte)
}

/// Adds spaces. Where they are few, as they mostly are, so many are added as are copied at once, and
/// those that are too many taken off.
#[inline(always)]
pub fn push_spaces(out: &mut Vec<u8>, count: usize) -> Result<(), AllocError>
    ensures { OnOk result (out.new.items ≡ out.old.items ++ replicate count space) }
{
    if count == 0 {
        return Ok(());
    }
    if count > 16 {
        return push_run(out, b' ', count);
    }
    out.extend_from_slice(&[b' '; 16])?;
    out.truncate(out.len() - (16 - count));
    Ok(())
}
