//! Handing bytes over to an output.
ghost use Rattle.outputs.specs.Output.{TookFront};

use crate::output::{NotTaken, Output};

/// Hands bytes over until all are taken, or the output fails or takes nothing, and counts them.
pub fn write_bytes<W: Output>(out: &mut W, bytes: &[u8]) -> usize
    ensures { TookFront W.Output out.old out.new bytes.now result }
{
    let mut written = 0;
    while written < bytes.len() {
        match out.write(&bytes[written..]) {
            Ok(0) => return written,
            Ok(count) => written += count,
            Err(NotTaken) => return written,
        }
    }
    written
}
