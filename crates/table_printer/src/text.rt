//! The text of a table that stands in pieces of memory.
ghost use Rattle.std.specs.Prelude.{◌≡◌, ◌++◌, ◌<◌, ◌^◌, length, IfOk, IfSome};
ghost use Rattle.outputs.specs.Output.{TookInPieces};
ghost use Rattle.table_printer.specs.Growing.{grown, together};

use crate::growing::Growing;
use bean_base::List;
use outputs::{Output, write_bytes};
use std::alloc::AllocError;
use std::marker::Model;

/// The text of a table, in pieces one behind the other.
#[derive(Drop)]
pub struct TableText {
    pieces: List<List<u8>>,
    len: usize,
}

impl Model for TableText {
    ghost use Rattle.std.specs.Prelude as prelude;
    ghost use Rattle.std.specs.Prelude.{◌≡◌, ◌<◌, ◌^◌, ℕ, length};
    ghost use Rattle.table_printer.specs.Growing.{together};

    ghost Value = { prelude.List ℕ };

    ghost view = { λ t. together t.pieces };

    ghost invariant = { λ t. (t.len ≡ length (together t.pieces)) × (t.len < 2 ^ 64) };
}

/// How many bytes pieces have together, where a machine number holds that.
fn len_of(pieces: &[List<u8>]) -> Option<usize>
    ensures { IfSome result (λ len. len ≡ length (together pieces.now)) }
{
    let mut len = 0usize;
    for piece in pieces {
        len = len.checked_add(piece.as_slice().len())?;
    }
    Some(len)
}

/// The pieces of lines behind their head.
fn behind(head: Vec<u8>, lines: Growing) -> Result<Vec<List<u8>>, AllocError>
    ensures { IfOk result (λ pieces. together pieces.items ≡ head.items ++ grown lines) }
{
    let Growing { full, last, .. } = lines;
    let mut pieces = full;
    pieces.push(List::new(last))?;
    pieces.insert(0, List::new(head))?;
    Ok(pieces)
}

/// Writes pieces, one behind the other, until the output fails or takes nothing, and counts their
/// bytes.
fn write_pieces<W: Output>(pieces: &[List<u8>], out: &mut W) -> usize
    requires { length (together pieces.now) < 2 ^ 64 }
    ensures { TookInPieces W.Output out.old out.new (together pieces.now) result }
{
    let mut written = 0usize;
    for piece in pieces {
        let bytes = piece.as_slice();
        let count = write_bytes(out, bytes);
        written += count;
        if count < bytes.len() {
            return written;
        }
    }
    written
}

impl TableText {
    /// Lines behind their head. Refused where a machine number doesn't hold how many bytes they have.
    pub(crate) fn new(head: Vec<u8>, lines: Growing) -> Result<TableText, AllocError>
        ensures { IfOk result (λ text. text ≡ head.items ++ grown lines) }
    {
        let pieces = behind(head, lines)?;
        match len_of(&pieces) {
            Some(len) => Ok(TableText {
                pieces: List::new(pieces),
                len,
            }),
            None => Err(AllocError),
        }
    }

    /// How many bytes it has.
    pub fn len(&self) -> usize
        ensures { result ≡ length self.now }
    {
        self.len
    }

    /// Writes it until all is taken, or the output fails or takes nothing, and counts its bytes. Takes
    /// no memory.
    pub fn write<W: Output>(&self, out: &mut W) -> usize
        ensures { TookInPieces W.Output out.old out.new self.now result }
    {
        write_pieces(self.pieces.as_slice(), out)
    }
}
