//! The lines of a table while they are made. They stand in pieces of memory, so that no line is moved
//! when there are more, and a piece takes what a piece of a ledger's rows gave up.
ghost use Rattle.std.specs.Prelude.{◌≡◌, ◌++◌, ◌∷◌, [], IfOk, OnOk};
ghost use Rattle.table_printer.specs.Growing.{grown};

use bean_base::List;
use std::alloc::{AllocError, Global};
use std::mem::replace;

/// How many bytes a piece has room for: as many as 1,024 rows of a ledger take.
const PIECE: usize = 49_152;

/// Where a piece has so many bytes, the next line goes to another.
const MOST: usize = PIECE - 256;

/// Lines, one behind the other.
#[derive(Drop)]
pub(crate) struct Growing {
    pub full: Vec<List<u8>>,
    pub last: Vec<u8>,
    /// Where the last piece has more bytes, another is begun.
    most: usize,
}

/// Begins a piece behind the last one. Few lines need it: it stays out of what is done for each.
#[inline(never)]
fn begin_piece(
    alloc: Global,
    full: &mut Vec<List<u8>>,
    last: &mut Vec<u8>,
) -> Result<(), AllocError>
    ensures begun { OnOk result (full.new.items ≡ full.old.items ++ last.old.items ∷ []) }
    ensures empty { OnOk result (last.new.items ≡ []) }
{
    let piece = Vec::with_capacity(alloc, PIECE)?;
    full.push(List::new(replace(last, piece)))?;
    Ok(())
}

impl Growing {
    /// No lines so far, which are to stand in pieces.
    pub(crate) fn in_pieces(alloc: Global) -> Result<Growing, AllocError>
        ensures { IfOk result (λ lines. grown lines ≡ []) }
    {
        Ok(Growing {
            full: Vec::new(alloc),
            last: Vec::with_capacity(alloc, PIECE)?,
            most: MOST,
        })
    }

    /// No lines so far, which are to stand in one piece, with room for so many bytes.
    pub(crate) fn whole(alloc: Global, room: usize) -> Result<Growing, AllocError>
        ensures { IfOk result (λ lines. grown lines ≡ []) }
    {
        Ok(Growing {
            full: Vec::new(alloc),
            last: Vec::with_capacity(alloc, room)?,
            most: usize::MAX,
        })
    }

    /// Makes room for a line.
    #[inline(always)]
    pub(crate) fn make_room(&mut self, alloc: Global) -> Result<(), AllocError>
        ensures { OnOk result (grown self.new ≡ grown self.old) }
    {
        if self.last.len() > self.most {
            begin_piece(alloc, &mut self.full, &mut self.last)?;
        }
        Ok(())
    }

    /// The lines in one piece: that in which they were made, where there is one.
    pub(crate) fn into_whole(self, alloc: Global) -> Result<Vec<u8>, AllocError>
        ensures { IfOk result (λ text. text.items ≡ grown self) }
    {
        let Growing { full, last, .. } = self;
        if full.is_empty() {
            return Ok(last);
        }
        let mut text = Vec::new(alloc);
        for piece in &full {
            text.extend_from_slice(piece.as_slice())?;
        }
        text.extend_from_slice(&last)?;
        Ok(text)
    }
}
