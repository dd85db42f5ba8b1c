//! A list in pieces of memory: it grows without being moved, and its pieces stand where others gave
//! memory up.
ghost use Rattle.std.specs.Prelude.{◌≡◌, ◌<◌, ◌≤◌, ◌^◌, ◌++◌, ◌∷◌, [], OnOk, OnErr, Some, length, slice_get};
ghost use Rattle.pieces.specs.Pieces.{AreFull, pieced};
ghost use Rattle.pieces.specs.declared.pieces.TheConstants.{PIECE};

pub(crate) mod parts;
pub(crate) mod taken;

use bean_base::List;
use std::alloc::{AllocError, Global};
use std::marker::Model;
use std::mem::replace;

/// How many items a piece has: as many as a block has postings while a text is read, so that a piece of a
/// ledger's rows, which are as large, takes the memory of a block that was given up.
pub(crate) const PIECE: usize = 1_024;

/// A list in pieces.
#[derive(Drop)]
pub struct Pieces<T> {
    full: Vec<List<T>>,
    last: Vec<T>,
    count: usize,
}

impl<T> Model for Pieces<T> {
    ghost use Rattle.std.specs.Prelude as prelude;
    ghost use Rattle.std.specs.Prelude.{◌≡◌, ◌≤◌, length};
    ghost use Rattle.pieces.specs.Pieces.{AreFull, pieced};
    ghost use Rattle.pieces.specs.declared.pieces.TheConstants.{PIECE};

    ghost Value = { prelude.List T };

    ghost view = { λ p. pieced p.full.items p.last.items };

    ghost invariant = { λ p. (p.count ≡ length (pieced p.full.items p.last.items))
        × AreFull PIECE p.full.items × (length p.last.items ≤ PIECE) };
}

/// Begins a piece behind the last one. Few items need it: it stays out of what is done for each.
#[inline(never)]
fn begin_piece<T: Drop>(
    alloc: Global,
    full: &mut Vec<List<T>>,
    last: &mut Vec<T>,
) -> Result<(), AllocError>
    ensures begun { OnOk result (full.new.items ≡ full.old.items ++ last.old.items ∷ []) }
    ensures empty { OnOk result (last.new.items ≡ []) }
    ensures unchanged { OnErr result
        ((full.new.items ≡ full.old.items) × (last.new.items ≡ last.old.items)) }
{
    let piece = Vec::with_capacity(alloc, PIECE)?;
    let at = full.len();
    full.push(List::new(Vec::new(alloc)))?;
    full[at] = List::new(replace(last, piece));
    Ok(())
}

/// Makes room for an item in the last piece.
fn make_room<T: Drop>(
    alloc: Global,
    full: &mut Vec<List<T>>,
    last: &mut Vec<T>,
) -> Result<(), AllocError>
    requires full { AreFull PIECE full.old.items }
    requires short { length last.old.items ≤ PIECE }
    ensures same { pieced full.new.items last.new.items ≡ pieced full.old.items last.old.items }
    ensures full { AreFull PIECE full.new.items }
    ensures short { length last.new.items ≤ PIECE }
    ensures room { OnOk result (length last.new.items < PIECE) }
{
    if last.len() == PIECE {
        begin_piece(alloc, full, last)?;
    }
    Ok(())
}

impl<T: Drop> Pieces<T> {
    /// An empty list. Takes no memory.
    pub fn new(alloc: Global) -> Pieces<T>
        ensures { result ≡ [] }
    {
        Pieces {
            full: Vec::new(alloc),
            last: Vec::new(alloc),
            count: 0,
        }
    }

    /// How many items it has.
    pub fn len(&self) -> usize
        ensures { result ≡ length self.now }
    {
        self.count
    }

    /// Its pieces, the last one by itself.
    pub fn pieces(&self) -> (&[List<T>], &[T])
        ensures { pieced result.0.now result.1.now ≡ self.now }
    {
        (&self.full, &self.last)
    }

    /// The item at an index.
    pub fn at(&self, index: usize) -> &T
        requires { index < length self.now }
        ensures { Some result.now ≡ slice_get self.now index }
    {
        match self.full.get(index / PIECE) {
            Some(piece) => &piece.as_slice()[index % PIECE],
            None => &self.last[index % PIECE],
        }
    }

    /// Adds an item at the end. It is put in place where it is called, so that an item is moved once.
    #[inline(always)]
    pub fn push(&mut self, alloc: Global, item: T) -> Result<(), AllocError>
        requires { length self.old < 2 ^ 40 }
        ensures pushed { OnOk result (self.new ≡ self.old ++ item ∷ []) }
        ensures unchanged { OnErr result (self.new ≡ self.old) }
    {
        make_room(alloc, &mut self.full, &mut self.last)?;
        self.last.push(item)?;
        self.count += 1;
        Ok(())
    }
}
