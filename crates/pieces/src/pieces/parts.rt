//! A list in pieces that is taken apart, piece by piece.
ghost use Rattle.std.specs.Prelude.{◌≡◌, ◌<◌, ◌++◌, [], IfOk, IfSome, IsNone, length};
ghost use Rattle.pieces.specs.Pieces.{pieced};

use super::Pieces;
use bean_base::List;
use std::alloc::AllocError;
use std::marker::Model;
use std::mem::forget;
use std::vec::IntoIter;

/// The pieces of a list, one behind the other.
#[derive(Drop)]
pub struct Parts<T> {
    pieces: IntoIter<List<T>>,
}

impl<T> Model for Parts<T> {
    ghost use Rattle.std.specs.Prelude as prelude;
    ghost use Rattle.std.specs.Prelude.{[]};
    ghost use Rattle.pieces.specs.Pieces.{pieced};

    ghost Value = { prelude.List T };

    ghost view = { λ p. pieced p.pieces.rest.items [] };
}

/// Takes the next piece that has an item.
fn next_of<T: Drop>(pieces: &mut IntoIter<List<T>>) -> Option<List<T>>
    ensures some { IfSome result (λ piece. pieced pieces.old.rest.items []
        ≡ piece ++ pieced pieces.new.rest.items []) }
    ensures has { IfSome result (λ piece. 0 < length piece) }
    ensures none { IsNone result → (pieced pieces.old.rest.items [] ≡ []) × (pieces.new.rest.items ≡ []) }
{
    while let Some(piece) = pieces.next() {
        if piece.as_slice().len() > 0 {
            return Some(piece);
        }
    }
    None
}

impl<T: Drop> Parts<T> {
    /// The pieces of a list.
    pub fn new(list: Pieces<T>) -> Result<Parts<T>, AllocError>
        ensures { IfOk result (λ parts. parts ≡ list) }
    {
        let Pieces { full, last, .. } = list;
        let mut full = full;
        full.push(List::new(last))?;
        Ok(Parts {
            pieces: full.into_iter(),
        })
    }

    /// The next piece that has an item.
    pub fn next(&mut self) -> Option<List<T>>
        ensures some { IfSome result (λ piece. self.old ≡ piece ++ self.new) }
        ensures has { IfSome result (λ piece. 0 < length piece) }
        ensures none { IsNone result → (self.old ≡ []) × (self.new ≡ []) }
    {
        next_of(&mut self.pieces)
    }
}

/// Gives the memory of a piece back, and forgets its items: for callers at the end of a process, which
/// takes back at once all that these hold.
pub fn forget_items<T: Drop>(piece: List<T>) {
    let mut items = piece.into_vec();
    while let Some(item) = items.pop() {
        forget(item);
    }
}
