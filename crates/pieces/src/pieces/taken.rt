//! The items of a list in pieces, one after the other, out of their pieces.
ghost use Rattle.std.specs.Prelude.{◌≡◌, ◌≤◌, ◌^◌, ◌+◌, ◌++◌, ◌∷◌, [], ℕ, IfOk, IfSome, IsNone, OnOk};
ghost use Rattle.std.specs.Prelude.{drop, length, take};
ghost use Rattle.pieces.specs.Pieces.{pieced};

use super::Pieces;
use bean_base::List;
use std::alloc::{AllocError, Global};
use std::marker::Model;
use std::vec::IntoIter;

/// Items that were taken out of a list. A piece is given up as soon as it is empty.
#[derive(Drop)]
pub struct Taken<T> {
    piece: IntoIter<T>,
    pieces: IntoIter<List<T>>,
}

impl<T> Model for Taken<T> {
    ghost use Rattle.std.specs.Prelude as prelude;
    ghost use Rattle.std.specs.Prelude.{◌++◌, []};
    ghost use Rattle.pieces.specs.Pieces.{pieced};

    ghost Value = { prelude.List T };

    ghost view = { λ t. t.piece.rest.items ++ pieced t.pieces.rest.items [] };
}

/// Takes the next piece that has an item, where the present one has none.
fn turn<T: Drop>(piece: &mut IntoIter<T>, pieces: &mut IntoIter<List<T>>)
    ensures same { piece.new.rest.items ++ pieced pieces.new.rest.items []
        ≡ piece.old.rest.items ++ pieced pieces.old.rest.items [] }
    ensures last { piece.new.rest.items ≡ [] → pieces.new.rest.items ≡ [] }
{
    while piece.len() == 0 {
        match pieces.next() {
            Some(next) => *piece = next.into_vec().into_iter(),
            None => return,
        }
    }
}

impl<T: Drop> Taken<T> {
    /// The items of a list.
    pub fn new(alloc: Global, list: Pieces<T>) -> Result<Taken<T>, AllocError>
        ensures { IfOk result (λ taken. taken ≡ list) }
    {
        let Pieces { full, last, .. } = list;
        let mut full = full;
        full.push(List::new(last))?;
        Ok(Taken {
            piece: Vec::new(alloc).into_iter(),
            pieces: full.into_iter(),
        })
    }

    /// The next item.
    pub fn next(&mut self) -> Option<T>
        ensures some { IfSome result (λ item. self.old ≡ item ∷ self.new) }
        ensures none { IsNone result → (self.old ≡ []) × (self.new ≡ []) }
    {
        turn(&mut self.piece, &mut self.pieces);
        self.piece.next()
    }
}

/// Moves so many items to the end of a list, or as many as there are.
pub fn move_items<T: Drop>(
    alloc: Global,
    to: &mut Pieces<T>,
    from: &mut Taken<T>,
    count: usize,
) -> Result<(), AllocError>
    requires { length to.old + length from.old ≤ 2 ^ 40 }
    ensures moved { OnOk result (to.new ≡ to.old ++ take count from.old) }
    ensures rest { OnOk result (from.new ≡ drop count from.old) }
    ensures front { (n : ℕ) × (to.new ≡ to.old ++ take n from.old) }
    ensures behind { (n : ℕ) × (from.new ≡ drop n from.old) }
{
    for i in 0..count {
        match from.next() {
            Some(item) => to.push(alloc, item)?,
            None => return Ok(()),
        }
    }
    Ok(())
}
