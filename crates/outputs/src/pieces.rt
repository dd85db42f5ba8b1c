//! A text that is handed over in pieces.
ghost use Rattle.std.specs.Prelude.{◌≡◌, ◌+◌, ◌<◌, ◌^◌, [], length, OnOk};
ghost use Rattle.outputs.specs.Pieces.{AreJoined, EndsEarly, Flushes, IsOnePiece, Puts};
ghost use Rattle.outputs.specs.Pieces.{length_so_far, together};

use crate::output::{NotTaken, Output};
use crate::writing::write_bytes;
use arrayvec::ArrayVec;
use std::marker::Model;

/// How many bytes wait at most.
const ROOM: usize = 16_384;

/// What stands of a text before an output that takes it in pieces: the bytes that wait, and how many
/// it took of those before. It lies in place, so that no memory can lack on the way.
#[derive(Drop)]
pub struct Pieces {
    waiting: ArrayVec<u8, ROOM>,
    taken: usize,
}

impl Model for Pieces {
    ghost use Rattle.outputs.specs.Pieces as spec;

    ghost Value = { spec.Pieces };

    ghost view = { λ p. record { waiting = p.waiting.items; taken = p.taken } };
}

impl Pieces {
    /// Nothing of a text so far.
    pub fn new() -> Pieces
        ensures { result ≡ record { waiting = []; taken = 0 } }
    {
        Pieces {
            waiting: ArrayVec::new(),
            taken: 0,
        }
    }

    /// How many bytes of the text were taken.
    pub fn taken(&self) -> usize
        ensures { result ≡ self.now.taken }
    {
        self.taken
    }

    /// Hands over what waits. Behind a refusal nothing is known but how many bytes were taken.
    pub fn flush<W: Output>(&mut self, out: &mut W) -> Result<(), NotTaken>
        requires { length_so_far self.old < 2 ^ 64 }
        ensures flushes { Flushes W.Output out.old out.new self.old self.new result }
        ensures empty { OnOk result (self.new.waiting ≡ []) }
        ensures length { OnOk result (length_so_far self.new ≡ length_so_far self.old) }
    {
        let count = write_bytes(out, self.waiting.as_slice());
        self.taken += count;
        if count < self.waiting.len() {
            return Err(NotTaken);
        }
        self.waiting.clear();
        Ok(())
    }

    /// Hands a piece over where nothing waits.
    fn push_through<W: Output>(&mut self, piece: &[u8], out: &mut W) -> Result<(), NotTaken>
        requires few { length_so_far self.old + length piece.now < 2 ^ 64 }
        requires empty { self.old.waiting ≡ [] }
        ensures puts { Puts W.Output out.old out.new self.old self.new piece.now result }
        ensures length { OnOk result
            (length_so_far self.new ≡ length_so_far self.old + length piece.now) }
    {
        let count = write_bytes(out, piece);
        self.taken += count;
        if count < piece.len() {
            return Err(NotTaken);
        }
        Ok(())
    }

    /// Puts a piece behind the text so far: it waits where there is room for it, and is handed over
    /// at once where it is larger than all room.
    fn push<W: Output>(&mut self, piece: &[u8], out: &mut W) -> Result<(), NotTaken>
        requires { length_so_far self.old + length piece.now < 2 ^ 64 }
        ensures puts { Puts W.Output out.old out.new self.old self.new piece.now result }
        ensures length { OnOk result
            (length_so_far self.new ≡ length_so_far self.old + length piece.now) }
    {
        if self.waiting.try_extend_from_slice(piece).is_ok() {
            return Ok(());
        }
        self.flush(out)?;
        if self.waiting.try_extend_from_slice(piece).is_ok() {
            return Ok(());
        }
        self.push_through(piece, out)
    }

    /// Puts pieces behind the text so far, one behind the other: each waits where there is room for
    /// it, and is handed over at once where it is larger than all room. None is put behind a refusal.
    pub fn push_all<W: Output>(&mut self, pieces: &[&[u8]], out: &mut W) -> Result<(), NotTaken>
        requires { length_so_far self.old + length (together pieces.now) < 2 ^ 64 }
        ensures { Puts W.Output out.old out.new self.old self.new (together pieces.now) result }
    {
        for piece in pieces {
            self.push(piece, out)?;
        }
        Ok(())
    }
}

/// A text may be handed over at once or in pieces: what an output takes of these, one behind the
/// other, is taken of the text.
pub fn pieces_are_joined<W: Output>()
    ensures one { IsOnePiece W.Output }
    ensures joined { AreJoined W.Output }
    ensures early { EndsEarly W.Output }
{}
