//! An output over memory that fails at a chosen byte.
ghost use Rattle.std.specs.Prelude.{◌≡◌, false, []};
ghost use Rattle.outputs.specs.ShortWriter.{AnswersShort, KeepsFront};

use crate::output::{NotTaken, Output};
use std::alloc::Global;
use std::marker::Model;

/// Takes bytes up to a limit and keeps them, and fails from then on.
#[derive(Drop)]
pub struct ShortWriter {
    taken: Vec<u8>,
    limit: usize,
    starved: bool,
    refusals: u64,
}

impl Model for ShortWriter {
    ghost use Rattle.outputs.specs.Holding.{Holding};

    ghost Value = { Holding };

    ghost view = { λ w. record {
      taken = w.taken.items;
      limit = w.limit;
      starved = w.starved;
      refusals = w.refusals;
    } };
}

impl ShortWriter {
    /// An output that fails after `limit` bytes. Takes no memory.
    pub fn new(alloc: Global, limit: usize) -> ShortWriter
        ensures { result ≡ record { taken = []; limit = limit; starved = false; refusals = 0 } }
    {
        ShortWriter {
            taken: Vec::new(alloc),
            limit,
            starved: false,
            refusals: 0,
        }
    }

    /// What it took.
    pub fn taken(&self) -> &[u8]
        ensures { result.now ≡ self.now.taken }
    {
        &self.taken
    }
}

impl Output for ShortWriter {
    ghost refusals = { λ w. w.refusals };

    ghost may_answer = { AnswersShort };

    /// Takes what fits below its limit. Also fails where it can't keep that much, and remembers it.
    fn write(&mut self, bytes: &[u8]) -> Result<usize, NotTaken> {
        let room = self.limit.saturating_sub(self.taken.len());
        let count = room.min(bytes.len());
        if count == 0 {
            self.refusals = self.refusals.wrapping_add(1);
            return Err(NotTaken);
        }
        if self.taken.extend_from_slice(&bytes[..count]).is_err() {
            self.starved = true;
            self.refusals = self.refusals.wrapping_add(1);
            return Err(NotTaken);
        }
        Ok(count)
    }
}

/// It keeps what it took, and refuses only at its limit or for want of memory.
pub fn keeps_a_front()
    ensures { KeepsFront }
{}
