//! What is written in texts, with its place in reading order.
ghost use Rattle.std.specs.Prelude.{◌≡◌, IfOk};

use std::alloc::AllocError;

/// What is written in a text, with its place.
#[derive(Drop)]
pub struct Placed<T> {
    /// The number of its text, from 0.
    pub file: u32,
    /// The number of the part of the ledger in which it stands, from 0 in reading order.
    pub part: u32,
    pub item: T,
}

impl<T: Drop> Placed<T> {
    /// What is written, with the numbers of its text and of its part of the ledger. Takes no memory; it fails
    /// only where there are more than 32 bits count, and a ledger has far fewer.
    pub fn new(file: usize, part: usize, item: T) -> Result<Placed<T>, AllocError>
        ensures { IfOk result (λ p. p ≡ record { file = file; part = part; item = item }) }
    {
        let (Ok(file), Ok(part)) = (u32::try_from(file), u32::try_from(part)) else {
            return Err(AllocError);
        };
        Ok(Placed { file, part, item })
    }
}
