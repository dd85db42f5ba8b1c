//! A standard stream.
ghost use Rattle.std.specs.Prelude.{◌≡◌, ◌≤◌, length, IfOk};

use crate::output::{NotTaken, Output};
use std::io;
use std::marker::Model;

/// After so many calls that signals interrupted, one more is made, and that is the last.
const MOST_INTERRUPTIONS: u32 = 65_536;

/// A standard stream, which counts its refusals.
#[derive(Drop)]
pub struct Stream<P> {
    to: P,
    refusals: u64,
}

impl<P> Model for Stream<P> {
    ghost use Rattle.std.specs.Prelude.{ℕ};

    ghost Value = { ℕ };

    ghost view = { λ s. s.refusals };
}

impl<P> Stream<P> {
    /// A stream that didn't fail yet.
    pub fn new(to: P) -> Stream<P>
        ensures { result ≡ 0 }
    {
        Stream { to, refusals: 0 }
    }
}

/// Hands bytes to the system, which takes some of them, from the front on. A call that a signal
/// interrupts is made again.
fn write_some<P: Print>(to: &P, bytes: &[u8]) -> io::Result<usize>
    ensures { IfOk result (λ n. n ≤ length bytes.now) }
{
    for _ in 0..MOST_INTERRUPTIONS {
        match to.write_some(bytes) {
            Err(error) if error.kind() == io::ErrorKind::Interrupted => continue,
            answer => return answer,
        }
    }
    to.write_some(bytes)
}

impl<P: Print> Output for Stream<P> {
    ghost use Rattle.outputs.specs.Stream.{TakesSome};

    ghost refusals = { λ s. s };

    ghost may_answer = { λ before bytes answer after. TakesSome bytes answer };

    /// Takes what the system takes. Fails where the system fails, or takes nothing of some bytes.
    fn write(&mut self, bytes: &[u8]) -> Result<usize, NotTaken> {
        match write_some(&self.to, bytes) {
            Ok(count) if 0 < count || bytes.is_empty() => Ok(count),
            _ => {
                self.refusals = self.refusals.wrapping_add(1);
                Err(NotTaken)
            }
        }
    }
}
