//! What takes bytes.
ghost use Rattle.std.specs.Prelude.{◌≡◌, ◌≤◌, ℕ, List, Result, IfOk, length};

/// An output failed, and took nothing.
#[derive(Clone, Copy, Drop, PartialEq, Eq)]
pub struct NotTaken;

/// What takes bytes, as a file, a pipe or a buffer does.
///
/// An output says by `may_answer` what it tells of its calls, and may tell as little as it likes:
/// of one that leaves the relation open nothing is known of its bytes. What no output may leave
/// open is how often it refused. The count goes round at 2^64, so that it fits a machine number at
/// every refusal: no output has a count that is full and stays as it is.
pub trait Output {
    ghost use Rattle.outputs.specs.Refusals.{is_refused, refusals_behind};
    ghost use Rattle.outputs.specs.declared.output.NotTaken.{NotTaken};

    /// How often it failed, or took none of some bytes, from 0 to 2^64 - 1 and round again.
    ghost refusals: { Self → ℕ };

    /// What a call may do: the output before it, what it was offered, its answer, the output after
    /// it.
    ghost may_answer: { Self → List ℕ → Result ℕ NotTaken → Self → Type 0 };

    /// Takes some of the bytes, from the front on, and tells how many.
    fn write(&mut self, bytes: &[u8]) -> Result<usize, NotTaken>
        ensures within { IfOk result (λ n. n ≤ length bytes.now) }
        ensures counts { refusals self.new
            ≡ refusals_behind (refusals self.old) (is_refused bytes.now result) }
        ensures answer { may_answer self.old bytes.now result self.new };
}
