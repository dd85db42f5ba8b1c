//! Where texts come from and where files go.
ghost use Rattle.std.specs.Prelude.{◌≡◌, ℕ, List, Option, None, Result};

use std::alloc::{AllocError, Global};

/// Why a source or a store has no answer.
#[derive(Clone, Copy, Debug, Drop, PartialEq, Eq)]
pub enum SourceFault {
    Failed,
    OutOfMemory,
}

impl From<AllocError> for SourceFault {
    ghost use Rattle.stores.specs.declared.source.SourceFault.TheVariants.{OutOfMemory};

    ghost from_gives = { λ _ fault. fault ≡ OutOfMemory };

    fn from(_error: AllocError) -> SourceFault {
        SourceFault::OutOfMemory
    }
}

/// Texts by their names.
///
/// A source says by `may_give` what it tells of its calls, and may tell as little as it likes. What
/// no source may leave open is how often it failed: with 2^64 - 1 failures counted it answers that
/// memory lacks, so its count is never full.
pub trait Source {
    ghost use Rattle.stores.specs.Reading.{Reading, answer_of, failures_behind, readings_of};
    ghost use Rattle.stores.specs.Reading.{GrowsBy};
    ghost use Rattle.stores.specs.declared.source.SourceFault.{SourceFault};

    /// How often it answered that it failed.
    ghost failures: { Self → ℕ };

    /// The names that it was asked for, each with its answer; where it tells them.
    ghost told: { Self → Option (List Reading) } = { λ _. None };

    /// What a call may do: the source before it, the name, its answer, the source after it.
    ghost may_give: { Self → List ℕ → Result (List ℕ) SourceFault → Self → Type 0 };

    /// The bytes of a text.
    fn text(&mut self, name: &str) -> Result<Vec<u8>, SourceFault>
        ensures counts { failures self.new
            ≡ failures_behind (failures self.old) (answer_of result) }
        ensures tells { GrowsBy (told self.old) (told self.new)
            (readings_of name.now (answer_of result)) }
        ensures gives { may_give self.old name.now (answer_of result) self.new };
}

/// A source that also keeps files.
pub trait Store: Source {
    ghost use Rattle.stores.specs.Reading.{failures_behind, GrowsBy};
    ghost use Rattle.stores.specs.Putting.{Putting, puttings_of};
    ghost use Rattle.stores.specs.declared.source.SourceFault.{SourceFault};

    /// The files that were put, in order; where it tells them.
    ghost kept: { Self → Option (List Putting) } = { λ _. None };

    /// What a call may do: the store before it, the name, the bytes, its answer, the store after
    /// it.
    ghost may_keep: { Self → List ℕ → List ℕ → Result Unit SourceFault → Self → Type 0 };

    /// Keeps a file under a name, in place of one that was there. What was asked for stays told.
    fn put(&mut self, name: &str, bytes: &[u8]) -> Result<(), SourceFault>
        ensures counts { Self.failures self.new ≡ failures_behind (Self.failures self.old) result }
        ensures told { Self.told self.new ≡ Self.told self.old }
        ensures keeps { GrowsBy (kept self.old) (kept self.new)
            (puttings_of name.now bytes.now result) }
        ensures may { may_keep self.old name.now bytes.now result self.new };

    /// A text that is asked for takes nothing away of what was put.
    ghost text_keeps: { (before after : Self) (name : List ℕ) (answer : Result (List ℕ) SourceFault)
        → Self.may_give before name answer after → kept after ≡ kept before };
}
