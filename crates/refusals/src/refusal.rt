//! Refusals and their causes.
ghost use Rattle.std.specs.Prelude.{◌≡◌, ◌≤◌, ℕ, List, Option, length};
ghost use Rattle.refusals.specs.Code.{code_by, place_by};

use std::alloc::{AllocError, AllocFailed};
use std::error::Error;
use std::fmt;

/// Why input is refused.
pub trait Cause {
    ghost code_of: { Self → List ℕ };

    ghost place_of: { Self → Option ℕ };

    /// The number that users see, of at most five bytes: so a line that names it has a known room.
    fn code(&self) -> &'static str
        ensures is { result.now ≡ code_of self.now }
        ensures short { length result.now ≤ 5 };

    /// Where in the input the cause is, in bytes, if it has a place there.
    fn place(&self) -> Option<usize>
        ensures { result ≡ place_of self.now };
}

/// Why a call gives no answer.
#[derive(Clone, Copy, Debug, Drop, PartialEq, Eq)]
pub enum Refusal<C> {
    /// Memory lacked, which says nothing of the input.
    OutOfMemory,
    /// The input is refused for this cause.
    Refused(C),
}

impl<C: Cause> Refusal<C> {
    /// The number that users see: that of the cause, and `M2` where memory lacked.
    pub fn code(&self) -> &'static str
        ensures is { result.now ≡ code_by C.Cause.code_of self.now }
        ensures short { length result.now ≤ 5 }
    {
        match self {
            Refusal::OutOfMemory => "M2",
            Refusal::Refused(cause) => cause.code(),
        }
    }

    /// Where in the input the cause is, in bytes, if it has a place there.
    pub fn place(&self) -> Option<usize>
        ensures { result ≡ place_by C.Cause.place_of self.now }
    {
        match self {
            Refusal::OutOfMemory => None,
            Refusal::Refused(cause) => cause.place(),
        }
    }
}

impl<C: fmt::Display> fmt::Display for Refusal<C> {
    fn fmt<W: fmt::Write>(&self, f: &mut fmt::Formatter<W>) -> fmt::Result {
        match self {
            Refusal::OutOfMemory => f.write_str("out of memory"),
            Refusal::Refused(cause) => fmt::Display::fmt(cause, f),
        }
    }
}

impl<C: Drop + fmt::Debug + fmt::Display> Error for Refusal<C> {}

impl<C> From<AllocError> for Refusal<C> {
    ghost use Rattle.refusals.specs.declared.refusal.Refusal.TheVariants.{OutOfMemory};

    ghost from_gives = { λ _ refusal. refusal ≡ OutOfMemory };

    fn from(_error: AllocError) -> Refusal<C> {
        Refusal::OutOfMemory
    }
}

impl<T: Drop, C> From<AllocFailed<T>> for Refusal<C> {
    ghost use Rattle.refusals.specs.declared.refusal.Refusal.TheVariants.{OutOfMemory};

    ghost from_gives = { λ _ refusal. refusal ≡ OutOfMemory };

    fn from(_error: AllocFailed<T>) -> Refusal<C> {
        Refusal::OutOfMemory
    }
}
