//! Where the tokens of a text leave the grammar.
ghost use Rattle.std.specs.Prelude.{◌≡◌, ◌==◌, length};

use bql_lexer::Token;
use std::alloc::{AllocError, AllocFailed};

/// Why reading stopped.
#[derive(Clone, Copy, Drop, PartialEq, Eq)]
pub enum Stuck {
    OutOfMemory,
    /// No token of the grammar can stand where so many tokens are left, or it would nest too deep:
    /// then 200 others are open there.
    At { left: usize, is_deep: bool },
}

impl<T: Drop> From<AllocFailed<T>> for Stuck {
    ghost use Rattle.std.specs.Prelude.{◌≡◌};
    ghost use Rattle.bql_grammar.specs.declared.stuck.Stuck.TheVariants.{OutOfMemory};

    ghost from_gives = { λ _ stuck. stuck ≡ OutOfMemory };

    fn from(_: AllocFailed<T>) -> Stuck {
        Stuck::OutOfMemory
    }
}

impl From<AllocError> for Stuck {
    ghost use Rattle.std.specs.Prelude.{◌≡◌};
    ghost use Rattle.bql_grammar.specs.declared.stuck.Stuck.TheVariants.{OutOfMemory};

    ghost from_gives = { λ _ stuck. stuck ≡ OutOfMemory };

    fn from(_: AllocError) -> Stuck {
        Stuck::OutOfMemory
    }
}

impl Stuck {
    /// The first of some tokens can't go on, where so many parentheses, signs and NOTs may still
    /// stand in one another.
    pub fn before(tokens: &[Token<'_>], room: usize) -> Stuck
        ensures { result ≡ Stuck.At (length tokens.now) (room == 0) }
    {
        Stuck::At {
            left: tokens.len(),
            is_deep: room == 0,
        }
    }
}
