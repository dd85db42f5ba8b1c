//! Tokens.
ghost use Rattle.std.specs.Prelude.{IsTrue};
ghost use Rattle.bean_lexer.specs.KindForm.{may_be};

use crate::kind::{Kind, Place};
use bean_base::Slice;

/// A token of a ledger's text, as a slice of it.
#[derive(Drop)]
pub struct Token<'a> {
    pub text: Slice<'a>,
    /// The place of its first byte in the text.
    pub start: usize,
    /// The line on which it begins, from 1.
    pub line: usize,
    pub kind: Kind,
    pub place: Place,
    ghost of_kind: { IsTrue (may_be kind text) },
}
