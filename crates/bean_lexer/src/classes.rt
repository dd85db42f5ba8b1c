//! The classes of bytes that tokens are made of.
ghost use Rattle.bean_base.specs.Name.{is_in_component, is_in_currency};
ghost use Rattle.bean_lexer.specs.TokenForm.{is_in_name, is_in_key, is_plain};
ghost use Rattle.bean_lexer.specs.Lookahead.{is_in_plain_text};
ghost use Rattle.bean_lexer.specs.Tokens.{goes_on_character};
ghost use Rattle.bean_lexer.specs.Gap.{is_space};

use crate::tables::{goes_on_component, goes_on_plain_text};
use byte_runs::ByteClass;

/// What a component of an account goes on with.
pub struct InComponent;

impl ByteClass for InComponent {
    ghost holds = { is_in_component };

    fn has(b: u8) -> bool {
        goes_on_component(b)
    }
}

/// What the name of a tag or a link is made of.
pub struct InName;

impl ByteClass for InName {
    ghost holds = { is_in_name };

    fn has(b: u8) -> bool {
        b.is_ascii_alphanumeric() || matches!(b, b'-' | b'_' | b'/' | b'.')
    }
}

/// What a key goes on with.
pub struct InKey;

impl ByteClass for InKey {
    ghost holds = { is_in_key };

    fn has(b: u8) -> bool {
        b.is_ascii_alphanumeric() || b == b'-' || b == b'_'
    }
}

/// What a currency is made of.
pub struct InCurrency;

impl ByteClass for InCurrency {
    ghost holds = { is_in_currency };

    fn has(b: u8) -> bool {
        // Most are letters: they are told first.
        if b.is_ascii_uppercase() {
            return true;
        }
        b.is_ascii_digit() || matches!(b, b'\'' | b'.' | b'_' | b'-')
    }
}

/// The space.
pub struct Space;

impl ByteClass for Space {
    ghost holds = { is_space };

    fn has(b: u8) -> bool {
        b == b' '
    }
}

/// What neither ends a text nor escapes.
pub struct InText;

impl ByteClass for InText {
    ghost holds = { is_plain };

    fn has(b: u8) -> bool {
        b != b'"' && b != b'\\'
    }
}

/// What goes on a text in its line, without an escape.
pub struct InPlainText;

impl ByteClass for InPlainText {
    ghost holds = { is_in_plain_text };

    fn has(b: u8) -> bool {
        goes_on_plain_text(b)
    }
}

/// The bytes of a character behind its first.
pub struct GoesOnCharacter;

impl ByteClass for GoesOnCharacter {
    ghost holds = { goes_on_character };

    fn has(b: u8) -> bool {
        128 <= b && b < 192
    }
}
