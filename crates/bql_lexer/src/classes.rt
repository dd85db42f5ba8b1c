//! The classes of bytes that tokens are made of.
ghost use Rattle.bql_lexer.specs.Token.{is_white, is_in_word};

use byte_runs::ByteClass;

/// What stands between tokens.
pub struct White;

impl ByteClass for White {
    ghost holds = { is_white };

    fn has(b: u8) -> bool {
        matches!(b, b' ' | b'\t' | b'\r' | b'\n')
    }
}

/// What words and names go on with.
pub struct InWord;

impl ByteClass for InWord {
    ghost holds = { is_in_word };

    fn has(b: u8) -> bool {
        b.is_ascii_alphanumeric() || b == b'_'
    }
}
