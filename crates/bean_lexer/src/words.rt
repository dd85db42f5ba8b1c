//! Keys, words and signs, and characters that begin no token.
ghost use Rattle.std.specs.Prelude.{◌≡◌, ◌<◌, ◌≤◌, ◌∷◌, [], ◌+◌, if◌then◌else◌, drop, length};
ghost use Rattle.std.specs.Prelude.{slice_index, IsTrue, false};
ghost use Rattle.std.specs.List.{prefix_len};
ghost use Rattle.std.specs.Option.{IfSome};
ghost use Rattle.std.specs.Char.{is_ascii_lowercase};
ghost use Rattle.std.specs.Str.{IsUtf8, IsCharBoundary};
ghost use Rattle.bean_base.specs.Character.{is_ascii};
ghost use Rattle.bean_lexer.specs.TokenForm.{is_in_key, sign_spelling};
ghost use Rattle.bean_lexer.specs.Lookahead.{begins_other};
ghost use Rattle.bean_lexer.specs.Lookahead as spec;
ghost use Rattle.bean_lexer.specs.NoKeys.{NoKeys};
ghost use Rattle.bean_lexer.specs.Tokens.{IsToken, goes_on_character};

use crate::classes::{GoesOnCharacter, InKey};
use crate::found::Found;
use crate::kind::{Keyword, Kind, Sign, WORDS};
use byte_runs::{end_of_run, has_front};

/// The key or the word that begins with a small letter, or a fault. Where more bytes are left than
/// `keyless` no key begins, so that a run of very many letters is looked through once.
#[inline(always)]
pub fn key_or_keyword(bytes: &[u8], keyless: &mut usize) -> Found
    requires some { 0 < length bytes.now }
    requires small { IsTrue (is_ascii_lowercase (slice_index bytes.now 0)) }
    requires no_keys { NoKeys bytes.now keyless.now }
    ensures token { IsToken bytes.now result.kind result.len }
    ensures boundary { IsUtf8 bytes.now → IsCharBoundary bytes.now result.len }
    ensures no_keys { NoKeys bytes.now keyless.new }
{
    if bytes.len() <= *keyless {
        let end = end_of_run::<InKey>(bytes, 0);
        if has_colon(bytes, end) {
            return Found {
                kind: Kind::Key,
                len: end + 1,
            };
        }
        *keyless = bytes.len() - end;
    }
    keyword_or_fault(bytes)
}

/// The word that begins with a small letter where no key stands, or a fault.
#[inline(always)]
fn keyword_or_fault(bytes: &[u8]) -> Found
    requires some { 0 < length bytes.now }
    requires small { IsTrue (is_ascii_lowercase (slice_index bytes.now 0)) }
    requires no_key { spec.has_colon bytes.now (prefix_len is_in_key bytes.now) ≡ false }
    ensures token { IsToken bytes.now result.kind result.len }
    ensures boundary { IsUtf8 bytes.now → IsCharBoundary bytes.now result.len }
{
    match keyword_at(bytes) {
        Some(word) => Found {
            kind: Kind::Keyword(word),
            len: word.spelling().len(),
        },
        None => Found {
            kind: Kind::Fault,
            len: 1,
        },
    }
}

fn has_colon(bytes: &[u8], at: usize) -> bool
    ensures { result ≡ spec.has_colon bytes.now at }
{
    at < bytes.len() && bytes[at] == b':'
}

/// The word in small letters at the front.
#[inline(never)]
fn keyword_at(bytes: &[u8]) -> Option<Keyword>
    ensures { result ≡ spec.keyword_at bytes.now }
{
    WORDS
        .iter()
        .copied()
        .find(|word| has_front(bytes, word.spelling().as_bytes()))
}

/// The sign of one byte, but for `#`.
#[inline(always)]
fn sign_of(b: u8) -> Option<Sign>
    ensures value { result ≡ spec.sign_of b }
    ensures spelling { IfSome result (λ sign. sign_spelling sign ≡ b ∷ []) }
{
    match b {
        b'*' => Some(Sign::Star),
        b'!' => Some(Sign::Bang),
        b',' => Some(Sign::Comma),
        b'+' => Some(Sign::Plus),
        b'-' => Some(Sign::Minus),
        b'(' => Some(Sign::OpenParenthesis),
        b')' => Some(Sign::CloseParenthesis),
        b'{' => Some(Sign::OpenBrace),
        b'}' => Some(Sign::CloseBrace),
        b'@' => Some(Sign::At),
        b'~' => Some(Sign::Tilde),
        _ => None,
    }
}

/// The sign that a byte is twice.
fn doubled_sign_of(b: u8) -> Option<Sign>
    ensures value { result ≡ spec.doubled_sign_of b }
    ensures spelling { IfSome result (λ sign. sign_spelling sign ≡ b ∷ (b ∷ [])) }
{
    match b {
        b'{' => Some(Sign::OpenBraces),
        b'}' => Some(Sign::CloseBraces),
        b'@' => Some(Sign::AtAt),
        _ => None,
    }
}

/// The sign of two bytes at the front.
fn doubled_sign_at(bytes: &[u8]) -> Option<Sign>
    requires { 0 < length bytes.now }
    ensures { result ≡ spec.doubled_sign_at bytes.now }
{
    if bytes.len() > 1 && bytes[1] == bytes[0] {
        doubled_sign_of(bytes[0])
    } else {
        None
    }
}

/// The length of the character at the front.
fn character_len(bytes: &[u8]) -> usize
    requires { 0 < length bytes.now }
    ensures len { result ≡ (if is_ascii (slice_index bytes.now 0) then 1
        else 1 + prefix_len goes_on_character (drop 1 bytes.now)) }
    ensures inside { result ≤ length bytes.now }
    ensures boundary { IsUtf8 bytes.now → IsCharBoundary bytes.now result }
{
    if bytes[0] < 128 {
        1
    } else {
        end_of_run::<GoesOnCharacter>(bytes, 1)
    }
}

/// The sign that begins with any other byte, or a fault of one character.
#[inline(always)]
pub fn sign_or_fault(bytes: &[u8]) -> Found
    requires some { 0 < length bytes.now }
    requires other { IsTrue (begins_other (slice_index bytes.now 0)) }
    ensures inside { result.len ≤ length bytes.now }
    ensures token { IsToken bytes.now result.kind result.len }
    ensures boundary { IsUtf8 bytes.now → IsCharBoundary bytes.now result.len }
{
    // Most are of one sign, which is never doubled.
    if bytes[0] == b'-' {
        return Found {
            kind: Kind::Sign(Sign::Minus),
            len: 1,
        };
    }
    if bytes[0] == b'*' {
        return Found {
            kind: Kind::Sign(Sign::Star),
            len: 1,
        };
    }
    if let Some(sign) = doubled_sign_at(bytes) {
        return Found {
            kind: Kind::Sign(sign),
            len: 2,
        };
    }
    match sign_of(bytes[0]) {
        Some(sign) => Found {
            kind: Kind::Sign(sign),
            len: 1,
        },
        None => Found {
            kind: Kind::Fault,
            len: character_len(bytes),
        },
    }
}
