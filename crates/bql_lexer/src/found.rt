//! The token at the front of a text.
ghost use Rattle.std.specs.Prelude.{◌≡◌, ◌<◌, ◌+◌, ◌≤◌, ◌&&◌, ◌==◌, nat_lt, nat_le, IsTrue};
ghost use Rattle.std.specs.Prelude.{length, take, slice_index, drop, false, MatchOption};
ghost use Rattle.std.specs.List.{prefix_len};
ghost use Rattle.std.specs.Char.{is_ascii_digit};
ghost use Rattle.std.specs.Str.{IsCharBoundary};
ghost use Rattle.bean_base.specs.Character.{quote, apostrophe};
ghost use Rattle.bean_base.specs.Day.{is_day_form};
ghost use Rattle.bql_lexer.specs.Token as spec;

use crate::classes::InWord;
use crate::kind::Kind;
use bean_base::{Day, Slice};
use byte_runs::{Digit, end_of_run};

/// A token, and what stands behind it.
#[derive(Drop)]
pub struct Found<'a> {
    pub kind: Kind,
    pub text: Slice<'a>,
    pub rest: Slice<'a>,
}

/// The first bytes of a text as a token.
fn cut<'a>(kind: Kind, text: &'a str, len: usize) -> Found<'a>
    requires { IsCharBoundary text.now len }
    ensures { result ≡ spec.cut kind len text.now }
{
    let (own, rest) = text.split_at(len);
    Found {
        kind,
        text: Slice::new(own),
        rest: Slice::new(rest),
    }
}

fn fault<'a>(text: &'a str) -> Found<'a>
    ensures { result ≡ spec.fault text.now }
{
    Found {
        kind: Kind::Fault,
        text: Slice::new(text),
        rest: Slice::new(""),
    }
}

fn begins_word(b: u8) -> bool
    ensures { result ≡ spec.begins_word b }
{
    b.is_ascii_alphabetic() || b == b'_'
}

fn word<'a>(text: &'a str) -> Found<'a>
    requires some { 0 < length text.now }
    requires begins { IsTrue (spec.begins_word (slice_index text.now 0)) }
    ensures { result ≡ spec.word text.now }
{
    let found = cut(Kind::Name, text, end_of_run::<InWord>(text.as_bytes(), 0));
    let kind = Kind::of_word(found.text.text());
    Found {
        kind,
        text: found.text,
        rest: found.rest,
    }
}

fn begins_with_day(bytes: &[u8]) -> bool
    ensures { result ≡ spec.begins_with_day bytes.now }
{
    bytes.len() >= 10 && bytes[4] == b'-' && Day::is_form(&bytes[..10])
}

/// A point and a digit behind it stand at a place.
fn has_decimals(bytes: &[u8], at: usize) -> bool
    requires { at ≤ length bytes.now }
    ensures { result ≡ spec.has_decimals bytes.now at }
{
    at + 1 < bytes.len() && bytes[at] == b'.' && bytes[at + 1].is_ascii_digit()
}

/// The length of the number that begins with a digit.
fn number_len(bytes: &[u8]) -> usize
    requires some { 0 < length bytes.now }
    requires digit { IsTrue (is_ascii_digit (slice_index bytes.now 0)) }
    ensures { result ≡ spec.number_len bytes.now }
{
    let whole = end_of_run::<Digit>(bytes, 0);
    if has_decimals(bytes, whole) {
        end_of_run::<Digit>(bytes, whole + 1)
    } else {
        whole
    }
}

fn day_or_number<'a>(text: &'a str) -> Found<'a>
    requires some { 0 < length text.now }
    requires digit { IsTrue (is_ascii_digit (slice_index text.now 0)) }
    ensures { result ≡ spec.day_or_number text.now }
{
    if begins_with_day(text.as_bytes()) {
        cut(Kind::Day, text, 10)
    } else {
        cut(Kind::Number, text, number_len(text.as_bytes()))
    }
}

/// What stands behind the first byte.
fn behind_first(text: &str) -> &str
    requires some { 0 < length text.now }
    requires ascii { slice_index text.now 0 < 128 }
    ensures { result.now ≡ drop 1 text.now }
{
    &text[1..]
}

/// What stands before the first double quote, and behind it.
fn at_quote(text: &str) -> Option<(&str, &str)>
    ensures { MatchOption result (spec.is_closed quote text.now ≡ false)
        (λ r. spec.IsClosed quote text.now r.0.now r.1.now) }
{
    text.split_once('"')
}

/// What stands before the first single quote, and behind it.
fn at_apostrophe(text: &str) -> Option<(&str, &str)>
    ensures { MatchOption result (spec.is_closed apostrophe text.now ≡ false)
        (λ r. spec.IsClosed apostrophe text.now r.0.now r.1.now) }
{
    text.split_once('\'')
}

/// The text between a quote, which is the first byte, and the next; or a fault.
fn text_or_fault<'a>(text: &'a str, between: Option<(&'a str, &'a str)>) -> Found<'a>
    ensures { MatchOption between.entry (result ≡ spec.fault text.now)
        (λ r. result ≡ spec.quoted r.0.now r.1.now) }
{
    match between {
        Some((inner, rest)) => Found {
            kind: Kind::Text,
            text: Slice::new(inner),
            rest: Slice::new(rest),
        },
        None => fault(text),
    }
}

/// The sign of two bytes.
fn sign_of_two(first: u8, second: u8) -> Option<Kind>
    ensures { result ≡ spec.sign_of_two first second }
{
    match (first, second) {
        (b'!', b'=') => Some(Kind::NotEqual),
        (b'<', b'=') => Some(Kind::LessOrEqual),
        (b'>', b'=') => Some(Kind::GreaterOrEqual),
        _ => None,
    }
}

/// The sign of one byte.
fn sign_of(b: u8) -> Option<Kind>
    ensures { result ≡ spec.sign_of b }
{
    match b {
        b'=' => Some(Kind::Equal),
        b'<' => Some(Kind::Less),
        b'>' => Some(Kind::Greater),
        b'~' => Some(Kind::Tilde),
        b'+' => Some(Kind::Plus),
        b'-' => Some(Kind::Minus),
        b'*' => Some(Kind::Star),
        b'/' => Some(Kind::Slash),
        b'(' => Some(Kind::OpenParenthesis),
        b')' => Some(Kind::CloseParenthesis),
        b',' => Some(Kind::Comma),
        b';' => Some(Kind::Semicolon),
        _ => None,
    }
}

fn sign_of_front(bytes: &[u8]) -> Option<Kind>
    requires { 0 < length bytes.now }
    ensures { result ≡ spec.sign_of_front bytes.now }
{
    if bytes.len() > 1 {
        sign_of_two(bytes[0], bytes[1])
    } else {
        None
    }
}

fn sign_or_fault<'a>(text: &'a str) -> Found<'a>
    requires { 0 < length text.now }
    ensures { result ≡ spec.sign_or_fault text.now }
{
    if let Some(kind) = sign_of_front(text.as_bytes()) {
        return cut(kind, text, 2);
    }
    match sign_of(text.as_bytes()[0]) {
        Some(kind) => cut(kind, text, 1),
        None => fault(text),
    }
}

/// The token at the front of a text, and what stands behind it.
pub fn token_at<'a>(text: &'a str) -> Found<'a>
    requires { 0 < length text.now }
    ensures { result ≡ spec.token_at text.now }
{
    let first = text.as_bytes()[0];
    if begins_word(first) {
        return word(text);
    }
    if first.is_ascii_digit() {
        return day_or_number(text);
    }
    if first == b'"' {
        return text_or_fault(text, at_quote(behind_first(text)));
    }
    if first == b'\'' {
        return text_or_fault(text, at_apostrophe(behind_first(text)));
    }
    sign_or_fault(text)
}
