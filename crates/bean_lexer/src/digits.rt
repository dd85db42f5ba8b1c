//! Days and numbers.
ghost use Rattle.std.specs.Prelude.{◌≡◌, ◌<◌, ◌≤◌, ◌&&◌, ◌==◌, nat_lt, nat_le, length, slice_index};
ghost use Rattle.std.specs.Prelude.{IsTrue, take};
ghost use Rattle.std.specs.Char.{is_ascii_digit};
ghost use Rattle.std.specs.Str.{IsUtf8, IsCharBoundary};
ghost use Rattle.bean_base.specs.Numeral.{is_number};
ghost use Rattle.bean_base.specs.Day.{is_day_form};
ghost use Rattle.theory.specs.LongestFront.{IsLongestFront};
ghost use Rattle.bean_lexer.specs.Lookahead as spec;
ghost use Rattle.bean_lexer.specs.Tokens.{IsToken};

use crate::found::Found;
use crate::kind::Kind;
use bean_base::Day;
use byte_runs::{Digit, end_of_run};

/// The day or the number that begins with a digit.
#[inline(always)]
pub fn day_or_number(bytes: &[u8]) -> Found
    requires some { 0 < length bytes.now }
    requires digit { IsTrue (is_ascii_digit (slice_index bytes.now 0)) }
    ensures token { IsToken bytes.now result.kind result.len }
    ensures boundary { IsUtf8 bytes.now → IsCharBoundary bytes.now result.len }
{
    if begins_with_day(bytes) {
        Found {
            kind: Kind::Day,
            len: 10,
        }
    } else {
        Found {
            kind: Kind::Number,
            len: number_len(bytes),
        }
    }
}

#[inline(always)]
fn begins_with_day(bytes: &[u8]) -> bool
    ensures { result ≡ (nat_le 10 (length bytes.now) && is_day_form (take 10 bytes.now)) }
{
    bytes.len() >= 10 && Day::is_form(&bytes[..10])
}

/// A comma and a digit behind it stand at a place.
fn has_more_digits(bytes: &[u8], at: usize) -> bool
    requires { at ≤ length bytes.now }
    ensures { result ≡ spec.has_more_digits bytes.now at }
{
    at < bytes.len() && bytes[at] == b',' && at + 1 < bytes.len() && bytes[at + 1].is_ascii_digit()
}

fn has_point(bytes: &[u8], at: usize) -> bool
    ensures { result ≡ (nat_lt at (length bytes.now) && (slice_index bytes.now at == 46)) }
{
    at < bytes.len() && bytes[at] == b'.'
}

/// The length of the number that begins with a digit.
#[inline(always)]
fn number_len(bytes: &[u8]) -> usize
    requires some { 0 < length bytes.now }
    requires digit { IsTrue (is_ascii_digit (slice_index bytes.now 0)) }
    ensures number { IsLongestFront is_number bytes.now result }
    ensures boundary { IsUtf8 bytes.now → IsCharBoundary bytes.now result }
{
    let mut len = end_of_run::<Digit>(bytes, 0);
    while has_more_digits(bytes, len) {
        len = end_of_run::<Digit>(bytes, len + 1);
    }
    if has_point(bytes, len) {
        len = end_of_run::<Digit>(bytes, len + 1);
    }
    len
}
