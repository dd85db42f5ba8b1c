//! The token at the front of a text.
ghost use Rattle.std.specs.Prelude.{◌≡◌, ◌<◌, length, take, count_by};
ghost use Rattle.std.specs.Str.{IsUtf8, IsCharBoundary};
ghost use Rattle.bean_lexer.specs.Gap.{is_line_feed};
ghost use Rattle.bean_lexer.specs.NoKeys.{NoKeys};
ghost use Rattle.bean_lexer.specs.Tokens.{IsToken};

use crate::digits::day_or_number;
use crate::found::{Counted, on_one_line, with_line_feeds};
use crate::names::{account_or_currency, link_or_fault, tag_or_hash};
use crate::texts::text_at;
use crate::words::{key_or_keyword, sign_or_fault};

/// The token at the front of a text. Most begin with a capital or a digit, which are told first.
/// Where more bytes are left than `keyless` no key begins.
#[inline(always)]
pub fn token_at(bytes: &[u8], keyless: &mut usize) -> Counted
    requires some { 0 < length bytes.now }
    requires no_keys { NoKeys bytes.now keyless.now }
    ensures token { IsToken bytes.now result.kind result.len }
    ensures boundary { IsUtf8 bytes.now → IsCharBoundary bytes.now result.len }
    ensures feeds { result.line_feeds ≡ count_by is_line_feed (take result.len bytes.now) }
    ensures no_keys { NoKeys bytes.now keyless.new }
{
    if bytes[0].is_ascii_uppercase() {
        return on_one_line(bytes, account_or_currency(bytes));
    }
    if bytes[0].is_ascii_digit() {
        return on_one_line(bytes, day_or_number(bytes));
    }
    if bytes[0] == b'-' || bytes[0] == b'*' {
        return on_one_line(bytes, sign_or_fault(bytes));
    }
    match bytes[0] {
        b'"' => text_at(bytes),
        b'a'..=b'z' => on_one_line(bytes, key_or_keyword(bytes, keyless)),
        b'#' => on_one_line(bytes, tag_or_hash(bytes)),
        b'^' => on_one_line(bytes, link_or_fault(bytes)),
        b'\n' | 128..=255 => with_line_feeds(bytes, sign_or_fault(bytes)),
        _ => on_one_line(bytes, sign_or_fault(bytes)),
    }
}
