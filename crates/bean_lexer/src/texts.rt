//! Texts in quotes.
ghost use Rattle.std.specs.Prelude.{◌≡◌, ◌+◌, ◌<◌, ◌≤◌, length, slice_index, take, drop, false};
ghost use Rattle.std.specs.Prelude.{count_by};
ghost use Rattle.bean_lexer.specs.Gap.{is_line_feed};
ghost use Rattle.std.specs.Str.{IsUtf8, IsCharBoundary};
ghost use Rattle.bean_base.specs.Character.{quote};
ghost use Rattle.bean_lexer.specs.TokenForm.{is_text};
ghost use Rattle.bean_lexer.specs.TokenForm as spec;
ghost use Rattle.bean_lexer.specs.Tokens.{IsToken};
ghost use Rattle.bean_lexer.specs.Tokens as tokens;

use crate::classes::{InPlainText, InText};
use crate::found::{Counted, Found, with_line_feeds};
use crate::kind::Kind;
use byte_runs::end_of_run;

/// The text that begins with a quote, or a fault as long. Most have no escapes and are on one line,
/// which is told as their end is looked for.
#[inline(always)]
pub fn text_at(bytes: &[u8]) -> Counted
    requires some { 0 < length bytes.now }
    requires quote { slice_index bytes.now 0 ≡ quote }
    ensures token { IsToken bytes.now result.kind result.len }
    ensures boundary { IsUtf8 bytes.now → IsCharBoundary bytes.now result.len }
    ensures feeds { result.line_feeds ≡ count_by is_line_feed (take result.len bytes.now) }
{
    let end = end_of_run::<InPlainText>(bytes, 1);
    if end < bytes.len() && bytes[end] == b'"' {
        return Counted {
            kind: Kind::Text,
            len: end + 1,
            line_feeds: 0,
        };
    }
    with_line_feeds(bytes, text_or_fault(bytes))
}

/// The text that begins with a quote, or a fault as long.
#[inline(always)]
fn text_or_fault(bytes: &[u8]) -> Found
    requires some { 0 < length bytes.now }
    requires quote { slice_index bytes.now 0 ≡ quote }
    ensures inside { result.len ≤ length bytes.now }
    ensures token { IsToken bytes.now result.kind result.len }
    ensures boundary { IsUtf8 bytes.now → IsCharBoundary bytes.now result.len }
{
    let reach = text_reach(bytes);
    if reach.is_text {
        Found {
            kind: Kind::Text,
            len: reach.len,
        }
    } else {
        Found {
            kind: Kind::Fault,
            len: reach.len,
        }
    }
}

/// How far a text reaches, and whether it is closed and its escapes are known.
#[derive(Clone, Copy)]
struct Reach {
    len: usize,
    is_text: bool,
}

fn is_escape(b: u8) -> bool
    ensures { result ≡ spec.is_escape b }
{
    b == b'"' || b == b'\\' || b == b'n' || b == b't'
}

/// How far the text reaches that begins with a quote.
fn text_reach(bytes: &[u8]) -> Reach
    requires some { 0 < length bytes.now }
    requires quote { slice_index bytes.now 0 ≡ quote }
    ensures inside { result.len ≤ length bytes.now }
    ensures len { result.len ≡ 1 + tokens.text_reach false (drop 1 bytes.now) }
    ensures is_text { result.is_text ≡ is_text (take result.len bytes.now) }
    ensures boundary { IsUtf8 bytes.now → IsCharBoundary bytes.now result.len }
{
    let mut len = 1;
    let mut escapes_known = true;
    'pieces: loop {
        let end = end_of_run::<InText>(bytes, len);
        if end == bytes.len() {
            return Reach {
                len: end,
                is_text: false,
            };
        }
        if bytes[end] == b'"' {
            return Reach {
                len: end + 1,
                is_text: escapes_known,
            };
        }
        if end + 1 == bytes.len() {
            return Reach {
                len: end + 1,
                is_text: false,
            };
        }
        escapes_known &= is_escape(bytes[end + 1]);
        len = end + 2;
    }
}
