//! What stands at the front of a text.
ghost use Rattle.std.specs.Prelude.{◌≡◌, ◌<◌, ◌≤◌, length, take, slice_index, IsTrue, count_by};
ghost use Rattle.bean_lexer.specs.Gap.{is_line_feed};
ghost use Rattle.bean_lexer.specs.Lookahead.{begins_on_line};
ghost use Rattle.bean_lexer.specs.Tokens.{IsToken};

use crate::kind::Kind;

/// What the token at the front is, and how long.
#[derive(Clone, Copy)]
pub struct Found {
    pub len: usize,
    pub kind: Kind,
}

/// What the token at the front is, how long, and the line feeds in it.
#[derive(Clone, Copy)]
pub struct Counted {
    pub len: usize,
    pub line_feeds: usize,
    pub kind: Kind,
}

/// The line feeds in some bytes. Few texts have any, which is told before any is counted.
#[inline(never)]
fn line_feeds(bytes: &[u8]) -> usize
    ensures { result ≡ count_by is_line_feed bytes.now }
{
    if !bytes.contains(&b'\n') {
        return 0;
    }
    bytes.iter().filter(|b| **b == b'\n').count()
}

/// A token whose line feeds are counted.
#[inline(always)]
pub fn with_line_feeds(bytes: &[u8], found: Found) -> Counted
    requires { found.len ≤ length bytes.now }
    ensures same { (result.kind ≡ found.kind) × (result.len ≡ found.len) }
    ensures feeds { result.line_feeds ≡ count_by is_line_feed (take result.len bytes.now) }
{
    Counted {
        kind: found.kind,
        len: found.len,
        line_feeds: line_feeds(&bytes[..found.len]),
    }
}

/// A token that has no line feeds, by its first byte.
#[inline(always)]
pub fn on_one_line(bytes: &[u8], found: Found) -> Counted
    requires some { 0 < length bytes.now }
    requires token { IsToken bytes.now found.kind found.len }
    requires first { IsTrue (begins_on_line (slice_index bytes.now 0)) }
    ensures same { (result.kind ≡ found.kind) × (result.len ≡ found.len) }
    ensures feeds { result.line_feeds ≡ count_by is_line_feed (take result.len bytes.now) }
{
    let _ = bytes;
    Counted {
        kind: found.kind,
        len: found.len,
        line_feeds: 0,
    }
}
