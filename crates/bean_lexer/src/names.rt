//! Accounts, currencies, tags and links.
ghost use Rattle.std.specs.Prelude.{◌≡◌, ℕ, ◌+◌, ◌<◌, ◌≤◌, ◌&&◌, ◌||◌, ◌==◌, false, true, nat_lt};
ghost use Rattle.std.specs.Prelude.{nat_eq, length, slice_index, IsTrue, take, drop, min, MatchOption, IfSome};
ghost use Rattle.std.specs.List.{prefix_len};
ghost use Rattle.std.specs.Cmp.Lexicographic.{pointwise};
ghost use Rattle.std.specs.Char.{is_ascii_digit, is_ascii_uppercase};
ghost use Rattle.std.specs.Str.{IsUtf8, IsCharBoundary};
ghost use Rattle.bean_base.specs.Character.{hash, colon, caret};
ghost use Rattle.bean_base.specs.Name.{is_account, is_in_component, is_in_currency};
ghost use Rattle.bean_base.specs.Name as spec;
ghost use Rattle.theory.specs.LongestFront.{IsLongestFront, HasNoFront};
ghost use Rattle.bean_lexer.specs.Lookahead as lookahead;
ghost use Rattle.bean_lexer.specs.Lookahead.{is_currency_form};
ghost use Rattle.bean_lexer.specs.Tokens.{IsToken};
ghost use Rattle.bean_lexer.specs.declared.kind.Kind.TheVariants as kinds;

use crate::classes::{InComponent, InCurrency, InName};
use crate::found::Found;
use crate::kind::{Keyword, Kind, Sign};
use byte_runs::{end_of_run, has_front};

/// Three capitals stand at the front, and white space or a line feed behind them: so is most money
/// named.
#[inline(always)]
pub fn is_code(bytes: &[u8]) -> bool
    ensures { result ≡ lookahead.is_code bytes.now }
{
    bytes.len() > 3
        && bytes[3] <= b' '
        && bytes[0].is_ascii_uppercase()
        && bytes[1].is_ascii_uppercase()
        && bytes[2].is_ascii_uppercase()
}

/// The account, the currency or the truth value that begins with a capital.
#[inline(always)]
pub fn account_or_currency(bytes: &[u8]) -> Found
    requires some { 0 < length bytes.now }
    requires capital { IsTrue (is_ascii_uppercase (slice_index bytes.now 0)) }
    ensures token { IsToken bytes.now result.kind result.len }
    ensures boundary { IsUtf8 bytes.now → IsCharBoundary bytes.now result.len }
{
    if is_code(bytes) {
        return Found {
            kind: Kind::Currency,
            len: 3,
        };
    }
    match account_at(bytes) {
        Some(found) => found,
        None => currency_or_truth(bytes),
    }
}

/// The account at the front, if one stands there.
#[inline(always)]
pub fn account_at(bytes: &[u8]) -> Option<Found>
    requires some { 0 < length bytes.now }
    requires capital { IsTrue (is_ascii_uppercase (slice_index bytes.now 0)) }
    ensures token { MatchOption result (HasNoFront is_account bytes.now)
        (λ found. IsToken bytes.now found.kind found.len) }
    ensures kind { IfSome result (λ found. found.kind ≡ kinds.Account) }
    ensures boundary { IfSome result
        (λ found. IsUtf8 bytes.now → IsCharBoundary bytes.now found.len) }
{
    let len = account_len(bytes)?;
    Some(Found {
        kind: Kind::Account,
        len,
    })
}

/// The length of a root and its colon at the front, or 0. Most accounts are of expenses.
#[inline(always)]
fn root_len(bytes: &[u8]) -> usize
    ensures { result ≡ lookahead.root_len bytes.now }
{
    if has_front(bytes, b"Expenses:") {
        9
    } else if has_front(bytes, b"Assets:") {
        7
    } else if has_front(bytes, b"Liabilities:") {
        12
    } else if has_front(bytes, b"Equity:") {
        7
    } else if has_front(bytes, b"Income:") {
        7
    } else {
        0
    }
}

fn begins_component(b: u8) -> bool
    ensures { result ≡ spec.begins_component b }
{
    b.is_ascii_uppercase() || b.is_ascii_digit() || b >= 128
}

fn begins_component_at(bytes: &[u8], at: usize) -> bool
    ensures { result ≡ lookahead.begins_component_at bytes.now at }
{
    at < bytes.len() && begins_component(bytes[at])
}

/// A colon and the first character of a component stand at a place.
fn has_next_component(bytes: &[u8], at: usize) -> bool
    requires { at ≤ length bytes.now }
    ensures { result ≡ lookahead.has_next_component bytes.now at }
{
    at < bytes.len() && bytes[at] == b':' && begins_component_at(bytes, at + 1)
}

/// The length of the account at the front.
#[inline(always)]
fn account_len(bytes: &[u8]) -> Option<usize>
    ensures account { MatchOption result (HasNoFront is_account bytes.now)
        (IsLongestFront is_account bytes.now) }
    ensures long { MatchOption result (0 ≤ 0) (λ len. 7 < len) }
    ensures colon { MatchOption result (0 ≤ 0)
        (λ len. ((at : ℕ) × (at < len) × (slice_index bytes.now at ≡ colon))) }
    ensures boundary { MatchOption result (0 ≤ 0)
        (λ len. IsUtf8 bytes.now → IsCharBoundary bytes.now len) }
{
    let root = root_len(bytes);
    if root == 0 || !begins_component_at(bytes, root) {
        return None;
    }
    let mut len = end_of_run::<InComponent>(bytes, root);
    while has_next_component(bytes, len) {
        len = end_of_run::<InComponent>(bytes, len + 1);
    }
    Some(len)
}

/// Whether a name is a word: its length tells most apart.
#[inline(always)]
fn is_word(name: &[u8], word: &[u8]) -> bool
    ensures { result ≡ pointwise nat_eq name.now word.now }
{
    name.len() == word.len() && name == word
}

/// The currency or the truth value that begins with a capital.
#[inline(always)]
fn currency_or_truth(bytes: &[u8]) -> Found
    requires some { 0 < length bytes.now }
    requires capital { IsTrue (is_ascii_uppercase (slice_index bytes.now 0)) }
    requires no_account { HasNoFront is_account bytes.now }
    ensures token { IsToken bytes.now result.kind result.len }
    ensures boundary { IsUtf8 bytes.now → IsCharBoundary bytes.now result.len }
{
    let len = currency_len(bytes);
    let name = &bytes[..len];
    if is_word(name, b"TRUE") {
        Found {
            kind: Kind::Keyword(Keyword::True),
            len,
        }
    } else if is_word(name, b"FALSE") {
        Found {
            kind: Kind::Keyword(Keyword::False),
            len,
        }
    } else {
        Found {
            kind: Kind::Currency,
            len,
        }
    }
}

fn ends_currency(b: u8) -> bool
    ensures { result ≡ lookahead.ends_currency b }
{
    b.is_ascii_uppercase() || b.is_ascii_digit()
}

/// The last of some characters ends no currency.
fn has_bad_end(bytes: &[u8], len: usize) -> bool
    requires { len ≤ length bytes.now }
    ensures { result ≡ lookahead.has_bad_end bytes.now len }
{
    len > 1 && !ends_currency(bytes[len - 1])
}

/// How many characters of a currency stand at the front, up to the longest. No more are looked at, so
/// a run of very many costs no more than the tokens that it is cut into.
#[inline(always)]
fn currency_reach(bytes: &[u8]) -> usize
    ensures reach { result ≡ min (prefix_len is_in_currency bytes.now) 24 }
    ensures inside { result ≤ length bytes.now }
{
    let front = &bytes[..bytes.len().min(24)];
    end_of_run::<InCurrency>(front, 0)
}

/// The length of the currency or the truth value that begins with a capital.
#[inline(always)]
fn currency_len(bytes: &[u8]) -> usize
    requires some { 0 < length bytes.now }
    requires capital { IsTrue (is_ascii_uppercase (slice_index bytes.now 0)) }
    ensures currency { IsLongestFront is_currency_form bytes.now result }
    ensures boundary { IsUtf8 bytes.now → IsCharBoundary bytes.now result }
{
    let mut len = currency_reach(bytes);
    while has_bad_end(bytes, len) {
        len -= 1;
    }
    len
}

/// The tag that begins with `#`, or the sign alone.
pub fn tag_or_hash(bytes: &[u8]) -> Found
    requires some { 0 < length bytes.now }
    requires hash { slice_index bytes.now 0 ≡ hash }
    ensures token { IsToken bytes.now result.kind result.len }
    ensures boundary { IsUtf8 bytes.now → IsCharBoundary bytes.now result.len }
{
    let len = end_of_run::<InName>(bytes, 1);
    if len > 1 {
        Found {
            kind: Kind::Tag,
            len,
        }
    } else {
        Found {
            kind: Kind::Sign(Sign::Hash),
            len: 1,
        }
    }
}

/// The link that begins with `^`, or a fault.
pub fn link_or_fault(bytes: &[u8]) -> Found
    requires some { 0 < length bytes.now }
    requires caret { slice_index bytes.now 0 ≡ caret }
    ensures token { IsToken bytes.now result.kind result.len }
    ensures boundary { IsUtf8 bytes.now → IsCharBoundary bytes.now result.len }
{
    let len = end_of_run::<InName>(bytes, 1);
    if len > 1 {
        Found {
            kind: Kind::Link,
            len,
        }
    } else {
        Found {
            kind: Kind::Fault,
            len: 1,
        }
    }
}
