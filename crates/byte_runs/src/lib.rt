//! Classes of bytes, the runs of a class, and what stands at a front: the tools of a lexer. Which end
//! a text has, and where one with that end was found last: it is looked for there first.
//!
//! ```text
//! end_of_run::<Digit>(b"2014-01-02", 0)   // 4
//! has_front(b"{{1 USD}}", b"{{")          // true
//! end_of("Assets:Cash", 0, 4096)          // some number below 4096, the same each time
//! ```
//!
//! A run is looked at once. The end of a text is told by its last eight bytes, in a few steps. [`Hints`]
//! alone take memory.
#![tactic(auto)]

mod ends;
mod hints;
mod tables;

ghost use Rattle.std.specs.Prelude.{◌≡◌, ℕ, Bool, ◌+◌, ◌<◌, ◌≤◌, nat_eq, length, take, drop};
ghost use Rattle.std.specs.Option.{MatchOption};
ghost use Rattle.std.specs.List.{prefix_len, starts_with};
ghost use Rattle.std.specs.Char.{is_ascii_digit};
ghost use Rattle.std.specs.Cmp.Lexicographic.{pointwise};

pub use ends::end_of;
pub use hints::Hints;
pub use tables::{COMPONENT_BYTES, PLAIN_TEXT_BYTES, TOKEN_STARTS};

/// A class of bytes.
pub trait ByteClass {
    ghost holds: { ℕ → Bool };

    fn has(b: u8) -> bool
        ensures { result ≡ holds b };
}

/// Where the run of bytes of a class that begins at `start` ends, if it doesn't go on over the next
/// four bytes.
#[inline(always)]
fn end_in_four<C: ByteClass>(bytes: &[u8], start: usize) -> Option<usize>
    requires { start + 4 ≤ length bytes.now }
    ensures { MatchOption result
        (prefix_len C.holds (drop start bytes.now)
        ≡ 4 + prefix_len C.holds (drop (start + 4) bytes.now))
        (λ end. (end ≡ start + prefix_len C.holds (drop start bytes.now))
        × (end ≤ length bytes.now)) }
{
    if !C::has(bytes[start]) {
        return Some(start);
    }
    if !C::has(bytes[start + 1]) {
        return Some(start + 1);
    }
    if !C::has(bytes[start + 2]) {
        return Some(start + 2);
    }
    if !C::has(bytes[start + 3]) {
        return Some(start + 3);
    }
    None
}

/// Where the run of bytes of a class that begins at `start` ends. Four bytes are looked at in one step
/// while there are as many, since to look at bytes is most of what a lexer does.
pub fn end_of_run<C: ByteClass>(bytes: &[u8], start: usize) -> usize
    requires { start ≤ length bytes.now }
    ensures run { result ≡ start + prefix_len C.holds (drop start bytes.now) }
    ensures inside { result ≤ length bytes.now }
{
    let mut end = start;
    while bytes.len() - end >= 4 {
        if let Some(end) = end_in_four::<C>(bytes, end) {
            return end;
        }
        end += 4;
    }
    while end < bytes.len() && C::has(bytes[end]) {
        end += 1;
    }
    end
}

/// Whether two slices begin with the same eight bytes: one comparison.
#[inline(always)]
fn begin_with_same_eight(front: &[u8], part: &[u8]) -> bool
    requires front { 8 ≤ length front.now }
    requires part { 8 ≤ length part.now }
    ensures { result ≡ pointwise nat_eq (take 8 front.now) (take 8 part.now) }
{
    match (front.first_chunk::<8>(), part.first_chunk::<8>()) {
        (Some(x), Some(y)) => u64::from_le_bytes(*x) == u64::from_le_bytes(*y),
        _ => false,
    }
}

/// Whether two slices begin with the same four bytes: one comparison.
#[inline(always)]
fn begin_with_same_four(front: &[u8], part: &[u8]) -> bool
    requires front { 4 ≤ length front.now }
    requires part { 4 ≤ length part.now }
    ensures { result ≡ pointwise nat_eq (take 4 front.now) (take 4 part.now) }
{
    match (front.first_chunk::<4>(), part.first_chunk::<4>()) {
        (Some(x), Some(y)) => u32::from_le_bytes(*x) == u32::from_le_bytes(*y),
        _ => false,
    }
}

/// Whether two slices of one length are the same from a place on, byte by byte.
#[inline(always)]
#[tactic(auto, using(crate::proofs::FrontFacts::next_pair))]
fn are_same_from(front: &[u8], part: &[u8], start: usize) -> bool
    requires start { start ≤ length front.now }
    requires len { length part.now ≡ length front.now }
    ensures { result ≡ pointwise nat_eq (drop start front.now) (drop start part.now) }
{
    let mut at = start;
    while at < front.len() {
        if front[at] != part[at] {
            return false;
        }
        at += 1;
    }
    true
}

/// Whether two slices of one length are the same: what is looked for is short, and known where this
/// is put in place, so that it is a few comparisons and no call.
#[inline(always)]
fn are_same(front: &[u8], part: &[u8]) -> bool
    requires { length part.now ≡ length front.now }
    ensures { result ≡ pointwise nat_eq front.now part.now }
{
    if front.len() >= 8 {
        return begin_with_same_eight(front, part) && are_same_from(front, part, 8);
    }
    if front.len() >= 4 {
        return begin_with_same_four(front, part) && are_same_from(front, part, 4);
    }
    are_same_from(front, part, 0)
}

/// Whether some bytes stand at the front.
#[inline(always)]
pub fn has_front(bytes: &[u8], front: &[u8]) -> bool
    requires { 0 < length front.now }
    ensures { result ≡ starts_with nat_eq bytes.now front.now }
{
    bytes.len() >= front.len() && are_same(front, &bytes[..front.len()])
}

/// The digits of a number.
pub struct Digit;

impl ByteClass for Digit {
    ghost holds = { is_ascii_digit };

    fn has(b: u8) -> bool {
        b.is_ascii_digit()
    }
}
