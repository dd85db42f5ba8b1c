//! Texts that show as they are. Most are short, and so they are looked at and copied in few steps.
ghost use Rattle.std.specs.Prelude.{◌≡◌, ◌≤◌, ◌+◌, ◌-◌, ◌++◌, List, ℕ, OnOk, IfOk, IfSome, IsTrue, length, take, drop, true};
ghost use Rattle.std.specs.Prelude.{replicate, if◌then◌else◌, vec_len};
ghost use Rattle.bean_base.specs.Character.{space};
ghost use Rattle.std.specs.Int.{is_in_range};
ghost use Rattle.std.specs.List.{list_all};

use crate::printable::is_printable;
use crate::runs::push_spaces;
use std::alloc::AllocError;

/// The first bytes of a text and its last, so many of each that no byte is left out.
#[derive(Clone, Copy)]
struct Ends<'t, const N: usize> {
    first: &'t [u8; N],
    last: &'t [u8; N],
}

/// The ends of bytes that are as many as both have at most, and as many as one has at least.
#[inline(always)]
fn ends_of<const N: usize>(bytes: &[u8]) -> Option<Ends<'_, N>>
    requires short { N ≤ 16 }
    ensures many { IfSome result (λ ends. N ≤ length bytes.now) }
    ensures few { IfSome result (λ ends. length bytes.now ≤ N + N) }
    ensures first { IfSome result (λ ends. ends.first.now ≡ take N bytes.now) }
    ensures last { IfSome result (λ ends. ends.last.now ≡ drop (length bytes.now - N) bytes.now) }
{
    let first = bytes.first_chunk::<N>()?;
    let last = bytes.last_chunk::<N>()?;
    if bytes.len() - N > N {
        return None;
    }
    Some(Ends { first, last })
}

/// Whether bytes are printable ASCII characters; they are looked at at once.
#[inline(always)]
fn some_are_printable<const N: usize>(bytes: &[u8; N]) -> bool
    ensures { result ≡ list_all (is_in_range 32 126) bytes.now }
{
    let mut all = true;
    for b in bytes {
        all &= 32 <= *b && *b <= 126;
    }
    all
}

/// Whether bytes are printable ASCII characters, of which these are the ends.
#[inline(always)]
fn are_printable<const N: usize>(ends: Ends<'_, N>, bytes: &[u8]) -> bool
    requires many { N ≤ length bytes.now }
    requires few { length bytes.now ≤ N + N }
    requires first { ends.first.now ≡ take N bytes.now }
    requires last { ends.last.now ≡ drop (length bytes.now - N) bytes.now }
    ensures { result ≡ list_all (is_in_range 32 126) bytes.now }
{
    some_are_printable(ends.last) & some_are_printable(ends.first)
}

/// Whether bytes are printable ASCII characters, where so many at their front and at their end tell it.
#[inline(always)]
fn ends_are_printable<const N: usize>(bytes: &[u8]) -> Option<bool>
    requires short { N ≤ 16 }
    ensures { IfSome result (λ all. all ≡ list_all (is_in_range 32 126) bytes.now) }
{
    let ends = ends_of::<N>(bytes)?;
    Some(are_printable(ends, bytes))
}

/// Whether a text has printable ASCII characters alone, as most have.
#[inline(always)]
pub fn is_plain(text: &str) -> bool
    ensures { result ≡ list_all (is_in_range 32 126) text.now }
{
    let bytes = text.as_bytes();
    if let [byte] = bytes {
        return 32 <= *byte && *byte <= 126;
    }
    if let Some(all) = ends_are_printable::<16>(bytes) {
        return all;
    }
    if let Some(all) = ends_are_printable::<8>(bytes) {
        return all;
    }
    is_printable(text)
}

/// How many bytes are added at once, of which those that are too many are taken off: copies of a known
/// length are made in place.
const SOME: usize = 64;

/// How many spaces stand behind a text at most that is added at once.
const MOST_BEHIND: usize = 32;

/// Puts bytes in the place of others.
#[inline(always)]
fn put_at<const N: usize>(out: &mut Vec<u8>, at: usize, bytes: &[u8; N])
    requires { at + N ≤ vec_len out.old }
    ensures items { out.new.items
        ≡ take at out.old.items ++ bytes.now ++ drop (at + N) out.old.items }
    ensures len { vec_len out.new ≡ vec_len out.old }
{
    // A copy of one's own lies nowhere in what is written.
    let bytes = *bytes;
    out[at..at + N].copy_from_slice(&bytes);
}

/// Adds bytes that are neither many nor few, and so many spaces behind them: the bytes are put among
/// spaces, as many as are copied at once at their front and at their end.
#[inline(always)]
fn push_ends<const N: usize>(
    out: &mut Vec<u8>,
    first: &[u8; N],
    last: &[u8; N],
    len: usize,
    spaces: usize,
) -> Result<(), AllocError>
    requires many { N ≤ len }
    requires few { len ≤ N + N }
    requires short { N ≤ 16 }
    requires spaces { spaces ≤ 32 }
    ensures { OnOk result (out.new.items ≡ out.old.items
        ++ (take (len - N) first.now ++ last.now) ++ replicate spaces space) }
{
    let start = out.len();
    out.extend_from_slice(&[b' '; SOME])?;
    put_at(out, start, first);
    put_at(out, start + (len - N), last);
    out.truncate(start + (len + spaces));
    Ok(())
}

/// Adds bytes, and so many spaces behind them, where so many at their front and at their end are all.
/// Tells whether they are.
#[inline(always)]
fn push_some<const N: usize>(
    out: &mut Vec<u8>,
    bytes: &[u8],
    spaces: usize,
) -> Result<bool, AllocError>
    requires short { N ≤ 16 }
    requires spaces { spaces ≤ 32 }
    ensures { IfOk result (λ are. out.new.items ≡ (if are then
        out.old.items ++ bytes.now ++ replicate spaces space else out.old.items)) }
{
    let Some(ends) = ends_of::<N>(bytes) else {
        return Ok(false);
    };
    push_ends(out, ends.first, ends.last, bytes.len(), spaces)?;
    Ok(true)
}

/// Adds bytes, and so many spaces behind them.
#[inline(always)]
pub fn push_bytes(out: &mut Vec<u8>, bytes: &[u8], spaces: usize) -> Result<(), AllocError>
    ensures { OnOk result (out.new.items
        ≡ out.old.items ++ bytes.now ++ replicate spaces space) }
{
    if spaces <= MOST_BEHIND {
        if push_some::<1>(out, bytes, spaces)? {
            return Ok(());
        }
        if push_some::<16>(out, bytes, spaces)? {
            return Ok(());
        }
        if push_some::<8>(out, bytes, spaces)? {
            return Ok(());
        }
    }
    out.extend_from_slice(bytes)?;
    push_padding(out, spaces)?;
    Ok(())
}

/// Adds bytes, and so many spaces behind them, where so many at their front and at their end are all and
/// are printable ASCII characters. Tells whether it did.
#[inline(always)]
fn push_plain_some<const N: usize>(
    out: &mut Vec<u8>,
    bytes: &[u8],
    spaces: usize,
) -> Result<bool, AllocError>
    requires short { N ≤ 16 }
    requires spaces { spaces ≤ 32 }
    ensures items { IfOk result (λ are. out.new.items ≡ (if are then
        out.old.items ++ bytes.now ++ replicate spaces space else out.old.items)) }
    ensures plain { IfOk result (λ are. IsTrue are → list_all (is_in_range 32 126) bytes.now ≡ true) }
{
    let Some(ends) = ends_of::<N>(bytes) else {
        return Ok(false);
    };
    if !are_printable(ends, bytes) {
        return Ok(false);
    }
    push_ends(out, ends.first, ends.last, bytes.len(), spaces)?;
    Ok(true)
}

/// Adds a text and so many spaces behind it, where it is short and has printable ASCII characters alone,
/// as most have: what tells it is looked at once. Tells whether it did.
#[inline(always)]
pub fn push_plain(out: &mut Vec<u8>, text: &str, spaces: usize) -> Result<bool, AllocError>
    ensures items { IfOk result (λ is. out.new.items ≡ (if is then
        out.old.items ++ text.now ++ replicate spaces space else out.old.items)) }
    ensures plain { IfOk result (λ is. IsTrue is → list_all (is_in_range 32 126) text.now ≡ true) }
{
    let bytes = text.as_bytes();
    if spaces > MOST_BEHIND {
        return Ok(false);
    }
    if push_plain_some::<1>(out, bytes, spaces)? {
        return Ok(true);
    }
    if push_plain_some::<16>(out, bytes, spaces)? {
        return Ok(true);
    }
    push_plain_some::<8>(out, bytes, spaces)
}

/// How many spaces are added at once.
const SPACES: usize = 48;

/// Adds spaces: where they are few, as they mostly are, so many as are copied at once, of which those
/// that are too many are taken off.
#[inline(always)]
pub fn push_padding(out: &mut Vec<u8>, count: usize) -> Result<(), AllocError>
    ensures { OnOk result (out.new.items ≡ out.old.items ++ replicate count space) }
{
    if count == 0 {
        return Ok(());
    }
    if count > SPACES {
        return push_spaces(out, count);
    }
    out.extend_from_slice(&[b' '; SPACES])?;
    out.truncate(out.len() - (SPACES - count));
    Ok(())
}
