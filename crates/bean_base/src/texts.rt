//! Quoted texts: as they are written, and what they stand for.
ghost use Rattle.std.specs.Prelude.{◌≡◌, ◌<◌, ◌≤◌, [], ◌∷◌, ◌++◌, nat_eq, length, IfSome, MatchOption, IfOk, OnOk};
ghost use Rattle.std.specs.Ordering.{nat_cmp, as_partial_cmp};
ghost use Rattle.std.specs.String.{string_bytes};
ghost use Rattle.std.specs.Cmp.Lexicographic.{pointwise, slice_cmp, nat_list_eq_equiv};
ghost use Rattle.std.specs.Cmp;
ghost use Rattle.std.specs.Hash as fed;
ghost use Rattle.std.specs.List.{list_any, flat_map};
ghost use Rattle.std.specs.Cmp.Rules.{comparing, hashing};
ghost use Rattle.std.proofs.Common.{rules};
ghost use Rattle.bean_base.specs.Character.{backslash};
ghost use Rattle.bean_base.specs.Text.{read_text};
ghost use Rattle.bean_base.specs.Text as spec;

use std::alloc::AllocError;
use std::cmp::Ordering;
use std::hash::{Hash, Hasher};
use std::marker::Model;

/// A quoted text, as a slice of what is written between its quotes.
///
/// Its value is what it stands for: `\n` is a line feed, `\t` a tab, and a backslash before any
/// other character stands for it. So two texts are `==` where they stand for the same.
#[derive(Drop)]
pub struct Text<'a> {
    written: &'a str,
}

impl<'a> Model for Text<'a> {
    ghost use Rattle.std.specs.Prelude.{List, ℕ};
    ghost use Rattle.bean_base.specs.Text.{read_text};
    ghost use Rattle.bean_base.specs.Text as spec;

    ghost Value = { List ℕ };

    ghost view = { λ t. read_text t.written.now };
}

/// What a backslash and this character stand for.
fn escaped(c: u8) -> u8
    ensures { result ≡ spec.escaped c }
{
    match c {
        b'n' => b'\n',
        b't' => b'\t',
        _ => c,
    }
}

/// The first byte that a written text stands for, and what is written behind it.
fn next_byte(written: &[u8]) -> Option<(u8, &[u8])>
    ensures byte { MatchOption result (read_text written.now ≡ [])
        (λ r. read_text written.now ≡ r.0 ∷ read_text r.1.now) }
    ensures shorter { IfSome result (λ r. length r.1.now < length written.now) }
{
    match written {
        [] => None,
        [b'\\', c, rest @ ..] => Some((escaped(*c), rest)),
        [b, rest @ ..] => Some((*b, rest)),
    }
}

/// What is still to be read of a written text.
#[derive(Clone, Copy)]
struct Unread<'t> {
    written: &'t [u8],
}

/// The order of what two written texts stand for.
fn order_of_read(a: &[u8], b: &[u8]) -> Ordering
    ensures { result ≡ slice_cmp nat_cmp (read_text a.now) (read_text b.now) }
{
    let mut left = Unread { written: a };
    let mut right = Unread { written: b };
    while let Some((x, after_x)) = next_byte(left.written) {
        match next_byte(right.written) {
            Some((y, after_y)) if x == y => {
                left = Unread { written: after_x };
                right = Unread { written: after_y };
            }
            Some((y, _)) => return x.cmp(&y),
            None => return Ordering::Greater,
        }
    }
    match next_byte(right.written) {
        Some(_) => Ordering::Less,
        None => Ordering::Equal,
    }
}

fn has_escape(written: &[u8]) -> bool
    ensures { result ≡ list_any (nat_eq backslash) written.now }
{
    written.contains(&b'\\')
}

/// What is still to be added of a written text.
#[derive(Clone, Copy)]
struct Unadded<'t> {
    written: &'t str,
}

/// What stands before the first backslash, and behind it.
fn split_at_escape(written: &str) -> Option<(&str, &str)>
    ensures parts { MatchOption result (read_text written.now ≡ written.now)
        (λ p. read_text written.now ≡ p.0.now ++ read_text (backslash ∷ p.1.now)) }
    ensures shorter { IfSome result (λ p. length p.1.now < length written.now) }
{
    match written.split_once('\\') {
        Some((before, behind)) => Some((before, behind)),
        None => None,
    }
}

/// Adds what an escape stands for, and tells what is written behind it. Of an escape whose
/// character stands for itself that character is left.
fn add_escape<'t>(out: &mut String, behind: &'t str) -> Result<&'t str, AllocError>
    ensures read { IfOk result (λ rest. string_bytes out.new ++ read_text rest.now
        ≡ string_bytes out.old ++ read_text (backslash ∷ behind.now)) }
    ensures shorter { IfOk result (λ rest. length rest.now ≤ length behind.now) }
{
    if let Some(rest) = behind.strip_prefix('n') {
        out.push('\n')?;
        return Ok(rest);
    }
    if let Some(rest) = behind.strip_prefix('t') {
        out.push('\t')?;
        return Ok(rest);
    }
    if let Some(rest) = behind.strip_prefix('\\') {
        out.push('\\')?;
        return Ok(rest);
    }
    if behind.is_empty() {
        out.push('\\')?;
        return Ok(behind);
    }
    Ok(behind)
}

impl<'a> Text<'a> {
    /// The text of what is written between its quotes.
    pub fn new(written: &'a str) -> Text<'a>
        ensures { result ≡ read_text written.now }
    {
        Text { written }
    }

    /// What is written between its quotes.
    pub fn written(&self) -> &'a str
        ensures { read_text result.now ≡ self.now }
    {
        self.written
    }

    /// The same text once more.
    pub fn lend(&self) -> Text<'a>
        ensures { result ≡ self.now }
    {
        Text {
            written: self.written,
        }
    }

    /// What it stands for as a slice, where it has no escape.
    pub fn plain(&self) -> Option<&'a str>
        ensures { IfSome result (λ s. s.now ≡ self.now) }
    {
        if has_escape(self.written.as_bytes()) {
            None
        } else {
            Some(self.written)
        }
    }

    /// Adds what it stands for at the end.
    pub fn add_to(&self, out: &mut String) -> Result<(), AllocError>
        ensures { OnOk result (string_bytes out.new ≡ string_bytes out.old ++ self.now) }
    {
        let mut unadded = Unadded {
            written: self.written,
        };
        while let Some((before, behind)) = split_at_escape(unadded.written) {
            out.push_str(before)?;
            unadded = Unadded {
                written: add_escape(out, behind)?,
            };
        }
        out.push_str(unadded.written)?;
        Ok(())
    }
}

impl PartialEq for Text<'_> {
    ghost eq = { pointwise nat_eq };

    ghost laws = { Cmp.partial_equiv_from_equiv nat_list_eq_equiv };

    fn eq(&self, other: &Self) -> bool {
        order_of_read(self.written.as_bytes(), other.written.as_bytes()).is_eq()
    }
}

impl Eq for Text<'_> {
    ghost laws = { nat_list_eq_equiv };
}

/// Texts are in the order of the bytes that they stand for.
impl Ord for Text<'_> {
    ghost cmp = { slice_cmp nat_cmp };

    ghost total = { Prim.search (comparing, rules) };

    ghost matches_partial_cmp = { Prim.search (comparing, rules) };

    ghost matches_eq = { Prim.search (comparing, rules) };

    fn cmp(&self, other: &Self) -> Ordering {
        order_of_read(self.written.as_bytes(), other.written.as_bytes())
    }
}

impl PartialOrd for Text<'_> {
    ghost partial_cmp = { as_partial_cmp (slice_cmp nat_cmp) };

    ghost laws = { Cmp.partial_order_from_own_ties (Prim.search (comparing, rules))
        (Prim.search (comparing, rules)) };

    fn partial_cmp(&self, other: &Self) -> Option<Ordering> {
        Some(self.cmp(other))
    }
}

/// It feeds each byte that it stands for, so that texts that are `==` feed the same.
impl Hash for Text<'_> {
    ghost hash_input = { λ t. flat_map fed.u8 t };

    ghost respects_eq = { Prim.search (hashing, rules) };

    fn hash<H: Hasher>(&self, state: &mut H) {
        let mut unread = Unread {
            written: self.written.as_bytes(),
        };
        while let Some((byte, behind)) = next_byte(unread.written) {
            state.write_u8(byte);
            unread = Unread { written: behind };
        }
    }
}
