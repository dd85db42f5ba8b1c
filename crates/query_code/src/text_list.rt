//! Lists of texts, kept as a query file has them.
ghost use Rattle.std.specs.Prelude.{◌≡◌, ◌<◌, ◌+◌, ◌^◌, ◌++◌, ◌∷◌, [], length, IfOk, OnOk, OnErr, ℕ, nat_eq, option_map};
ghost use Rattle.std.specs.Cmp.Lexicographic.{pointwise};
ghost use Rattle.std.specs.List.{list_any};
ghost use Rattle.query_code.specs.ByteForm.{all_written};
ghost use Rattle.query_code.specs.TextForm.{text, texts_in, AreTexts, AreTwoParts, first_in};

use std::alloc::{AllocError, Global};
use std::marker::Model;

/// Texts, each kept as its length in two bytes and its own bytes: those that a file has, which are
/// lent, and those that were added behind them. Its value is the list of them.
#[derive(Drop)]
pub struct TextList<'a> {
    lent: &'a [u8],
    added: Vec<u8>,
    len: u16,
    ghost are_texts: { ∥ AreTexts len (lent.now ++ added.items) ∥₁ },
    ghost are_two_parts: { ∥ AreTwoParts len lent.now added.items ∥₁ },
}

impl<'a> Model for TextList<'a> {
    ghost use Rattle.std.specs.Prelude.{List, ℕ, ◌++◌};
    ghost use Rattle.query_code.specs.TextForm.{texts_in};

    ghost Value = { List (List ℕ) };

    ghost view = { λ t. texts_in t.len (t.lent.now ++ t.added.items) };
}

/// Writes a text behind its length in bytes. Where memory lacks, nothing is written.
#[tactic(auto, unfolding(crate::specs::TextForm::text))]
pub fn put_text(out: &mut Vec<u8>, added: &str) -> Result<(), AllocError>
    requires { text.fits added.now }
    ensures ok { OnOk result (out.new.items ≡ out.old.items ++ text.written added.now) }
    ensures err { OnErr result (out.new.items ≡ out.old.items) }
{
    let before = out.len();
    out.extend_from_slice(&(added.len() as u16).to_be_bytes())?;
    if let Err(lacks) = out.extend_from_slice(added.as_bytes()) {
        out.truncate(before);
        return Err(lacks);
    }
    Ok(())
}

/// The bytes of the first of texts that are written one behind the other, and the others.
fn first_written(bytes: &[u8]) -> Option<(&[u8], &[u8])>
    ensures { option_map (λ x. (x.0.now, x.1.now)) result ≡ first_in bytes.now }
{
    if bytes.len() < 2 {
        return None;
    }
    let (size, rest) = bytes.split_at(2);
    let len = u16::from_be_bytes([size[0], size[1]]) as usize;
    if rest.len() < len {
        return None;
    }
    Some(rest.split_at(len))
}

/// Whether a text is one of those that are written one behind the other.
fn is_written_in(mut bytes: &[u8], sought: &str) -> bool
    ensures { (n : ℕ) → AreTexts n bytes.entry.now
        → result ≡ list_any (pointwise nat_eq sought.now) (texts_in n bytes.entry.now) }
{
    while let Some((written, others)) = first_written(bytes) {
        if sought.as_bytes() == written {
            return true;
        }
        bytes = others;
    }
    false
}

impl<'a> TextList<'a> {
    /// No texts. Takes no memory.
    pub fn new(alloc: Global) -> TextList<'a>
        ensures { result ≡ [] }
    {
        TextList {
            lent: &[],
            added: Vec::new(alloc),
            len: 0,
        }
    }

    /// So many texts, as a file has them. Takes no memory.
    pub fn lent(alloc: Global, len: u16, written: &'a [u8]) -> TextList<'a>
        requires { ∥ AreTexts len written.now ∥₁ }
        ensures { result ≡ texts_in len written.now }
    {
        TextList {
            lent: written,
            added: Vec::new(alloc),
            len,
        }
    }

    /// The same texts once more.
    pub(crate) fn again(&self, alloc: Global) -> Result<TextList<'a>, AllocError>
        ensures { IfOk result (λ again. again ≡ self.now) }
    {
        Ok(TextList {
            lent: self.lent,
            added: Vec::from_slice(alloc, self.added.as_slice())?,
            len: self.len,
        })
    }

    /// How many they are.
    pub fn len(&self) -> u16
        ensures { result ≡ length self.now }
    {
        self.len
    }

    /// How many bytes they take in a file.
    pub fn written_len(&self) -> usize
        ensures { result ≡ length (all_written text self.now) }
    {
        self.lent.len() + self.added.len()
    }

    /// Adds a text at the end.
    pub fn push(&mut self, added: &str) -> Result<(), AllocError>
        requires short { length added.now < 2 ^ 16 }
        requires few { length self.old + 1 < 2 ^ 16 }
        ensures { OnOk result (self.new ≡ self.old ++ added.now ∷ []) }
    {
        put_text(&mut self.added, added)?;
        self.len += 1;
        Ok(())
    }

    /// Whether a text is one of them.
    pub fn has(&self, sought: &str) -> bool
        ensures { result ≡ list_any (pointwise nat_eq sought.now) self.now }
    {
        is_written_in(self.lent, sought) || is_written_in(self.added.as_slice(), sought)
    }

    /// Writes them as a file has them, one behind the other.
    pub fn write(&self, out: &mut Vec<u8>) -> Result<(), AllocError>
        ensures { OnOk result (out.new.items ≡ out.old.items ++ all_written text self.now) }
    {
        out.extend_from_slice(self.lent)?;
        out.extend_from_slice(self.added.as_slice())
    }
}
