//! What quoted texts stand for, as one slice of bytes.
ghost use Rattle.std.specs.Prelude.{◌≡◌, IfOk, IfSome};
ghost use Rattle.std.specs.String.{string_bytes};

use bean_base::{Apart, Slice, Text};
use std::alloc::{AllocError, Global};
use std::marker::Model;

/// Where the bytes of a text are.
#[derive(Drop)]
enum Bytes<'a> {
    Lent(Slice<'a>),
    Made(Apart<String>),
}

/// A text without escapes: a slice of where it stands, or one that was made. Its value is its
/// bytes, wherever they lie.
pub struct PlainText<'a> {
    bytes: Bytes<'a>,
}

/// Written out, so that what gives one up needs to know nothing of what is in it.
impl Drop for PlainText<'_> {
    fn drop(self) {
        let PlainText { bytes: _ } = self;
    }
}

impl<'a> Model for PlainText<'a> {
    ghost use Rattle.std.specs.Prelude.{List, ℕ};
    ghost use Rattle.posting_entries.specs.PlainText.{bytes_of};

    ghost Value = { List ℕ };

    ghost view = { λ t. bytes_of t.bytes };
}

impl<'a> PlainText<'a> {
    /// The text that stands there. Takes no memory.
    pub fn lent(text: &'a str) -> PlainText<'a>
        ensures { result ≡ text.now }
    {
        PlainText {
            bytes: Bytes::Lent(Slice::new(text)),
        }
    }

    /// The text that was made. Few are: it lies apart, so that the others stay small.
    pub fn made(alloc: Global, text: String) -> Result<PlainText<'a>, AllocError>
        ensures { IfOk result (λ plain. plain ≡ string_bytes text) }
    {
        Ok(PlainText {
            bytes: Bytes::Made(Apart::new(alloc, text)?),
        })
    }

    /// What a quoted text stands for. It takes memory where the text has an escape.
    pub fn of(alloc: Global, text: &Text<'a>) -> Result<PlainText<'a>, AllocError>
        ensures { IfOk result (λ plain. plain ≡ text.now) }
    {
        if let Some(plain) = text.plain() {
            return Ok(PlainText::lent(plain));
        }
        let mut made = String::new(alloc);
        text.add_to(&mut made)?;
        PlainText::made(alloc, made)
    }

    /// The slice, where it is one.
    pub(crate) fn slice(&self) -> Option<Slice<'a>>
        ensures { IfSome result (λ slice. slice ≡ self.now) }
    {
        match &self.bytes {
            Bytes::Lent(slice) => Some(slice.lend()),
            Bytes::Made(_) => None,
        }
    }

    /// The text.
    pub fn as_str(&self) -> &str
        ensures { result.now ≡ self.now }
    {
        match &self.bytes {
            Bytes::Lent(slice) => slice.text(),
            Bytes::Made(text) => text.get(),
        }
    }
}
