//! Numbers whose texts were made last.
ghost use Rattle.std.specs.Prelude.{◌≡◌, ◌≢◌, ◌++◌, ◌<◌, ◌≤◌, ℤ, ℕ, IfOk, IfSome, MatchBool, OnOk, length, take};
ghost use Rattle.number_texts.specs.Digits.{number_text};

use number_texts::{number_len, push_number};
use std::alloc::AllocError;

/// So many numbers are known at most; each has one place.
pub(crate) const PLACES: usize = 32;

/// So long a text is kept: so many bytes are copied at once.
const ROOM: usize = 32;

/// What a number is, and with how many decimals at least it is shown.
#[derive(Clone, Copy)]
pub(crate) struct Told {
    pub count: i128,
    pub places: u8,
    pub least: u8,
}

/// Whether two are told alike.
#[inline(always)]
fn are_one(a: Told, b: Told) -> bool
    ensures { MatchBool result (a ≡ b) (a ≢ b) }
{
    a.count == b.count && a.places == b.places && a.least == b.least
}

/// A number, its text, and how long that is.
#[derive(Clone, Copy)]
struct Written {
    told: Told,
    text: [u8; ROOM],
    len: usize,
    ghost few: { len ≤ 32 },
    ghost is_text: { take len text ≡ number_text told.count told.places told.least },
}

/// A number, and how long its text is.
#[derive(Clone, Copy)]
struct Measured {
    told: Told,
    len: usize,
    ghost small: { len ≤ 300 },
    ghost is_len: { len ≡ length (number_text told.count told.places told.least) },
}

/// The numbers that were written and measured last, at their places. Of two inventories that follow one
/// another most counts are the same.
#[derive(Clone, Copy)]
pub(crate) struct Numbers {
    written: [Option<Written>; PLACES],
    measured: [Option<Measured>; PLACES],
}

/// A text in as many bytes as are copied at once, where it is short enough.
fn kept(told: Told, text: &[u8]) -> Option<Written>
    requires { text.now ≡ number_text told.count told.places told.least }
{
    let len = text.len();
    if len > ROOM {
        return None;
    }
    let mut bytes = [0; ROOM];
    bytes[..len].copy_from_slice(text);
    Some(Written {
        told,
        text: bytes,
        len,
    })
}

impl Written {
    /// Adds the text: so many bytes as are copied at once, and those that are too many are taken off.
    #[inline(always)]
    fn push(&self, out: &mut Vec<u8>) -> Result<(), AllocError>
        ensures { OnOk result (out.new.items ≡ out.old.items
            ++ number_text self.now.told.count self.now.told.places self.now.told.least) }
    {
        out.extend_from_slice(&self.text)?;
        out.truncate(out.len() - (ROOM - self.len));
        Ok(())
    }
}

impl Numbers {
    /// None.
    pub(crate) fn new() -> Numbers {
        Numbers {
            written: [None; PLACES],
            measured: [None; PLACES],
        }
    }

    /// Adds the text of a number, which is made anew only where another one stands at its place.
    #[inline(always)]
    pub(crate) fn push(
        &mut self,
        out: &mut Vec<u8>,
        place: usize,
        told: Told,
    ) -> Result<(), AllocError>
        requires { place < 32 }
        ensures { OnOk result (out.new.items ≡ out.old.items
            ++ number_text told.count told.places told.least) }
    {
        if let Some(known) = &self.written[place] {
            if are_one(known.told, told) {
                return known.push(out);
            }
        }
        self.push_new(out, place, told)
    }

    /// The same of a number that another one stands in the place of. It stays out of what is done for
    /// each entry.
    #[inline(never)]
    fn push_new(&mut self, out: &mut Vec<u8>, place: usize, told: Told) -> Result<(), AllocError>
        requires { place < 32 }
        ensures { OnOk result (out.new.items ≡ out.old.items
            ++ number_text told.count told.places told.least) }
    {
        let start = out.len();
        push_number(out, told.count, told.places, told.least)?;
        self.written[place] = kept(told, &out[start..]);
        Ok(())
    }

    /// How many bytes the text of a number has.
    #[inline(always)]
    pub(crate) fn len(&mut self, place: usize, told: Told) -> usize
        requires { place < 32 }
        ensures len { result ≡ length (number_text told.count told.places told.least) }
        ensures few { result ≤ 300 }
    {
        if let Some(known) = self.measured[place] {
            if are_one(known.told, told) {
                return known.len;
            }
        }
        let len = number_len(told.count, told.places, told.least);
        self.measured[place] = Some(Measured { told, len });
        len
    }
}
