//! The ends of texts, by which texts that come again and again are looked for first where they were
//! found last: names of accounts differ there. Who looks at such a place sees what stands there, so
//! that texts whose ends aren't told apart cost a look and no more.
ghost use Rattle.std.specs.Prelude.{◌<◌};

/// So many bytes at the end of a text tell its end.
const TELLING: usize = 8;

/// What the telling bytes are multiplied with, so that all of them have a part in the upper bits.
const SPREAD: u64 = 0x9e37_79b9_7f4a_7c15;

/// The telling bytes, as one number.
#[inline(always)]
fn telling(bytes: &[u8]) -> u64 {
    if let Some(last) = bytes.last_chunk::<TELLING>() {
        return u64::from_le_bytes(*last);
    }
    let mut number: u64 = 0;
    for byte in bytes {
        number = number.wrapping_mul(256).wrapping_add(*byte as u64);
    }
    number
}

/// Which of so many ends a text has, of which at most 8,192 are told apart. A number beside the text
/// tells apart for what it is looked up, as that of a pattern.
#[inline(always)]
pub fn end_of(text: &str, beside: usize, ends: usize) -> usize
    requires { 0 < ends }
    ensures { result < ends }
{
    let bytes = text.as_bytes();
    let apart = bytes.len().wrapping_add(beside) as u64;
    let spread = telling(bytes).wrapping_add(apart).wrapping_mul(SPREAD);
    (spread >> 51) as usize % ends
}
