//! The texts of days.
ghost use Rattle.std.specs.Prelude.{◌≡◌, ◌≢◌, ◌++◌, MatchBool, OnOk, replicate};
ghost use Rattle.bean_base.specs.Character.{space};
ghost use Rattle.number_texts.specs.Digits.{day_text};

use crate::digits::day_bytes;
use crate::runs::push_spaces;
use bean_base::Day;
use std::alloc::AllocError;

/// How many spaces stand behind a day in what is added at once.
const BEHIND: usize = 6;

/// A day, and its text with spaces behind it.
#[derive(Clone, Copy)]
struct Written {
    day: Day,
    text: [u8; 16],
    ghost is_text: { text ≡ day_text day ++ replicate 6 space },
}

/// Whether two days are one.
#[inline(always)]
pub fn are_one(first: Day, second: Day) -> bool
    ensures { MatchBool result (first ≡ second) (first ≢ second) }
{
    // All at once: they lie beside each other.
    (first.year() == second.year())
        & (first.month() == second.month())
        & (first.day() == second.day())
}

/// The text of a day, and spaces behind it.
fn padded_day(day: Day) -> [u8; 16]
    ensures { result ≡ day_text day ++ replicate 6 space }
{
    let mut text = [b' '; 16];
    text[..10].copy_from_slice(&day_bytes(day));
    text
}

impl Written {
    fn new(day: Day) -> Written
        ensures { result.day ≡ day }
    {
        Written {
            day,
            text: padded_day(day),
        }
    }

    /// Adds the text, and so many spaces behind it: those that are too many are taken off, since copies
    /// of a known length are made in place.
    #[inline(always)]
    fn push(&self, out: &mut Vec<u8>, behind: usize) -> Result<(), AllocError>
        ensures { OnOk result (out.new.items
            ≡ out.old.items ++ day_text self.now.day ++ replicate behind space) }
    {
        // A copy of one's own lies nowhere in what is written.
        let text = self.text;
        out.extend_from_slice(&text)?;
        let kept = behind.min(BEHIND);
        out.truncate(out.len() - (BEHIND - kept));
        push_spaces(out, behind - kept)?;
        Ok(())
    }
}

/// The day that was written last: most often the next cell has the same, and its text is made once
/// for all of them.
#[derive(Clone, Copy)]
pub struct LastDay {
    written: Option<Written>,
}

impl LastDay {
    /// No day was written.
    pub fn new() -> LastDay {
        LastDay { written: None }
    }

    /// Adds the text of a day, and so many spaces behind it.
    #[inline(always)]
    pub fn push(&mut self, out: &mut Vec<u8>, day: Day, behind: usize) -> Result<(), AllocError>
        ensures { OnOk result (out.new.items
            ≡ out.old.items ++ day_text day ++ replicate behind space) }
    {
        if let Some(written) = &self.written {
            if are_one(written.day, day) {
                return written.push(out, behind);
            }
        }
        self.push_new(out, day, behind)
    }

    /// The same of a day that wasn't written last.
    #[inline(never)]
    fn push_new(&mut self, out: &mut Vec<u8>, day: Day, behind: usize) -> Result<(), AllocError>
        ensures { OnOk result (out.new.items
            ≡ out.old.items ++ day_text day ++ replicate behind space) }
    {
        let written = Written::new(day);
        self.written = Some(written);
        written.push(out, behind)
    }
}
