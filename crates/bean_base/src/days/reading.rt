//! How a text writes a day.
ghost use Rattle.std.specs.Prelude.{◌≡◌, ◌<◌, ◌≤◌, ◌^◌, length, IsTrue};
ghost use Rattle.std.specs.List.{list_all};
ghost use Rattle.std.specs.Char.{is_ascii_digit};
ghost use Rattle.std.specs.Str.Parse.{digits_value};
ghost use Rattle.std.specs.Result.{result_ok};
ghost use Rattle.bean_base.specs.CalendarDay.{day_of};
ghost use Rattle.bean_base.specs.Day.{is_day_form, HasDay, ParsesDay};

use crate::days::{Day, NotADay};
use jiff::civil::Date;

fn are_digits(bytes: &[u8]) -> bool
    ensures { result ≡ list_all is_ascii_digit bytes.now }
{
    bytes.iter().all(|b| b.is_ascii_digit())
}

/// The number that up to four digits write.
#[tactic(auto, using(crate::proofs::DayFacts::more, crate::proofs::DayFacts::fits_more))]
fn value_of(bytes: &[u8]) -> u16
    requires few { length bytes.now ≤ 4 }
    requires digits { IsTrue (list_all is_ascii_digit bytes.now) }
    ensures value { result ≡ digits_value 10 bytes.now }
    ensures bound { result < 10 ^ length bytes.now }
{
    let mut value = 0;
    for b in bytes {
        value = value * 10 + (*b - b'0') as u16;
    }
    value
}

/// The day, as the calendar has it.
fn calendar_day(year: u16, month: u8, day: u8) -> Result<Day, NotADay>
    ensures { HasDay result year month day }
{
    if year == 0 || year > 9999 || month > 12 || day > 31 {
        return Err(NotADay);
    }
    match Date::new(year as i16, month as i8, day as i8) {
        Ok(date) => Ok(Day {
            date: date.to_plain(),
        }),
        Err(_) => Err(NotADay),
    }
}

impl Day {
    /// The day of that number in its month and year, where the calendar has it.
    #[tactic(auto, using(crate::proofs::DayFacts::is_day_of))]
    pub fn new(year: u16, month: u8, day: u8) -> Result<Day, NotADay>
        ensures has { HasDay result year month day }
        ensures is { result_ok result ≡ day_of year month day }
    {
        calendar_day(year, month, day)
    }

    /// Whether the bytes have the form of a day, which the calendar may not have.
    pub fn is_form(bytes: &[u8]) -> bool
        ensures { result ≡ is_day_form bytes.now }
    {
        bytes.len() == 10
            && (bytes[4] == b'-' || bytes[4] == b'/')
            && bytes[7] == bytes[4]
            && are_digits(&bytes[..4])
            && are_digits(&bytes[5..7])
            && are_digits(&bytes[8..10])
    }
}

/// The day that a text of the form of one writes, as `2014-01-31` or `2014/01/31`.
pub fn day_of_form(text: &str) -> Result<Day, NotADay>
    requires { IsTrue (is_day_form text.now) }
    ensures { ParsesDay result text.now }
{
    let bytes = text.as_bytes();
    let year = value_of(&bytes[..4]);
    let month = value_of(&bytes[5..7]);
    let day = value_of(&bytes[8..10]);
    Day::new(year, month as u8, day as u8)
}

/// The day that a text writes, if it writes one.
pub fn parse_day(text: &str) -> Result<Day, NotADay>
    ensures { ParsesDay result text.now }
{
    if !Day::is_form(text.as_bytes()) {
        return Err(NotADay);
    }
    day_of_form(text)
}
