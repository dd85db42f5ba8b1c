//! The texts of numbers and days.
ghost use Rattle.std.specs.Prelude.{◌≡◌, ◌≤◌, ◌<◌, ◌+◌, ◌-◌, ◌/◌, ◌%◌, ◌^◌, [], ◌∷◌, ◌++◌, OnOk, IfOk};
ghost use Rattle.std.specs.Prelude.{IfSome, drop, length, max, nat_lt, replicate, take, if◌then◌else◌};
ghost use Rattle.std.specs.Fmt.{decimal};
ghost use Rattle.std.specs.Int.RustNames.{unsigned_abs};
ghost use Rattle.bean_base.specs.Character.{dash, space};
ghost use Rattle.number_texts.specs.Digits.{behind_point, digits_of, exact_decimals, number_text};
ghost use Rattle.number_texts.specs.Digits.{parts_text};
ghost use Rattle.number_texts.specs.Digits.{day_text, right_of, zeros};

use crate::runs::{push_run, push_spaces};
use bean_base::{Day, power_of_ten};
use itoa::{Buffer, write_digits};
use std::alloc::AllocError;

fn digit(number: u64) -> u8
    ensures { result ≡ 48 + number % 10 }
{
    b'0' + (number % 10) as u8
}

/// The digits of each number below 100, one behind the other.
static PAIRS: [u8; 200] =
    *b"00010203040506070809101112131415161718192021222324252627282930313233343536373839404142434445464748495051525354555657585960616263646566676869707172737475767778798081828384858687888990919293949596979899";

/// The two digits of a number. They are looked up beside each other, at once.
#[inline(always)]
fn pair(number: u64) -> (u8, u8)
    requires { number < 100 }
    ensures first { result.0 ≡ 48 + number / 10 % 10 }
    ensures second { result.1 ≡ 48 + number % 10 }
{
    let at = number as usize * 2;
    (PAIRS[at], PAIRS[at + 1])
}

fn unit_of(places: u8) -> u128
    requires { places ≤ 38 }
    ensures value { result ≡ 10 ^ places }
    ensures some { 0 < result }
    ensures narrow { result ≤ 100000000000000000000000000000000000000 }
{
    power_of_ten(places).unsigned_abs()
}

/// A number of 64 bits before and behind its last `places` digits. Most counts have 8 decimals, and
/// what is divided by a known number is multiplied instead.
#[inline(always)]
fn split_few_at(number: u64, places: u8) -> (u64, u64)
    requires { places < 20 }
    ensures before { result.0 ≡ number / 10 ^ places }
    ensures behind { result.1 ≡ number % 10 ^ places }
{
    match places {
        8 => (number / 100_000_000, number % 100_000_000),
        7 => (number / 10_000_000, number % 10_000_000),
        6 => (number / 1_000_000, number % 1_000_000),
        5 => (number / 100_000, number % 100_000),
        4 => (number / 10_000, number % 10_000),
        3 => (number / 1_000, number % 1_000),
        2 => (number / 100, number % 100),
        1 => (number / 10, number % 10),
        0 => (number, 0),
        _ => {
            let unit = power_of_ten(places) as u64;
            (number / unit, number % unit)
        }
    }
}

/// A number before and behind its last `places` digits.
fn split_at(number: u128, places: u8) -> (u128, u128)
    ensures before { result.0 ≡ number / 10 ^ places }
    ensures behind { result.1 ≡ number % 10 ^ places }
    ensures small { result.1 < 10 ^ places }
{
    if places > 38 {
        // The number has fewer digits.
        return (0, number);
    }
    match u64::try_from(number) {
        // Most fit, and 64 bits are divided much faster than 128.
        Ok(number) if places < 20 => {
            let (before, behind) = split_few_at(number, places);
            (before as u128, behind as u128)
        }
        _ => {
            let unit = unit_of(places);
            (number / unit, number % unit)
        }
    }
}

/// The last `places` digits of a number, with zeros in front where it has fewer.
fn push_few_digits(out: &mut Vec<u8>, places: u8, number: u128) -> Result<(), AllocError>
    requires few { places ≤ 32 }
    requires small { number < 10 ^ places }
    ensures { OnOk result (out.new.items ≡ out.old.items ++ digits_of places number) }
{
    // A one before the digits keeps the zeros in front of them.
    let mut buffer = Buffer::new();
    let text = buffer.format(unit_of(places) + number);
    if let Some((_, digits)) = text.as_bytes().split_first() {
        out.extend_from_slice(digits)?;
    }
    Ok(())
}

/// The same for any count of digits; where there are many, which is rare, one after the other.
fn push_digits(out: &mut Vec<u8>, places: u8, number: u128) -> Result<(), AllocError>
    requires { number < 10 ^ places }
    ensures { OnOk result (out.new.items ≡ out.old.items ++ digits_of places number) }
{
    if places <= 32 {
        return push_few_digits(out, places, number);
    }
    push_digits(out, places - 1, number / 10)?;
    out.push(digit((number % 10) as u64))?;
    Ok(())
}

/// Decimals without the zeros at their end behind the first `least`: how many they are, and the
/// number that they write.
fn without_zeros(places: u8, decimals: u128, least: u8) -> (u8, u128)
    requires { decimals < 10 ^ places }
    ensures digits { digits_of result.0 result.1 ++ zeros (least - result.0)
        ≡ exact_decimals places decimals
        ++ zeros (least - length (exact_decimals places decimals)) }
    ensures few { result.0 ≤ places }
    ensures small { result.1 < 10 ^ result.0 }
{
    // Most have zeros alone behind the least: one division takes them off.
    let surplus = places.saturating_sub(least);
    let (digits, rest) = split_at(decimals, surplus);
    if rest == 0 {
        return (places - surplus, digits);
    }
    match u64::try_from(decimals) {
        Ok(few) => {
            let (shown, digits) = zeros_taken_off_few(places, few, least);
            (shown, digits as u128)
        }
        Err(_) => zeros_taken_off(places, decimals, least),
    }
}

/// Decimals without four zeros at their end, where they have as many behind the first `least`.
#[inline(always)]
fn four_taken_off(places: u8, decimals: u64, least: u8) -> (u8, u64)
    requires { decimals < 10 ^ places }
    ensures same { exact_decimals result.0 result.1 ≡ exact_decimals places decimals }
    ensures few { result.0 ≤ places }
    ensures small { result.1 < 10 ^ result.0 }
{
    if places.saturating_sub(least) >= 4 && decimals % 10_000 == 0 {
        return (places - 4, decimals / 10_000);
    }
    (places, decimals)
}

/// Decimals without two zeros at their end, where they have as many behind the first `least`.
#[inline(always)]
fn two_taken_off(places: u8, decimals: u64, least: u8) -> (u8, u64)
    requires { decimals < 10 ^ places }
    ensures same { exact_decimals result.0 result.1 ≡ exact_decimals places decimals }
    ensures few { result.0 ≤ places }
    ensures small { result.1 < 10 ^ result.0 }
{
    if places.saturating_sub(least) >= 2 && decimals % 100 == 0 {
        return (places - 2, decimals / 100);
    }
    (places, decimals)
}

/// The same of 64 bits, which are divided much faster than 128: some zeros at once, and what is left
/// one after the other.
fn zeros_taken_off_few(places: u8, decimals: u64, least: u8) -> (u8, u64)
    requires { decimals < 10 ^ places }
    ensures digits { digits_of result.0 result.1 ++ zeros (least - result.0)
        ≡ exact_decimals places decimals
        ++ zeros (least - length (exact_decimals places decimals)) }
    ensures few { result.0 ≤ places }
    ensures small { result.1 < 10 ^ result.0 }
{
    let (places, decimals) = four_taken_off(places, decimals, least);
    let (places, decimals) = two_taken_off(places, decimals, least);
    one_by_one(places, decimals, least)
}

/// The same, one zero after the other.
#[inline(always)]
fn one_by_one(places: u8, decimals: u64, least: u8) -> (u8, u64)
    requires { decimals < 10 ^ places }
    ensures digits { digits_of result.0 result.1 ++ zeros (least - result.0)
        ≡ exact_decimals places decimals
        ++ zeros (least - length (exact_decimals places decimals)) }
    ensures few { result.0 ≤ places }
    ensures small { result.1 < 10 ^ result.0 }
{
    let mut places = places;
    let mut decimals = decimals;
    while places > least && decimals % 10 == 0 {
        places -= 1;
        decimals /= 10;
    }
    (places, decimals)
}

/// The same of any number.
fn zeros_taken_off(places: u8, decimals: u128, least: u8) -> (u8, u128)
    requires { decimals < 10 ^ places }
    ensures digits { digits_of result.0 result.1 ++ zeros (least - result.0)
        ≡ exact_decimals places decimals
        ++ zeros (least - length (exact_decimals places decimals)) }
    ensures few { result.0 ≤ places }
    ensures small { result.1 < 10 ^ result.0 }
{
    let mut places = places;
    let mut decimals = decimals;
    while places > least && decimals % 10 == 0 {
        places -= 1;
        decimals /= 10;
    }
    (places, decimals)
}

fn push_if(out: &mut Vec<u8>, mark: u8, is_wanted: bool) -> Result<(), AllocError>
    ensures { OnOk result (out.new.items ≡ out.old.items ++ (if is_wanted then mark ∷ [] else [])) }
{
    if is_wanted {
        out.push(mark)?;
    }
    Ok(())
}

/// How many marks [`push_if`] adds.
fn len_if(is_wanted: bool) -> usize
    ensures { result ≡ (if is_wanted then 1 else 0) }
{
    if is_wanted { 1 } else { 0 }
}

/// How many digits a number of 64 bits has.
fn digits_in_word(number: u64) -> usize
    ensures count { result ≡ length (decimal number) }
    ensures few { result ≤ 20 }
{
    if number == 0 {
        return 1;
    }
    number.ilog10() as usize + 1
}

/// How many digits a number has.
fn digits_in(number: u128) -> usize
    ensures count { result ≡ length (decimal number) }
    ensures few { result ≤ 40 }
{
    match u64::try_from(number) {
        Ok(number) => digits_in_word(number),
        Err(_) => Buffer::new().format(number).len(),
    }
}

/// The parts of a magnitude as they are shown.
#[derive(Clone, Copy)]
struct Parts {
    whole: u128,
    /// How many decimals are shown.
    shown: u8,
    /// The number that they write.
    digits: u128,
}

/// The parts of the magnitude `number` · `10^-places`, without the zeros at the end behind the first
/// `least` decimals.
#[inline(never)]
fn any_parts(number: u128, places: u8, least: u8) -> Parts
    ensures whole { result.whole ≡ number / 10 ^ places }
    ensures digits { digits_of result.shown result.digits ++ zeros (least - result.shown)
        ≡ exact_decimals places (number % 10 ^ places)
        ++ zeros (least - length (exact_decimals places (number % 10 ^ places))) }
    ensures small { result.digits < 10 ^ result.shown }
{
    let (whole, decimals) = split_at(number, places);
    let (shown, digits) = without_zeros(places, decimals, least);
    Parts {
        whole,
        shown,
        digits,
    }
}

/// The whole part and the decimals that are shown, where the number is one of 64 bits with 8 decimals,
/// as most are, and has zeros alone behind the first `least`.
#[inline(always)]
fn few_parts(number: u128, places: u8, least: u8) -> Option<(u64, u64)>
    ensures few { IfSome result (λ parts. least ≤ 8) }
    ensures whole { IfSome result (λ parts. parts.0 ≡ number / 10 ^ places) }
    ensures digits { IfSome result (λ parts. digits_of least parts.1 ++ zeros (least - least)
        ≡ exact_decimals places (number % 10 ^ places)
        ++ zeros (least - length (exact_decimals places (number % 10 ^ places)))) }
    ensures small { IfSome result (λ parts. parts.1 < 10 ^ least) }
{
    let number = u64::try_from(number).ok()?;
    if places != 8 || least > 8 {
        return None;
    }
    let (whole, decimals) = split_few_at(number, 8);
    let (digits, rest) = split_few_at(decimals, 8 - least);
    if rest != 0 {
        return None;
    }
    Some((whole, digits))
}

/// How many bytes the parts of a magnitude have.
fn parts_len(parts: Parts, least: u8) -> usize
    ensures len { result ≡ length (decimal parts.whole)
        + ((if nat_lt 0 (max parts.shown least) then 1 else 0) + max parts.shown least) }
    ensures few { result ≤ 299 }
{
    let behind = parts.shown.max(least) as usize;
    digits_in(parts.whole) + (len_if(behind > 0) + behind)
}

/// How many bytes the text of `count` · `10^-places` has, as [`push_number`] adds it. It is told
/// without making the text.
#[inline(always)]
pub fn number_len(count: i128, places: u8, least: u8) -> usize
    ensures len { result ≡ length (number_text count places least) }
    ensures few { result ≤ 300 }
{
    let number = count.unsigned_abs();
    match few_parts(number, places, least) {
        Some((whole, _)) => len_if(count < 0)
            + (digits_in_word(whole) + (len_if(least > 0) + least as usize)),
        None => len_if(count < 0) + parts_len(any_parts(number, places, least), least),
    }
}

/// Puts a sign before the text that begins at `start`, where it is wanted, and tells where the text
/// begins with it. Spaces stand before it.
fn put_sign(text: &mut [u8], start: usize, is_wanted: bool) -> usize
    requires some { (0 < start) × (start ≤ length text.old) }
    requires spaces { take start text.old ≡ replicate start space }
    ensures text { drop result text.new
        ≡ (if is_wanted then dash ∷ [] else []) ++ drop start text.old }
    ensures start { result + length (if is_wanted then dash ∷ [] else []) ≡ start }
    ensures spaces { take result text.new ≡ replicate result space }
{
    text[start - 1] = if is_wanted { b'-' } else { b' ' };
    start - len_if(is_wanted)
}

/// Puts a point and two decimals, as most numbers have, so that they end at the byte 40.
#[inline(always)]
fn put_two_decimals(text: &mut [u8], digits: u64)
    requires many { 40 ≤ length text.old }
    requires small { digits < 100 }
    ensures text { drop 37 text.new ≡ behind_point (digits_of 2 digits) ++ drop 40 text.old }
    ensures before { take 37 text.new ≡ take 37 text.old }
{
    let (first, second) = pair(digits);
    text[37] = b'.';
    text[38] = first;
    text[39] = second;
}

/// Puts a point and so many decimals so that they end at the byte 40, and tells where they begin.
#[inline(always)]
fn put_some_decimals(text: &mut [u8], shown: u8, digits: u64) -> usize
    requires some { 0 < shown }
    requires few { shown ≤ 18 }
    requires small { digits < 10 ^ shown }
    requires many { 40 ≤ length text.old }
    ensures text { drop result text.new ≡ behind_point (digits_of shown digits) ++ drop 40 text.old }
    ensures before { take result text.new ≡ take result text.old }
    ensures start { result + length (behind_point (digits_of shown digits)) ≡ 40 }
{
    // A one before the digits keeps the zeros in front of them. The point takes its place.
    let point = write_digits(power_of_ten(shown) as u64 + digits, text, 40);
    text[point] = b'.';
    point
}

/// The same where some decimals are shown, and else nothing.
#[inline(always)]
fn put_decimals(text: &mut [u8], shown: u8, digits: u64) -> usize
    requires few { shown ≤ 18 }
    requires small { digits < 10 ^ shown }
    requires many { 40 ≤ length text.old }
    ensures text { drop result text.new ≡ behind_point (digits_of shown digits) ++ drop 40 text.old }
    ensures before { take result text.new ≡ take result text.old }
    ensures start { result + length (behind_point (digits_of shown digits)) ≡ 40 }
{
    if shown == 2 {
        put_two_decimals(text, digits);
        return 37;
    }
    if shown == 0 {
        return 40;
    }
    put_some_decimals(text, shown, digits)
}

/// Puts a sign where it is wanted, a whole part and decimals so that they end at the byte 40, and tells
/// where they begin. Spaces stand before them.
#[inline(always)]
fn put_few_parts(text: &mut [u8], is_negative: bool, whole: u64, shown: u8, digits: u64) -> usize
    requires few { shown ≤ 18 }
    requires small { digits < 10 ^ shown }
    requires many { 40 ≤ length text.old }
    requires spaces { take 40 text.old ≡ replicate 40 space }
    ensures text { drop result text.new ≡ ((if is_negative then dash ∷ [] else [])
        ++ (decimal whole ++ behind_point (digits_of shown digits))) ++ drop 40 text.old }
    ensures spaces { take result text.new ≡ replicate result space }
    ensures start { result + length ((if is_negative then dash ∷ [] else [])
        ++ (decimal whole ++ behind_point (digits_of shown digits))) ≡ 40 }
{
    let point = put_decimals(text, shown, digits);
    let start = write_digits(whole, text, point);
    put_sign(text, start, is_negative)
}

/// So many bytes are added at once: a text of at most 40, and what stands behind it. Those that are too
/// many are taken off again, since copies of a known length are made in place.
const SOME: usize = 48;

/// How many of these stand behind the text.
const BEHIND: usize = 8;

/// A sign where it is wanted, a whole part and decimals, where they are few, at the right of a column
/// that is so wide, and so many spaces behind: one text of at most 40 bytes, with spaces around it.
#[inline(always)]
fn push_few_parts_right(
    out: &mut Vec<u8>,
    is_negative: bool,
    whole: u64,
    shown: u8,
    digits: u64,
    width: usize,
    behind: usize,
) -> Result<(), AllocError>
    requires few { shown ≤ 18 }
    requires small { digits < 10 ^ shown }
    ensures { OnOk result (out.new.items ≡ out.old.items
        ++ right_of width ((if is_negative then dash ∷ [] else [])
        ++ (decimal whole ++ behind_point (digits_of shown digits))) ++ replicate behind space) }
{
    let mut text = [b' '; 40 + SOME];
    let start = put_few_parts(&mut text, is_negative, whole, shown, digits);
    let before = width.saturating_sub(40 - start);
    // Mostly they are few, and stand in the text.
    push_spaces(out, before.saturating_sub(start))?;
    let from = start.saturating_sub(before);
    out.extend_from_slice(&text[from..from + SOME])?;
    let kept = behind.min(BEHIND);
    out.truncate(out.len() - (from + (BEHIND - kept)));
    push_spaces(out, behind - kept)?;
    Ok(())
}

/// The same without spaces.
#[inline(always)]
fn push_few_parts(
    out: &mut Vec<u8>,
    is_negative: bool,
    whole: u64,
    shown: u8,
    digits: u64,
) -> Result<(), AllocError>
    requires few { shown ≤ 18 }
    requires small { digits < 10 ^ shown }
    ensures { OnOk result (out.new.items ≡ out.old.items
        ++ (if is_negative then dash ∷ [] else [])
        ++ (decimal whole ++ behind_point (digits_of shown digits))) }
{
    push_few_parts_right(out, is_negative, whole, shown, digits, 0, 0)
}

/// The same, and a name of three letters behind a space.
#[inline(always)]
fn push_few_parts_named(
    out: &mut Vec<u8>,
    is_negative: bool,
    whole: u64,
    shown: u8,
    digits: u64,
    name: &[u8; 3],
) -> Result<(), AllocError>
    requires few { shown ≤ 18 }
    requires small { digits < 10 ^ shown }
    ensures { OnOk result (out.new.items ≡ out.old.items
        ++ ((if is_negative then dash ∷ [] else [])
        ++ (decimal whole ++ behind_point (digits_of shown digits))) ++ space ∷ name.now) }
{
    let mut text = [b' '; 40 + SOME];
    text[41] = name[0];
    text[42] = name[1];
    text[43] = name[2];
    let start = put_few_parts(&mut text, is_negative, whole, shown, digits);
    out.extend_from_slice(&text[start..start + SOME])?;
    out.truncate(out.len() - (start + (BEHIND - 4)));
    Ok(())
}

/// A sign where it is wanted, a whole part and the decimals that are shown, with zeros behind them up
/// to the least count: one after the other, whatever they are.
fn push_any_parts(
    out: &mut Vec<u8>,
    is_negative: bool,
    parts: Parts,
    least: u8,
) -> Result<(), AllocError>
    requires { parts.digits < 10 ^ parts.shown }
    ensures { OnOk result (out.new.items ≡ out.old.items
        ++ (if is_negative then dash ∷ [] else [])
        ++ parts_text parts.whole parts.shown parts.digits least) }
{
    push_if(out, b'-', is_negative)?;
    out.extend_from_slice(Buffer::new().format(parts.whole).as_bytes())?;
    push_if(out, b'.', parts.shown.max(least) > 0)?;
    push_digits(out, parts.shown, parts.digits)?;
    push_run(out, b'0', least.saturating_sub(parts.shown) as usize)?;
    Ok(())
}

/// The same, at once where they are few, as most are.
#[inline(never)]
fn push_parts(
    out: &mut Vec<u8>,
    is_negative: bool,
    parts: Parts,
    least: u8,
) -> Result<(), AllocError>
    requires { parts.digits < 10 ^ parts.shown }
    ensures { OnOk result (out.new.items ≡ out.old.items
        ++ (if is_negative then dash ∷ [] else [])
        ++ parts_text parts.whole parts.shown parts.digits least) }
{
    match u64::try_from(parts.whole) {
        Ok(whole) if parts.shown <= 18 && least <= parts.shown => {
            push_few_parts(out, is_negative, whole, parts.shown, parts.digits as u64)?;
            Ok(())
        }
        _ => push_any_parts(out, is_negative, parts, least),
    }
}

/// The number `count` · `10^-places` with the fewest decimals that are exact, but at least so many.
#[inline(always)]
pub fn push_number(out: &mut Vec<u8>, count: i128, places: u8, least: u8) -> Result<(), AllocError>
    ensures { OnOk result (out.new.items ≡ out.old.items ++ number_text count places least) }
{
    let number = count.unsigned_abs();
    match few_parts(number, places, least) {
        Some((whole, digits)) => push_few_parts(out, count < 0, whole, least, digits),
        None => push_parts(out, count < 0, any_parts(number, places, least), least),
    }
}

/// The same, and a name behind a space.
#[inline(never)]
fn push_any_named(
    out: &mut Vec<u8>,
    count: i128,
    places: u8,
    least: u8,
    name: &[u8],
) -> Result<(), AllocError>
    ensures { OnOk result (out.new.items ≡ out.old.items
        ++ number_text count places least ++ space ∷ name.now) }
{
    push_number(out, count, places, least)?;
    out.push(b' ')?;
    out.extend_from_slice(name)
}

/// The same, at once, where they are as most are.
#[inline(always)]
fn push_most_named(
    out: &mut Vec<u8>,
    count: i128,
    places: u8,
    least: u8,
    name: &[u8],
) -> Result<(), AllocError>
    ensures { OnOk result (out.new.items ≡ out.old.items
        ++ number_text count places least ++ space ∷ name.now) }
{
    match (
        few_parts(count.unsigned_abs(), places, least),
        name.as_array::<3>(),
    ) {
        (Some((whole, digits)), Some(name)) => push_few_parts_named(
            out,
            count < 0,
            whole,
            least,
            digits,
            name,
        ),
        _ => push_any_named(out, count, places, least, name),
    }
}

/// The same number, and a name behind a space: at once, where they are as most are. Most numbers have
/// two decimals: what is known of these is taken out of the steps.
#[inline(always)]
pub fn push_number_named(
    out: &mut Vec<u8>,
    count: i128,
    places: u8,
    least: u8,
    name: &[u8],
) -> Result<(), AllocError>
    ensures { OnOk result (out.new.items ≡ out.old.items
        ++ number_text count places least ++ space ∷ name.now) }
{
    if places == 8 && least == 2 {
        return push_most_named(out, count, 8, 2, name);
    }
    push_most_named(out, count, places, least, name)
}

/// The number at the right of a column that is so wide, and so many spaces behind it, whatever its parts
/// are.
#[inline(never)]
fn push_any_right(
    out: &mut Vec<u8>,
    count: i128,
    places: u8,
    least: u8,
    width: usize,
    behind: usize,
) -> Result<(), AllocError>
    ensures { OnOk result (out.new.items ≡ out.old.items
        ++ right_of width (number_text count places least) ++ replicate behind space) }
{
    push_spaces(out, width.saturating_sub(number_len(count, places, least)))?;
    push_number(out, count, places, least)?;
    push_spaces(out, behind)?;
    Ok(())
}

/// The same number at the right of a column that is so wide, and so many spaces behind it. Most are
/// written at once with the spaces around them, and needn't be measured.
#[inline(always)]
pub fn push_number_right(
    out: &mut Vec<u8>,
    count: i128,
    places: u8,
    least: u8,
    width: usize,
    behind: usize,
) -> Result<(), AllocError>
    ensures { OnOk result (out.new.items ≡ out.old.items
        ++ right_of width (number_text count places least) ++ replicate behind space) }
{
    match few_parts(count.unsigned_abs(), places, least) {
        Some((whole, digits)) => push_few_parts_right(
            out,
            count < 0,
            whole,
            least,
            digits,
            width,
            behind,
        ),
        None => push_any_right(out, count, places, least, width, behind),
    }
}

/// The text of a day, as `2014-01-31`.
#[tactic(auto, using(crate::proofs::PairFacts::first_of_last, crate::proofs::PairFacts::second_of_last, crate::proofs::PairFacts::first_of_four, crate::proofs::PairFacts::second_of_four))]
pub(crate) fn day_bytes(day: Day) -> [u8; 10]
    ensures { result ≡ day_text day }
{
    let year = day.year().unsigned_abs() as u64;
    let month = day.month() as u64;
    let day = day.day() as u64;
    let (thousands, hundreds) = pair(year / 100 % 100);
    let (tens, ones) = pair(year % 100);
    let (month_tens, month_ones) = pair(month % 100);
    let (day_tens, day_ones) = pair(day % 100);
    [
        thousands, hundreds, tens, ones, b'-', month_tens, month_ones, b'-', day_tens, day_ones,
    ]
}

/// Adds the text of a day.
pub fn push_day(out: &mut Vec<u8>, day: Day) -> Result<(), AllocError>
    ensures { OnOk result (out.new.items ≡ out.old.items ++ day_text day) }
{
    out.extend_from_slice(&day_bytes(day))
}
