//! A token of the kind that is expected at the front of a text. What else stands there isn't looked at.
ghost use Rattle.std.specs.Prelude.{◌≡◌, ◌<◌, IfSome, IsTrue, length, slice_index};
ghost use Rattle.std.specs.Char.{is_ascii_uppercase};
ghost use Rattle.bean_lexer.specs.declared.kind.Kind.TheVariants as kinds;
ghost use Rattle.bean_lexer.specs.declared.kind.Sign.TheVariants as signs;
ghost use Rattle.expected_tokens.specs.Found.{IsCounted};

use bean_lexer::{
    Counted, Found, Kind, Sign, account_at, account_or_currency, day_or_number, is_code,
    on_one_line,
};

/// What has the form of a day at the front.
#[inline(always)]
pub fn expected_day(bytes: &[u8]) -> Option<Counted>
    ensures found { IfSome result (IsCounted bytes.now) }
    ensures kind { IfSome result (λ found. found.kind ≡ kinds.Day) }
    ensures some { IfSome result (λ _. 0 < length bytes.now) }
{
    if bytes.is_empty() || !bytes[0].is_ascii_digit() {
        return None;
    }
    let found = day_or_number(bytes);
    match found.kind {
        Kind::Day => Some(on_one_line(bytes, found)),
        _ => None,
    }
}

/// The number at the front.
#[inline(always)]
pub fn expected_number(bytes: &[u8]) -> Option<Counted>
    ensures found { IfSome result (IsCounted bytes.now) }
    ensures kind { IfSome result (λ found. found.kind ≡ kinds.Number) }
{
    if bytes.is_empty() || !bytes[0].is_ascii_digit() {
        return None;
    }
    let found = day_or_number(bytes);
    match found.kind {
        Kind::Number => Some(on_one_line(bytes, found)),
        _ => None,
    }
}

/// The account at the front.
#[inline(always)]
pub fn expected_account(bytes: &[u8]) -> Option<Counted>
    ensures found { IfSome result (IsCounted bytes.now) }
    ensures kind { IfSome result (λ found. found.kind ≡ kinds.Account) }
{
    if bytes.is_empty() || !bytes[0].is_ascii_uppercase() {
        return None;
    }
    let found = account_at(bytes)?;
    Some(on_one_line(bytes, found))
}

/// The minus at the front.
#[inline(always)]
pub fn expected_minus(bytes: &[u8]) -> Option<Counted>
    ensures found { IfSome result (IsCounted bytes.now) }
    ensures kind { IfSome result (λ found. found.kind ≡ kinds.Sign signs.Minus) }
{
    if bytes.is_empty() || bytes[0] != b'-' {
        return None;
    }
    let found = Found {
        kind: Kind::Sign(Sign::Minus),
        len: 1,
    };
    Some(on_one_line(bytes, found))
}

/// The currency at the front. Most are told by their first four bytes.
#[inline(always)]
pub fn expected_currency(bytes: &[u8]) -> Option<Counted>
    ensures found { IfSome result (IsCounted bytes.now) }
    ensures kind { IfSome result (λ found. found.kind ≡ kinds.Currency) }
{
    if bytes.is_empty() || !bytes[0].is_ascii_uppercase() {
        return None;
    }
    if is_code(bytes) {
        let found = Found {
            kind: Kind::Currency,
            len: 3,
        };
        return Some(on_one_line(bytes, found));
    }
    other_currency(bytes)
}

/// The same of a currency that isn't told so.
#[inline(never)]
fn other_currency(bytes: &[u8]) -> Option<Counted>
    requires some { 0 < length bytes.now }
    requires capital { IsTrue (is_ascii_uppercase (slice_index bytes.now 0)) }
    ensures found { IfSome result (IsCounted bytes.now) }
    ensures kind { IfSome result (λ found. found.kind ≡ kinds.Currency) }
{
    let found = account_or_currency(bytes);
    match found.kind {
        Kind::Currency => Some(on_one_line(bytes, found)),
        _ => None,
    }
}
