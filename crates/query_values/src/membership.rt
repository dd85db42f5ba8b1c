//! Whether a value is in a set or a list, and whether a text or a member of a set has a pattern. Of
//! null all of them are false.
ghost use Rattle.std.specs.Prelude.{◌≡◌, IsTrue, map};
ghost use Rattle.std.specs.List.{list_all, list_any};
ghost use Rattle.std.specs.Ordering.{int_eq};
ghost use Rattle.bean_lots.specs.Lot.{same_text};
ghost use Rattle.query_values.specs.Operand.{are_alike};
ghost use Rattle.query_values.specs.Operation.{has_match, has_member, is_among, is_member};
ghost use Rattle.query_values.specs.Pattern.{is_found};
ghost use Rattle.query_values.specs.Choice.{day_choice, number_choice, same_day};
ghost use Rattle.query_values.specs.Choice.{text_choice};

use crate::pattern::Finder;
use crate::value::Value;
use bean_base::{Day, Slice};

/// Whether a text is in a set.
pub fn in_set(text: &Value<'_>, set: &Value<'_>) -> bool
    ensures { result ≡ is_member text.now set.now }
{
    match (text, set) {
        (Value::Text(text), Value::Set(set)) => has_text(set.get().as_slice(), text),
        _ => false,
    }
}

fn has_text(texts: &[Slice<'_>], text: &Slice<'_>) -> bool
    ensures { result ≡ list_any (same_text text.now) texts.now }
{
    texts.iter().any(|t| text == t)
}

fn has_count(counts: &[i128], count: i128) -> bool
    ensures { result ≡ list_any (int_eq count) counts.now }
{
    counts.iter().any(|n| count == *n)
}

fn has_day(days: &[Day], day: Day) -> bool
    ensures { result ≡ list_any (same_day day) days.now }
{
    days.iter().any(|d| day == *d)
}

/// Whether a text is one of these.
pub fn in_texts(x: &Value<'_>, texts: &[Slice<'_>]) -> bool
    ensures { result ≡ is_among (map text_choice texts.now) x.now }
{
    match x {
        Value::Text(text) => has_text(texts, text),
        _ => false,
    }
}

/// Whether a number is one of these, which have as many decimals.
pub fn in_numbers(x: &Value<'_>, places: u8, counts: &[i128]) -> bool
    requires { IsTrue (list_all (are_alike x.now) (map (number_choice places) counts.now)) }
    ensures { result ≡ is_among (map (number_choice places) counts.now) x.now }
{
    match x {
        Value::Number { count, .. } => has_count(counts, *count),
        _ => false,
    }
}

/// Whether a day is one of these.
pub fn in_days(x: &Value<'_>, days: &[Day]) -> bool
    ensures { result ≡ is_among (map day_choice days.now) x.now }
{
    match x {
        Value::Day(day) => has_day(days, *day),
        _ => false,
    }
}

/// Whether a text has the pattern.
pub fn matches(x: &Value<'_>, finder: &mut Finder<'_>) -> bool
    ensures found { result ≡ has_match (is_found finder.old) x.now }
    ensures same { finder.new ≡ finder.old }
{
    match x {
        Value::Text(text) => finder.finds(text.text()),
        _ => false,
    }
}

fn some_matches(texts: &[Slice<'_>], finder: &mut Finder<'_>) -> bool
    ensures found { result ≡ list_any (is_found finder.old) texts.now }
    ensures same { finder.new ≡ finder.old }
{
    for text in texts {
        if finder.finds(text.text()) {
            return true;
        }
    }
    false
}

/// Whether some member of a set has the pattern.
pub fn matches_any(x: &Value<'_>, finder: &mut Finder<'_>) -> bool
    ensures found { result ≡ has_member (is_found finder.old) x.now }
    ensures same { finder.new ≡ finder.old }
{
    match x {
        Value::Set(set) => some_matches(set.get().as_slice(), finder),
        _ => false,
    }
}
