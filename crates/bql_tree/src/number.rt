//! Numbers of a query.
ghost use Rattle.std.specs.Prelude.{◌≡◌, ◌^◌, ◌<◌, ◌≤◌, min, pos};
ghost use Rattle.limits.specs.declared.counts.TheConstants.{COUNT_BOUND, MOST_PLACES};
ghost use Rattle.bean_base.specs.Numeral.{count_of};
ghost use Rattle.bql_tree.specs.Number as rule;

use crate::tree::Leaf;
use bean_base::Slice;
use byte_runs::{ByteClass, end_of_run};
use limits::{COUNT_BOUND, MOST_PLACES};
use query_terms::Decimal;

/// The zeros in front of a number.
struct Zero;

impl ByteClass for Zero {
    ghost holds = { rule.is_zero };

    fn has(b: u8) -> bool {
        b == b'0'
    }
}

/// The number that the digits write, or `2^127` where it is as great.
#[tactic(auto, using(crate::proofs::NumberFacts::capped))]
fn capped_count(bytes: &[u8]) -> u128
    ensures { result ≡ min COUNT_BOUND (count_of bytes.now) }
{
    let mut count: u128 = 0;
    for b in bytes {
        if b.is_ascii_digit() {
            count = count
                .saturating_mul(10)
                .saturating_add((*b - b'0') as u128)
                .min(COUNT_BOUND);
        }
    }
    count
}

/// How many digits stand behind the point.
fn places(number: &str) -> usize
    ensures { result ≡ rule.places number.now }
{
    match number.split_once('.') {
        Some((_, decimals)) => decimals.len(),
        None => 0,
    }
}

fn signed(count: u128) -> i128
    requires { count < COUNT_BOUND }
    ensures { result ≡ pos count }
{
    count as i128
}

fn narrow(places: usize) -> u8
    requires { places ≤ MOST_PLACES }
    ensures { result ≡ places }
{
    places as u8
}

/// The decimal number of a count and places, if a machine holds it.
#[tactic(auto, using(crate::proofs::NumberFacts::not_wide))]
fn decimal(count: u128, places: usize) -> Option<Decimal>
    ensures { result ≡ rule.decimal places count }
{
    if places > MOST_PLACES as usize || count >= COUNT_BOUND {
        return None;
    }
    Decimal::new(signed(count), narrow(places))
}

/// What stands behind the zeros in front.
fn significant(number: &str) -> &str
    ensures { result.now ≡ rule.significant number.now }
{
    let (_, behind) = number.split_at(end_of_run::<Zero>(number.as_bytes(), 0));
    behind
}

/// The number that a token writes.
pub fn number<'a>(text: &'a str) -> Leaf<'a>
    ensures { result ≡ rule.number text.now }
{
    match decimal(capped_count(text.as_bytes()), places(text)) {
        Some(decimal) => Leaf::Number(decimal),
        None => Leaf::TooWide(Slice::new(significant(text))),
    }
}
