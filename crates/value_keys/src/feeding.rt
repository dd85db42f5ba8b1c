//! What a value feeds a hasher.
ghost use Rattle.std.specs.Prelude.{◌≡◌, ◌%◌, ◌^◌, [], fold};
ghost use Rattle.std.specs.Hash as fed;
ghost use Rattle.std.specs.List.{flat_map};
ghost use Rattle.std.specs.Option.{option_copied};
ghost use Rattle.value_hashes.specs.Fed as spec;

use bean_base::Slice;
use bean_lots::{Key, Lot};
use query_values::{BagKey, OwnBag, TextSet, Value};
use std::hash::{FoldHasher, Hash, Hasher};

/// A magnitude in the fewest decimals that are exact.
fn fewest(mut places: u8, mut magnitude: u128) -> u128
    ensures { result ≡ spec.fewest places magnitude }
{
    while places > 0 && magnitude % 10 == 0 {
        magnitude /= 10;
        places -= 1;
    }
    magnitude
}

fn feed_number<H: Hasher>(places: u8, count: i128, state: &mut H)
    ensures { state.new ≡ fold H.write state.old (spec.number_fed places count) }
{
    fewest(places, count.unsigned_abs()).hash(state);
}

fn feed_lot<H: Hasher>(lot: Option<&Lot<'_>>, state: &mut H)
    ensures { state.new ≡ fold H.write state.old (spec.lot_fed (option_copied lot.entry)) }
{
    if let Some(lot) = lot {
        lot.cost.count.hash(state);
        lot.day.number().hash(state);
        if let Some(label) = &lot.label {
            label.hash(state);
        }
    }
}

fn feed_set<H: Hasher>(set: &TextSet<'_>, state: &mut H)
    ensures { state.new ≡ fold H.write state.old (flat_map fed.str set.now) }
{
    Slice::hash_slice(set.as_slice(), state);
}

fn feed_key<H: Hasher>(key: &Key<'_>, state: &mut H)
    ensures { state.new ≡ fold H.write state.old (spec.key_fed key.now) }
{
    key.currency.hash(state);
    feed_lot(key.lot.as_ref(), state);
}

fn feed_bag_key<H: Hasher>(key: &BagKey<'_>, state: &mut H)
    ensures { state.new ≡ fold H.write state.old (spec.key_fed key.now) }
{
    key.currency().hash(state);
    feed_lot(key.lot(), state);
}

/// What a key with a count is hashed to by itself; where nothing is held, 0.
fn mark_of(places: u8, key: &BagKey<'_>, count: i128) -> u64
    ensures { result ≡ spec.mark_of places key.now count }
{
    let magnitude = fewest(places, count.unsigned_abs());
    if magnitude == 0 {
        return 0;
    }
    let mut own = FoldHasher::default();
    magnitude.hash(&mut own);
    feed_bag_key(key, &mut own);
    own.finish()
}

/// The sum of the marks of all entries, whatever their order.
fn marks_of(bag: &OwnBag<'_>) -> u64
    ensures { result ≡ spec.marks_beside bag.now.places [] bag.now.held % 2 ^ 64 }
{
    let mut marks: u64 = 0;
    let places = bag.places();
    let mut rest = bag.positions();
    while let Some((key, count)) = rest.next_held() {
        marks = marks.wrapping_add(mark_of(places, key, count));
    }
    marks
}

/// Feeds a value, as all that are the same feed it.
pub fn feed<H: Hasher>(value: &Value<'_>, state: &mut H)
    ensures { state.new ≡ fold H.write state.old (spec.value_fed value.now) }
{
    match value {
        Value::Null => 0u8.hash(state),
        Value::Truth(truth) => truth.hash(state),
        Value::Number { places, count } => feed_number(*places, *count, state),
        Value::Text(text) => text.hash(state),
        Value::Day(day) => day.number().hash(state),
        Value::Set(set) => feed_set(set.get(), state),
        Value::Amount {
            places,
            count,
            currency,
        } => {
            feed_number(*places, *count, state);
            currency.get().hash(state);
        }
        Value::Position { key, count } => {
            count.hash(state);
            feed_key(key.get(), state);
        }
        Value::Inventory(bag) => marks_of(bag).hash(state),
    }
}

/// Feeds values one after the other.
#[tactic(auto, using(crate::proofs::FeedFacts::fed_on))]
pub fn feed_all<H: Hasher>(mut values: &[Value<'_>], state: &mut H)
    ensures { state.new ≡ fold H.write state.old (spec.values_fed values.entry.now) }
{
    while let [value, others @ ..] = values {
        feed(value, state);
        values = others;
    }
}
