//! Groups by their keys.
ghost use Rattle.std.specs.Prelude.{◌≡◌, ◌≢◌, ◌<◌, [], IfOk, None, OnOk, Some, length, slice_get, true};
ghost use Rattle.std.specs.Map.{lookup};
ghost use Rattle.indexmap.specs.IndexMap.{index_of_by, insert_entry};
ghost use Rattle.plain_machine.specs.Gathering.{put, running_values};
ghost use Rattle.query_rows.specs.Same.{same_values};
ghost use Rattle.query_values.specs.Equality.{same};

use crate::totals::Totals;
use byte_runs::Hints;
use indexmap::IndexMap;
use query_values::comparison::equal;
use query_values::{Aggregate, Value};
use std::alloc::{AllocError, Global};
use std::marker::Model;
use value_keys::{LentKey, ValueKey};

/// Keys, and what was gathered under them.
pub struct Groups<'r> {
    alloc: Global,
    entries: IndexMap<ValueKey<'r>, Totals<'r>>,
    /// Where groups were found last, by their first keys.
    hints: Hints,
}

/// Written out, so that crates which give one up need to know nothing of what is in it.
impl Drop for Groups<'_> {
    fn drop(self) {
        let Groups {
            alloc: _,
            entries: _,
            hints: _,
        } = self;
    }
}

impl<'r> Model for Groups<'r> {
    ghost use Rattle.std.specs.Prelude.{List};
    ghost use Rattle.plain_machine.specs.Gathering.{Group};
    ghost use Rattle.query_values.specs.declared.value.Value as of_queries;

    ghost Value = { List (Group (List of_queries.Value)) };

    ghost view = { λ g. g.entries.entries };
}

/// A group: its keys, and what it has gathered, a value for each aggregate.
#[derive(Clone, Copy)]
pub struct GroupView<'g, 'r> {
    pub keys: &'g [Value<'r>],
    pub totals: &'g [Value<'r>],
}

/// Values once more.
fn copies<'r>(alloc: Global, values: &[Value<'r>]) -> Result<Vec<Value<'r>>, AllocError>
    ensures { IfOk result (λ copies. copies.items ≡ values.now) }
{
    let mut copies = Vec::with_capacity(alloc, values.len())?;
    for value in values {
        copies.push(value.clone()?)?;
    }
    Ok(copies)
}

/// The first key, where it is a text.
#[inline(always)]
fn first_text<'r>(keys: &[Value<'r>]) -> Option<&'r str> {
    match keys.first() {
        Some(Value::Text(text)) => Some(text.text()),
        _ => None,
    }
}

/// Whether a key is the same as another. Most are texts, which are told here, without a call.
#[inline(always)]
fn is_same(key: &Value<'_>, other: &Value<'_>) -> bool
    ensures { result ≡ same key.now other.now }
{
    match (key, other) {
        (Value::Text(key), Value::Text(other)) => key == other,
        _ => equal(key, other),
    }
}

/// Whether keys are the same as others. Mostly there is one.
#[inline(always)]
fn are_same<'r>(keys: &[Value<'r>], others: &[Value<'r>]) -> bool
    ensures { result ≡ same_values keys.now others.now }
{
    if let [key] = keys {
        if let [other] = others {
            return is_same(key, other);
        }
    }
    LentKey::new(keys) == LentKey::new(others)
}

/// Whether the group of a number has these keys.
#[inline(always)]
fn stands_at<'r>(
    entries: &IndexMap<ValueKey<'r>, Totals<'r>>,
    number: usize,
    keys: &[Value<'r>],
) -> bool
    ensures { result ≡ true → index_of_by (same_values keys.now) entries.now ≡ Some number }
{
    if number >= entries.len() {
        return false;
    }
    let (key, _) = entries.get_index(number).unwrap();
    are_same(keys, key.as_slice())
}

/// The number of the group of these keys, which are hashed. Where the first is a text, it is noted.
#[inline(never)]
fn number_by_hash<'r>(
    entries: &IndexMap<ValueKey<'r>, Totals<'r>>,
    keys: &[Value<'r>],
    hints: &mut Hints,
) -> Option<usize>
    ensures { result ≡ index_of_by (same_values keys.now) entries.now }
{
    let found = entries.get_index_of(&LentKey::new(keys));
    if let Some(number) = found {
        if let Some(text) = first_text(keys) {
            hints.note(text, number);
        }
    }
    found
}

/// The number of the group of these keys. Where the first is a text, the group under such a text that
/// was found last is compared before the keys are hashed.
#[inline(always)]
fn number_of<'r>(
    entries: &IndexMap<ValueKey<'r>, Totals<'r>>,
    keys: &[Value<'r>],
    hints: &mut Hints,
) -> Option<usize>
    ensures { result ≡ index_of_by (same_values keys.now) entries.now }
{
    if let Some(text) = first_text(keys) {
        let near = hints.place_for(text);
        if stands_at(entries, near, keys) {
            return Some(near);
        }
    }
    number_by_hash(entries, keys, hints)
}

/// Writes what was gathered under keys: behind all others, where these keys are new.
fn put_behind<'r>(
    entries: &mut IndexMap<ValueKey<'r>, Totals<'r>>,
    key: ValueKey<'r>,
    totals: Totals<'r>,
) -> Result<(), AllocError>
    ensures { OnOk result (entries.new.entries
        ≡ insert_entry same_values entries.old.entries key.entry totals.entry) }
{
    entries.insert(key, totals)?;
    Ok(())
}

impl<'r> Groups<'r> {
    /// No group. Takes no memory.
    pub fn new(alloc: Global) -> Groups<'r>
        ensures { result ≡ [] }
    {
        Groups {
            alloc,
            entries: IndexMap::new(alloc),
            hints: Hints::new(alloc),
        }
    }

    /// How many groups there are.
    pub fn len(&self) -> usize
        ensures { result ≡ length self.now }
    {
        self.entries.len()
    }

    /// Inputs go to the group of their keys; where there is none, a new one stands behind the
    /// others, which alone takes keys of its own.
    pub fn put(
        &mut self,
        aggregates: &[Aggregate],
        keys: &[Value<'r>],
        inputs: &[Value<'r>],
    ) -> Result<(), AllocError>
        requires { put (running_values aggregates.now) self.old keys.now inputs.now ≢ None }
        ensures { OnOk result
            (put (running_values aggregates.now) self.old keys.now inputs.now ≡ Some self.new) }
    {
        let Some(number) = number_of(&self.entries, keys, &mut self.hints) else {
            return self.put_new(aggregates, keys, inputs);
        };
        self.entries[number].gather(aggregates, inputs)
    }

    /// Inputs go to a new group behind the others, as that of their keys isn't there.
    #[inline(never)]
    fn put_new(
        &mut self,
        aggregates: &[Aggregate],
        keys: &[Value<'r>],
        inputs: &[Value<'r>],
    ) -> Result<(), AllocError>
        requires absent { lookup (same_values keys.now) self.old ≡ None }
        requires fine { put (running_values aggregates.now) self.old keys.now inputs.now ≢ None }
        ensures { OnOk result
            (put (running_values aggregates.now) self.old keys.now inputs.now ≡ Some self.new) }
    {
        let mut totals = Totals::start(self.alloc, aggregates)?;
        totals.gather(aggregates, inputs)?;
        let key = ValueKey::new(copies(self.alloc, keys)?);
        put_behind(&mut self.entries, key, totals)
    }

    /// A group, by its number in order of first appearance.
    pub fn get(&self, number: usize) -> GroupView<'_, 'r>
        requires { number < length self.now }
        ensures { Some (result.keys.now, result.totals.now) ≡ slice_get self.now number }
    {
        let (key, totals) = self.entries.get_index(number).unwrap();
        GroupView {
            keys: key.as_slice(),
            totals: totals.as_slice(),
        }
    }
}
