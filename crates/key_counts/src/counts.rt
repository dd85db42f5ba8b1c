//! Counts, each under a key.
ghost use Rattle.std.specs.Prelude.{◌≡◌, ◌++◌, ◌∷◌, ◌<◌, ◌^◌, [], IfNone, IfOk, IfSome, IsTrue, None};
ghost use Rattle.std.specs.Prelude.{OnErr, OnOk, Some, filter, length, not, pos, position, remove};
ghost use Rattle.std.specs.Prelude.{slice_get, take, false, List, ◌↔◌};
ghost use Rattle.std.specs.List.{IsDistinct, list_any};
ghost use Rattle.std.specs.Map.{lookup, keys_of, values_of};
ghost use Rattle.std.specs.Ordering.{int_eq};
ghost use Rattle.indexmap.specs.IndexMap.{set_value_at};
ghost use Rattle.key_counts.specs.Kept.{ArePlaces, is_full};

use crate::places::Places;
use crate::run::Run;
use indexmap::Equivalent;
use std::alloc::{AllocError, Global};
use std::hash::Hash;
use std::marker::Model;

/// So few keys are compared one by one, and none is hashed.
const FEW: usize = 8;

/// What can be given once more.
pub trait Lend: Sized {
    /// The same once more.
    fn lend(&self) -> Self
        ensures { result ≡ self.now };
}

/// Counts of keys, none of which comes twice. They are seen as the list of keys and counts, in the
/// order in which the keys came.
pub struct KeyCounts<K: Eq + Hash> {
    slots: Vec<(K, i128)>,
    places: Option<Places<K>>,
}

/// Written out, so that what gives them up needs to know nothing of what is in them.
impl<K: Eq + Hash + Drop> Drop for KeyCounts<K> {
    fn drop(self) {
        let KeyCounts {
            slots: _,
            places: _,
        } = self;
    }
}

impl<K: Eq + Hash> Model for KeyCounts<K> {
    ghost use Rattle.std.specs.Prelude.{List, ℤ};
    ghost use Rattle.key_counts.specs.Kept.{IsKept};

    ghost Value = { List (K × ℤ) };

    ghost view = { λ c. c.slots.items };

    ghost invariant = { λ c. IsKept K.eq c.places c.slots.items };
}

/// Where the key stands that another stands for.
fn place_in<K: Eq + Hash, Q: Equivalent<K>>(slots: &[(K, i128)], key: Q) -> Option<usize>
    ensures { result ≡ position (Q.equivalent key) (keys_of slots.now) }
{
    for place in 0..slots.len() {
        let (own, _) = &slots[place];
        if key.equivalent(own) {
            return Some(place);
        }
    }
    None
}

/// The keys of some counts, hashed.
fn places_of<K: Eq + Hash + Lend + Drop>(
    alloc: Global,
    slots: &[(K, i128)],
) -> Result<Places<K>, AllocError>
    requires { IsDistinct K.eq (keys_of slots.now) }
    ensures { IfOk result (λ places. places ≡ keys_of slots.now) }
{
    let mut places = Places::new(alloc);
    places.reserve(slots.len().saturating_add(1))?;
    for place in 0..slots.len() {
        let (own, _) = &slots[place];
        places.push(own.lend())?;
    }
    Ok(places)
}

/// A key comes behind all others, where keys are hashed.
fn hash_key<K: Eq + Hash + Drop>(places: &mut Option<Places<K>>, key: K) -> Result<(), AllocError>
    requires { IfSome places.old (λ keys. list_any (K.eq key) keys ≡ false) }
    ensures ok { OnOk result ((ks : List K) → ArePlaces places.old ks
        → ArePlaces places.new (ks ++ key ∷ [])) }
    ensures err { OnErr result (places.new ≡ places.old) }
{
    match places {
        Some(places) => places.push(key),
        None => Ok(()),
    }
}

/// The keys behind the first so many go.
fn keep_before<K: Eq + Hash + Drop>(places: &mut Option<Places<K>>, len: usize)
    ensures { (ks : List K) → ArePlaces places.old ks → ArePlaces places.new (take len ks) }
{
    if let Some(places) = places {
        places.truncate(len);
    }
}

/// The key at a place goes.
fn forget<K: Eq + Hash + Drop>(places: &mut Option<Places<K>>, place: usize)
    ensures { (ks : List K) → ArePlaces places.old ks → ArePlaces places.new (remove ks place) }
{
    if let Some(places) = places {
        places.remove(place);
    }
}

/// The same slots once more.
fn copies<K: Lend + Drop>(alloc: Global, slots: &[(K, i128)]) -> Result<Vec<(K, i128)>, AllocError>
    ensures { IfOk result (λ copies. copies.items ≡ slots.now) }
{
    let mut copies = Vec::with_capacity(alloc, slots.len())?;
    for place in 0..slots.len() {
        let (own, count) = &slots[place];
        copies.push((own.lend(), *count))?;
    }
    Ok(copies)
}

impl<K: Eq + Hash + Lend + Drop> Clone for KeyCounts<K> {
    ghost is_clone = { λ a b. b ≡ a };

    fn clone(&self) -> Result<Self, AllocError> {
        let mut copy = self.listed()?;
        if self.places.is_some() {
            copy.hash_keys()?;
        }
        Ok(copy)
    }
}

impl<K: Eq + Hash> KeyCounts<K> {
    /// No keys. Takes no memory.
    pub fn new(alloc: Global) -> KeyCounts<K>
        ensures { result ≡ [] }
    {
        KeyCounts {
            slots: Vec::new(alloc),
            places: None,
        }
    }

    /// A copy that is only gone through. Its keys aren't hashed, however many they are, before another
    /// is pushed: until then one is looked for among all.
    pub fn listed(&self) -> Result<KeyCounts<K>, AllocError>
    where
        K: Lend + Drop,
        ensures { IfOk result (λ copy. copy ≡ self.now) }
    {
        // That the counts know how many keys they have tells that each stands once.
        let _count = self.len();
        let slots = copies(*self.slots.allocator(), self.slots.as_slice())?;
        Ok(KeyCounts {
            slots,
            places: None,
        })
    }

    /// Where memory is taken.
    pub fn alloc(&self) -> Global {
        *self.slots.allocator()
    }

    /// How many keys there are.
    pub fn len(&self) -> usize
        ensures len { result ≡ length self.now }
        ensures few { result < 2 ^ 63 }
        ensures unique { IsDistinct K.eq (keys_of self.now) }
    {
        let _places = &self.places;
        self.slots.len()
    }

    /// Whether there are none.
    pub fn is_empty(&self) -> bool
        ensures { IsTrue result ↔ (length self.now ≡ 0) }
    {
        self.slots.len() == 0
    }

    /// The keys and their counts, in their order.
    pub fn as_run(&self) -> Run<'_, K>
        ensures { result ≡ self.now }
    {
        Run::of(self.slots.as_slice())
    }

    /// The count at a place.
    pub fn count_at(&self, place: usize) -> i128
        requires { place < length self.now }
        ensures { slice_get (values_of self.now) place ≡ Some result }
    {
        let (_, count) = &self.slots[place];
        *count
    }

    /// Where the key stands that another stands for.
    pub fn place_of<Q: Equivalent<K>>(&self, key: Q) -> Option<usize>
        ensures place { result ≡ position (Q.equivalent key) (keys_of self.now) }
        ensures inside { IfSome result (λ place. place < length self.now) }
        ensures value { IfSome result (λ place. slice_get (values_of self.now) place
            ≡ lookup (Q.equivalent key) self.now) }
        ensures none { IfNone result (lookup (Q.equivalent key) self.now ≡ None) }
        ensures unique { IsDistinct K.eq (keys_of self.now) }
    {
        match &self.places {
            Some(places) => places.of(key),
            None => place_in(self.slots.as_slice(), key),
        }
    }

    /// Another count comes to a place.
    pub fn set(&mut self, place: usize, count: i128)
        requires { place < length self.old }
        ensures { self.new ≡ set_value_at self.old place count }
    {
        self.slots[place].1 = count;
    }

    /// A key that isn't there comes behind all others.
    pub fn push(&mut self, key: K, count: i128) -> Result<(), AllocError>
    where
        K: Lend + Drop,
        requires absent { lookup (K.eq key) self.old ≡ None }
        ensures ok { OnOk result (self.new ≡ self.old ++ (key, count) ∷ []) }
        ensures err { OnErr result (self.new ≡ self.old) }
    {
        if self.places.is_none() && self.slots.len() < FEW {
            self.slots.push((key, count))?;
            return Ok(());
        }
        self.hash_keys()?;
        self.push_hashed(key, count)
    }

    /// Hashes all keys, where that isn't done.
    fn hash_keys(&mut self) -> Result<(), AllocError>
    where
        K: Lend + Drop,
        ensures { self.new ≡ self.old }
    {
        if self.places.is_none() {
            let places = places_of(*self.slots.allocator(), self.slots.as_slice())?;
            self.places = Some(places);
        }
        Ok(())
    }

    /// The same where keys may be hashed.
    fn push_hashed(&mut self, key: K, count: i128) -> Result<(), AllocError>
    where
        K: Lend + Drop,
        requires absent { lookup (K.eq key) self.old ≡ None }
        ensures ok { OnOk result (self.new ≡ self.old ++ (key, count) ∷ []) }
        ensures err { OnErr result (self.new ≡ self.old) }
    {
        self.slots.reserve(1)?;
        hash_key(&mut self.places, key.lend())?;
        self.slots.push((key, count))?;
        Ok(())
    }

    /// Keeps the keys in front.
    pub fn truncate(&mut self, len: usize)
    where
        K: Drop,
        ensures { self.new ≡ take len self.old }
    {
        self.slots.truncate(len);
        keep_before(&mut self.places, len);
    }

    /// Takes the key at a place out.
    pub fn remove(&mut self, place: usize)
    where
        K: Drop,
        requires { place < length self.old }
        ensures entries { self.new ≡ remove self.old place }
        ensures unique { IsDistinct K.eq (keys_of self.old) }
    {
        self.slots.remove(place);
        forget(&mut self.places, place);
    }

    /// Takes out the keys of which the count is 0.
    pub fn keep_full(&mut self)
    where
        K: Drop,
        ensures { self.new ≡ filter is_full self.old }
    {
        self.places = None;
        self.slots.retain(
            |slot: &(K, i128)| -> bool
                ensures { result ≡ not (int_eq slot.now.1 (pos 0)) }
            { slot.1 != 0 },
        );
    }
}
