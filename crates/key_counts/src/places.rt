//! The places of keys, where these are many.
ghost use Rattle.std.specs.Prelude.{◌≡◌, ◌++◌, ◌∷◌, [], OnErr, OnOk, false, position, remove, take};
ghost use Rattle.std.specs.List.{list_any};

use indexmap::{Equivalent, IndexSet};
use std::alloc::{AllocError, Global};
use std::hash::Hash;
use std::marker::Model;

/// Keys that are hashed, in their order.
pub struct Places<K: Eq + Hash> {
    keys: IndexSet<K>,
}

/// Written out, so that what gives them up needs to know nothing of what is in them.
impl<K: Eq + Hash + Drop> Drop for Places<K> {
    fn drop(self) {
        let Places { keys: _ } = self;
    }
}

impl<K: Eq + Hash> Model for Places<K> {
    ghost use Rattle.std.specs.Prelude.{List};

    ghost Value = { List K };

    ghost view = { λ p. p.keys.keys };
}

impl<K: Eq + Hash> Places<K> {
    /// No keys. Takes no memory.
    pub(crate) fn new(alloc: Global) -> Places<K>
        ensures { result ≡ [] }
    {
        Places {
            keys: IndexSet::new(alloc),
        }
    }

    /// Where the key stands that another stands for.
    pub(crate) fn of<Q: Equivalent<K>>(&self, key: Q) -> Option<usize>
        ensures { result ≡ position (Q.equivalent key) self.now }
    {
        self.keys.get_index_of(key)
    }

    /// Takes room for so many keys more.
    pub(crate) fn reserve(&mut self, more: usize) -> Result<(), AllocError>
        ensures { self.new ≡ self.old }
    {
        self.keys.reserve(more)
    }

    /// A key comes behind all others.
    pub(crate) fn push(&mut self, key: K) -> Result<(), AllocError>
    where
        K: Drop,
        requires { list_any (K.eq key) self.old ≡ false }
        ensures ok { OnOk result (self.new ≡ self.old ++ key ∷ []) }
        ensures err { OnErr result (self.new ≡ self.old) }
    {
        self.keys.insert(key)?;
        Ok(())
    }

    /// Keeps the keys in front.
    pub(crate) fn truncate(&mut self, len: usize)
    where
        K: Drop,
        ensures { self.new ≡ take len self.old }
    {
        self.keys.truncate(len);
    }

    /// Takes the key at a place out.
    pub(crate) fn remove(&mut self, place: usize)
    where
        K: Drop,
        ensures { self.new ≡ remove self.old place }
    {
        self.keys.shift_remove_index(place);
    }
}
