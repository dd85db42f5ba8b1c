//! Values that lie apart from what holds them.
ghost use Rattle.std.specs.Prelude.{◌≡◌, ◌++◌, ◌∷◌, [], IfOk, OnOk};

use crate::list::List;
use std::alloc::{AllocError, Global};
use std::marker::Model;

/// A value in memory of its own, for structs that seldom have one. Contracts see the value itself.
pub struct Apart<T> {
    place: Box<T>,
}

/// Written out, so that what gives one up needs to know nothing of what is in it.
impl<T: Drop> Drop for Apart<T> {
    fn drop(self) {
        let Apart { place: _ } = self;
    }
}

impl<T> Model for Apart<T> {
    ghost Value = { T };

    ghost view = { λ a. a.place.value };
}

impl<T: Drop> Apart<T> {
    /// The value in memory of its own.
    pub fn new(alloc: Global, value: T) -> Result<Apart<T>, AllocError>
        ensures { IfOk result (λ a. a ≡ value) }
    {
        Ok(Apart {
            place: Box::new(alloc, value)?,
        })
    }

    /// The value, out of its memory.
    pub fn into_inner(self) -> T
        ensures { result ≡ self }
    {
        let Apart { place } = self;
        Box::into_inner(place)
    }

    /// The value.
    pub fn get(&self) -> &T
        ensures { result.now ≡ self.now }
    {
        &self.place
    }
}

impl<T: Drop> Apart<List<T>> {
    /// Adds an item at the end of the list, where it lies.
    pub(crate) fn push(&mut self, item: T) -> Result<(), AllocError>
        ensures { OnOk result (self.new ≡ self.old ++ item ∷ []) }
    {
        self.place.push(item)
    }
}
