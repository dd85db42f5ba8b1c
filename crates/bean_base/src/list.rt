//! Vectors that contracts see as lists.
ghost use Rattle.std.specs.Prelude.{◌≡◌, [], ◌++◌, ◌∷◌, OnOk, OnErr};

use std::alloc::{AllocError, Global};
use std::marker::Model;

/// A vector whose value is the list of its items.
pub struct List<T> {
    items: Vec<T>,
}

/// Written out, so that what gives one up needs to know nothing of what is in it.
impl<T: Drop> Drop for List<T> {
    fn drop(self) {
        let List { items: _ } = self;
    }
}

impl<T> Model for List<T> {
    ghost use Rattle.std.specs.Prelude as prelude;

    ghost Value = { prelude.List T };

    ghost view = { λ l. l.items.items };
}

impl<T: Drop> List<T> {
    /// The list of a vector's items.
    pub fn new(items: Vec<T>) -> List<T>
        ensures { result ≡ items.items }
    {
        List { items }
    }

    /// The items.
    pub fn as_slice(&self) -> &[T]
        ensures { result.now ≡ self.now }
    {
        self.items.as_slice()
    }

    /// Adds an item at the end.
    pub fn push(&mut self, item: T) -> Result<(), AllocError>
        ensures { OnOk result (self.new ≡ self.old ++ item ∷ []) }
    {
        self.items.push(item)?;
        Ok(())
    }

    /// Adds the items of another list at the end.
    pub fn append(&mut self, others: List<T>) -> Result<(), AllocError>
        ensures { OnOk result (self.new ≡ self.old ++ others) }
    {
        let List { items: mut others } = others;
        self.items.append(&mut others)?;
        Ok(())
    }

    /// The vector of its items.
    pub fn into_vec(self) -> Vec<T>
        ensures { result.items ≡ self }
    {
        let List { items } = self;
        items
    }
}
