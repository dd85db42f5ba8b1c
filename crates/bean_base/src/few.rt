//! Lists that are seldom more than empty.
ghost use Rattle.std.specs.Prelude.{◌≡◌, [], ◌++◌, ◌∷◌, IfOk, OnOk};

use crate::apart::Apart;
use crate::list::List;
use std::alloc::{AllocError, Global};
use std::marker::Model;

/// A list that most often is empty, else in memory of its own. Its value is the list of its items.
pub struct Few<T> {
    items: Option<Apart<List<T>>>,
}

/// Written out, so that what gives one up needs to know nothing of what is in it.
impl<T: Drop> Drop for Few<T> {
    fn drop(self) {
        let Few { items: _ } = self;
    }
}

impl<T> Model for Few<T> {
    ghost use Rattle.std.specs.Prelude.{[], unwrap_or};
    ghost use Rattle.std.specs.Prelude as prelude;

    ghost Value = { prelude.List T };

    ghost view = { λ f. unwrap_or f.items [] };
}

impl<T: Drop> Few<T> {
    /// No items. Takes no memory.
    pub fn new() -> Few<T>
        ensures { result ≡ [] }
    {
        Few { items: None }
    }

    /// The items of a list.
    pub fn of(alloc: Global, items: List<T>) -> Result<Few<T>, AllocError>
        ensures { IfOk result (λ few. few ≡ items) }
    {
        if items.as_slice().is_empty() {
            return Ok(Few::new());
        }
        let items = Some(Apart::new(alloc, items)?);
        Ok(Few { items })
    }

    /// The items.
    pub fn as_slice(&self) -> &[T]
        ensures { result.now ≡ self.now }
    {
        match &self.items {
            Some(items) => items.get().as_slice(),
            None => &[],
        }
    }

    /// Adds an item at the end.
    pub fn push(&mut self, alloc: Global, item: T) -> Result<(), AllocError>
        ensures { OnOk result (self.new ≡ self.old ++ item ∷ []) }
    {
        if let Some(items) = &mut self.items {
            return items.push(item);
        }
        let mut items = List::new(Vec::with_capacity(alloc, 1)?);
        items.push(item)?;
        self.items = Some(Apart::new(alloc, items)?);
        Ok(())
    }

    /// Adds the items of a list at the end.
    pub fn append(&mut self, alloc: Global, others: List<T>) -> Result<(), AllocError>
        ensures { OnOk result (self.new ≡ self.old ++ others) }
    {
        let all = match self.items.take() {
            Some(items) => {
                let mut all = items.into_inner();
                all.append(others)?;
                all
            }
            None => others,
        };
        *self = Few::of(alloc, all)?;
        Ok(())
    }
}
