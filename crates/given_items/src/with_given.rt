//! What a directive has: its own items, and those that it is given.
ghost use Rattle.std.specs.Prelude.{◌≡◌, ◌++◌, ◌∷◌, [], None, IfOk, OnOk};
ghost use Rattle.given_items.specs.Given.{given_at};
ghost use Rattle.given_items.specs.Held.{given_in, held_in};

use crate::given::GivenItems;
use crate::items::Items;
use crate::lend::Lend;
use bean_base::List;
use std::alloc::{AllocError, Global};
use std::marker::Model;

/// The items of a text that are given at a place of it.
#[derive(Drop)]
struct Given<T> {
    items: GivenItems<T>,
    place: usize,
}

/// What a directive has that has some.
struct Held<T> {
    own: List<T>,
    given: Option<Given<T>>,
}

/// Few directives have any: what gives up one stays out of what is done for each.
impl<T: Drop> Drop for Held<T> {
    #[inline(never)]
    fn drop(self) {
        let Held { own: _, given: _ } = self;
    }
}

/// The items of a directive: its own in the order in which they were added, then those that it is
/// given. No items take no memory. Its value is the list of them.
pub struct WithGiven<T> {
    held: Option<Box<Held<T>>>,
}

/// Written out, so that what gives one up needs to know nothing of what is in it.
impl<T: Drop> Drop for WithGiven<T> {
    fn drop(self) {
        let WithGiven { held: _ } = self;
    }
}

impl<T> Model for WithGiven<T> {
    ghost use Rattle.std.specs.Prelude as prelude;
    ghost use Rattle.given_items.specs.Held.{all_in};

    ghost Value = { prelude.List T };

    ghost view = { λ w. all_in w.held };
}

/// Adds what is given at a place to other items.
fn add_given<T: Lend>(own: &mut List<T>, given: &Given<T>) -> Result<(), AllocError>
    ensures { OnOk result (own.new ≡ own.old ++ given_at given.now.place given.now.items) }
{
    let mut rest = given.behind(&[]);
    while let Some(item) = rest.next_item() {
        own.push(item.again())?;
    }
    Ok(())
}

impl<T: Drop> Given<T> {
    /// What is given at the place, behind some items.
    fn behind<'m>(&'m self, own: &'m [T]) -> Items<'m, T>
        ensures { result ≡ own.now ++ given_at self.now.place self.now.items }
    {
        Items {
            own,
            given: self.items.as_slice(),
            place: self.place,
        }
    }
}

impl<T: Drop> Held<T> {
    /// The items, one after the other.
    fn items(&self) -> Items<'_, T>
        ensures { result ≡ held_in self.now }
    {
        match &self.given {
            Some(given) => given.behind(self.own.as_slice()),
            None => Items::of(self.own.as_slice()),
        }
    }
}

impl<T: Lend> Held<T> {
    /// Makes what is given its own. Few directives are given more than once.
    #[inline(never)]
    fn settle(&mut self) -> Result<(), AllocError>
        ensures own { OnOk result (self.new.own ≡ held_in self.old) }
        ensures given { OnOk result (self.new.given ≡ None) }
    {
        if let Some(given) = self.given.take() {
            add_given(&mut self.own, &given)?;
        }
        Ok(())
    }

    /// Adds an item behind all others.
    fn push(&mut self, item: T) -> Result<(), AllocError>
        ensures { OnOk result (held_in self.new ≡ held_in self.old ++ item ∷ []) }
    {
        self.settle()?;
        self.own.push(item)
    }

    /// Adds the items of a list behind all others.
    fn append(&mut self, others: List<T>) -> Result<(), AllocError>
        ensures { OnOk result (held_in self.new ≡ held_in self.old ++ others) }
    {
        self.settle()?;
        self.own.append(others)
    }

    /// Puts what is given at a place behind all others.
    fn give(&mut self, given: Given<T>) -> Result<(), AllocError>
        ensures { OnOk result (held_in self.new
            ≡ held_in self.old ++ given_at given.place given.items) }
    {
        self.settle()?;
        self.given = Some(given);
        Ok(())
    }
}

impl<T: Drop> WithGiven<T> {
    /// No items. Takes no memory.
    pub fn new() -> WithGiven<T>
        ensures { result ≡ [] }
    {
        WithGiven { held: None }
    }

    /// The items of a list.
    pub fn of(alloc: Global, own: List<T>) -> Result<WithGiven<T>, AllocError>
        ensures { IfOk result (λ w. w ≡ own) }
    {
        if own.as_slice().is_empty() {
            return Ok(WithGiven::new());
        }
        let held = Some(Box::new(alloc, Held { own, given: None })?);
        Ok(WithGiven { held })
    }

    /// The items, one after the other.
    pub fn items(&self) -> Items<'_, T>
        ensures { result ≡ self.now }
    {
        if let Some(held) = &self.held {
            return held.items();
        }
        Items::none()
    }
}

impl<T: Lend> WithGiven<T> {
    /// Adds an item behind all others.
    pub fn push(&mut self, alloc: Global, item: T) -> Result<(), AllocError>
        ensures { OnOk result (self.new ≡ self.old ++ item ∷ []) }
    {
        if let Some(held) = &mut self.held {
            return held.push(item);
        }
        let mut own = List::new(Vec::with_capacity(alloc, 1)?);
        own.push(item)?;
        *self = WithGiven::of(alloc, own)?;
        Ok(())
    }

    /// Adds the items of a list behind all others.
    pub fn append(&mut self, alloc: Global, others: List<T>) -> Result<(), AllocError>
        ensures { OnOk result (self.new ≡ self.old ++ others) }
    {
        if let Some(held) = &mut self.held {
            return held.append(others);
        }
        *self = WithGiven::of(alloc, others)?;
        Ok(())
    }

    /// Puts those of a text's items behind all others that are given at a place of it.
    pub fn give(
        &mut self,
        alloc: Global,
        items: &GivenItems<T>,
        place: usize,
    ) -> Result<(), AllocError>
        ensures { OnOk result (self.new ≡ self.old ++ given_at place items.now) }
    {
        if items.as_slice().is_empty() {
            return Ok(());
        }
        let items = items.share()?;
        let given = Given { items, place };
        if let Some(held) = &mut self.held {
            return held.give(given);
        }
        let own = List::new(Vec::new(alloc));
        let given = Some(given);
        self.held = Some(Box::new(alloc, Held { own, given })?);
        Ok(())
    }
}
