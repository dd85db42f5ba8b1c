//! Items that are given to the directives from one place of a text up to another.
ghost use Rattle.std.specs.Prelude.{◌≡◌, IfOk};

use std::alloc::{AllocError, Global};
use std::marker::Model;
use std::rc::Rc;

/// An item that is given.
#[derive(Drop)]
pub struct GivenItem<T> {
    pub item: T,
    /// The place of the first directive that it may be given to: how many stand before it.
    pub from: usize,
    /// The place behind the last.
    pub to: usize,
}

/// The items that are given in a text, which stand once for all that they are given to. Their value
/// is the list of them.
pub struct GivenItems<T> {
    place: Rc<Vec<GivenItem<T>>>,
}

/// Written out, so that what gives one up needs to know nothing of what is in it.
impl<T: Drop> Drop for GivenItems<T> {
    fn drop(self) {
        let GivenItems { place: _ } = self;
    }
}

impl<T> Model for GivenItems<T> {
    ghost use Rattle.std.specs.Prelude as prelude;
    ghost use Rattle.given_items.specs.declared.given.GivenItem as declared;

    ghost Value = { prelude.List (declared.GivenItem T) };

    ghost view = { λ g. g.place.value.items };
}

impl<T: Drop> GivenItems<T> {
    /// These items.
    pub fn new(alloc: Global, items: Vec<GivenItem<T>>) -> Result<GivenItems<T>, AllocError>
        ensures { IfOk result (λ given. given ≡ items.items) }
    {
        Ok(GivenItems {
            place: Rc::new(alloc, items)?,
        })
    }

    /// The items.
    pub fn as_slice(&self) -> &[GivenItem<T>]
        ensures { result.now ≡ self.now }
    {
        self.place.as_slice()
    }

    /// The same items, held once more. Takes no memory; it fails only where they are held as often
    /// as can be counted.
    pub fn share(&self) -> Result<GivenItems<T>, AllocError>
        ensures { IfOk result (λ given. given ≡ self.now) }
    {
        Ok(GivenItems {
            place: self.place.clone()?,
        })
    }
}
