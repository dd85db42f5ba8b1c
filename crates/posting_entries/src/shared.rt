//! Values that several hold together.
ghost use Rattle.std.specs.Prelude.{◌≡◌, IfOk};

use std::alloc::{AllocError, Global};
use std::marker::Model;
use std::rc::Rc;

/// A value that stands once, for all that hold it. Contracts see the value itself.
pub struct Shared<T> {
    place: Rc<T>,
}

/// Written out, so that what gives one up needs to know nothing of what is in it.
impl<T: Drop> Drop for Shared<T> {
    fn drop(self) {
        let Shared { place: _ } = self;
    }
}

impl<T> Model for Shared<T> {
    ghost Value = { T };

    ghost view = { λ s. s.place.value };
}

impl<T: Drop> Shared<T> {
    /// The value, held once so far. It is put in place where it is called, so that a value is moved once.
    #[inline(always)]
    pub fn new(alloc: Global, value: T) -> Result<Shared<T>, AllocError>
        ensures { IfOk result (λ s. s ≡ value) }
    {
        Ok(Shared {
            place: Rc::new(alloc, value)?,
        })
    }

    /// The value.
    pub fn get(&self) -> &T
        ensures { result.now ≡ self.now }
    {
        &self.place
    }

    /// The same value, held once more. Takes no memory; it fails only where it is held as often as
    /// can be counted.
    pub fn share(&self) -> Result<Shared<T>, AllocError>
        ensures { IfOk result (λ s. s ≡ self.now) }
    {
        Ok(Shared {
            place: self.place.clone()?,
        })
    }
}
