//! Things that are lent from where they are kept.
ghost use Rattle.std.specs.Prelude.{◌≡◌};

use std::marker::Model;

/// A reference whose value is the thing that it leads to, wherever that lies; a bare reference's
/// value has its address too.
#[derive(Drop)]
pub struct Lent<'r, T> {
    thing: &'r T,
}

impl<'r, T> Model for Lent<'r, T> {
    ghost Value = { T };

    ghost view = { λ l. l.thing.now };
}

impl<'r, T> Lent<'r, T> {
    /// Lends a thing.
    pub fn new(thing: &'r T) -> Lent<'r, T>
        ensures { result ≡ thing.now }
    {
        Lent { thing }
    }

    /// The reference itself.
    pub fn get(&self) -> &'r T
        ensures { result.now ≡ self.now }
    {
        self.thing
    }

    /// The same thing once more.
    pub fn lend(&self) -> Lent<'r, T>
        ensures { result ≡ self.now }
    {
        Lent { thing: self.thing }
    }
}
