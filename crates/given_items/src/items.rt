//! What a directive has, one item after the other.
ghost use Rattle.std.specs.Prelude.{◌≡◌, ◌≤◌, ◌==◌, ◌∷◌, [], IfNone, IfSome, drop, length};
ghost use Rattle.given_items.specs.Given as spec;

use crate::given::GivenItem;
use std::marker::Model;

/// The items of a directive that are still to come. Its value is the list of them.
#[derive(Drop)]
pub struct Items<'m, T> {
    pub(crate) own: &'m [T],
    pub(crate) given: &'m [GivenItem<T>],
    pub(crate) place: usize,
}

impl<'m, T> Model for Items<'m, T> {
    ghost use Rattle.std.specs.Prelude as prelude;
    ghost use Rattle.std.specs.Prelude.{◌++◌};
    ghost use Rattle.given_items.specs.Given.{given_at};

    ghost Value = { prelude.List T };

    ghost view = { λ i. i.own.now ++ given_at i.place i.given.now };
}

/// Whether an item is given at a place.
fn is_given_at<T: Drop>(given: &GivenItem<T>, place: usize) -> bool
    ensures { result ≡ spec.is_given_at place given.now }
{
    given.from <= place && place < given.to
}

/// The first of some items that is given at a place, and the place behind it among them.
fn first_given<'m, T: Drop>(given: &'m [GivenItem<T>], place: usize) -> Option<(&'m T, usize)>
    ensures some { IfSome result (λ p. spec.given_at place given.now
        ≡ p.0.now ∷ spec.given_at place (drop p.1 given.now)) }
    ensures inside { IfSome result (λ p. p.1 ≤ length given.now) }
    ensures none { IfNone result (spec.given_at place given.now ≡ []) }
{
    for i in 0..given.len() {
        let first = &given[i];
        if is_given_at(first, place) {
            return Some((&first.item, i + 1));
        }
    }
    None
}

impl<'m, T: Drop> Items<'m, T> {
    /// None.
    pub fn none() -> Items<'m, T>
        ensures { result ≡ [] }
    {
        Items {
            own: &[],
            given: &[],
            place: 0,
        }
    }

    /// These items alone.
    pub fn of(own: &'m [T]) -> Items<'m, T>
        ensures { result ≡ own.now }
    {
        Items {
            own,
            given: &[],
            place: 0,
        }
    }

    /// How many there are at least.
    pub fn at_least(&self) -> usize
        ensures { result ≤ length self.now }
    {
        self.own.len()
    }

    /// The next item, if there is one.
    pub fn next_item(&mut self) -> Option<&'m T>
        ensures some { IfSome result (λ item. self.old ≡ item.now ∷ self.new) }
        ensures none { IfNone result (self.old ≡ []) }
    {
        if let [first, others @ ..] = self.own {
            self.own = others;
            return Some(first);
        }
        let (item, behind) = first_given(self.given, self.place)?;
        self.given = &self.given[behind..];
        Some(item)
    }

    /// Whether there is none.
    pub fn is_empty(&self) -> bool
        ensures { result ≡ (length self.now == 0) }
    {
        let mut rest = Items {
            own: self.own,
            given: self.given,
            place: self.place,
        };
        rest.next_item().is_none()
    }
}
