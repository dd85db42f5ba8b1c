//! Accounts by number. Each stands below another, or below none, so a name is gone through once,
//! however many accounts stand above it.
ghost use Rattle.std.specs.Prelude.{◌≡◌, ◌<◌, ◌≤◌, [], ◌∷◌, IfOk, IfSome, OnOk, List, ℕ, Some, length};
ghost use Rattle.std.specs.Option.{option_and_then};
ghost use Rattle.bean_pad.specs.Tree.{AreAbove, Grows, number_below, number_by, number_of};

use bean_base::Slice;
use byte_runs::Hints;
use indexmap::{IndexMap, IndexSet};
use std::alloc::{AllocError, Global};
use std::marker::Model;

/// A component of a name, below the account of that number.
#[derive(Drop, PartialEq, Eq, Hash)]
pub(crate) struct Below<'a> {
    /// The number of the account above it; 0 where there is none.
    pub above: usize,
    pub component: Slice<'a>,
}

/// Accounts, and those above them, each with a number from 1 on.
///
/// Its value is the components of the accounts, in the order of their numbers. An account stands
/// behind the one above it.
#[derive(Drop)]
pub(crate) struct Tree<'a> {
    nodes: IndexSet<Below<'a>>,
    /// The numbers of accounts whose whole names were met.
    known: IndexMap<Slice<'a>, usize>,
    /// The places of those that were found last.
    hints: Hints,
}

impl<'a> Model for Tree<'a> {
    ghost use Rattle.std.specs.Prelude.{List};
    ghost use Rattle.bean_pad.specs.Tree.{IsKept};
    ghost use Rattle.bean_pad.specs.declared.tree.Below.{Below};

    ghost Value = { List Below };

    ghost view = { λ t. t.nodes.keys };

    ghost invariant = { λ t. IsKept t.nodes.keys t.known };
}

impl<'a> Tree<'a> {
    /// No accounts. Takes no memory.
    pub fn new(alloc: Global) -> Tree<'a>
        ensures { result ≡ [] }
    {
        Tree {
            nodes: IndexSet::new(alloc),
            known: IndexMap::new(alloc),
            hints: Hints::new(alloc),
        }
    }

    /// The number of the account of a component below that of a number, if it has one.
    fn below(&self, above: usize, component: &str) -> Option<usize>
        ensures { result ≡ number_below self.now above component.now }
    {
        let component = Slice::new(component);
        match self.nodes.get_index_of(&Below { above, component }) {
            Some(index) => {
                prove!(self.nodes.len() > index);
                Some(index + 1)
            }
            None => None,
        }
    }

    /// The same, where there is an account above.
    fn next(&self, above: Option<usize>, component: &str) -> Option<usize>
        ensures { result ≡ option_and_then (λ n. number_below self.now n component.now) above }
    {
        match above {
            Some(above) => self.below(above, component),
            None => None,
        }
    }

    /// The number of an account, if it has one, found component by component.
    fn go_down(&self, name: &str) -> Option<usize>
        ensures { result ≡ number_of self.now name.now }
    {
        let mut number = Some(0);
        for component in name.split(':') {
            number = self.next(number, component);
        }
        number
    }

    /// The number of an account, if it has one. A name that was met whole is looked up whole.
    pub fn find(&self, name: &str) -> Option<usize>
        ensures { result ≡ number_of self.now name.now }
    {
        match self.known.get(&Slice::new(name)) {
            Some(number) => Some(*number),
            None => self.go_down(name),
        }
    }

    /// The number of the account of a component below another account, which is given one where it
    /// has none.
    fn add_below(&mut self, above: usize, component: &'a str) -> Result<usize, AllocError>
        requires { above ≤ length self.old }
        ensures grows { Grows self.old self.new }
        ensures number { IfOk result
            (λ n. number_below self.new above component.now ≡ Some n) }
    {
        let component = Slice::new(component);
        let (index, _) = self.nodes.insert_full(Below { above, component })?;
        prove!(self.nodes.len() > index);
        Ok(index + 1)
    }

    /// The number of an account; it and those above it are given one where they have none.
    fn add(&mut self, name: &'a str) -> Result<usize, AllocError>
        ensures grows { Grows self.old self.new }
        ensures number { IfOk result (λ n. number_of self.new name.now ≡ Some n) }
    {
        let mut number = 0;
        for component in name.split(':') {
            number = self.add_below(number, component)?;
        }
        Ok(number)
    }

    /// The number of an account whose name was met at that place, if it is this one.
    #[inline(always)]
    fn known_at(&self, place: usize, name: &str) -> Option<usize>
        ensures { IfSome result (λ n. number_of self.now name.now ≡ Some n) }
    {
        let (known, number) = self.known.get_index(place)?;
        if *known == Slice::new(name) {
            return Some(*number);
        }
        None
    }

    /// The number of an account whose name isn't where it was found last; it and those above it are
    /// given one where they have none. A name that was met before is looked up whole.
    #[inline(never)]
    fn number_elsewhere(&mut self, name: &'a str) -> Result<usize, AllocError>
        ensures grows { Grows self.old self.new }
        ensures above { OnOk result (AreAbove self.new) }
        ensures number { IfOk result (λ n. number_of self.new name.now ≡ Some n) }
    {
        if let Some((place, _, number)) = self.known.get_full(&Slice::new(name)) {
            let number = *number;
            self.hints.note(name, place);
            return Ok(number);
        }
        let number = self.add(name)?;
        self.known.insert(Slice::new(name), number)?;
        Ok(number)
    }

    /// The number of an account; it and those above it are given one where they have none.
    pub fn number(&mut self, name: &'a str) -> Result<usize, AllocError>
        ensures grows { Grows self.old self.new }
        ensures above { OnOk result (AreAbove self.new) }
        ensures number { IfOk result (λ n. number_of self.new name.now ≡ Some n) }
    {
        match self.known_at(self.hints.place_for(name), name) {
            Some(number) => Ok(number),
            None => self.number_elsewhere(name),
        }
    }

    /// The number of the account above one, 0 where there is none.
    pub fn above(&self, number: usize) -> usize
        requires { 0 < number }
        ensures less { result < number }
        ensures above { (c : List ℕ) (cs : List (List ℕ))
            → number_by self.now (c ∷ cs) ≡ Some number
            → number_by self.now cs ≡ Some result }
    {
        match self.nodes.get_index(number - 1) {
            Some(below) => below.above,
            None => 0,
        }
    }
}
