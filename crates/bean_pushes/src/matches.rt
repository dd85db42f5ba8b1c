//! What stands behind each push and pop of the same name, and which pushes are open.
ghost use Rattle.std.specs.Prelude.{◌≡◌, ◌<◌, ◌≤◌, ◌-◌, ◌^◌, ◌++◌, ◌∷◌, [], IfOk, OnOk, List, length};
ghost use Rattle.std.specs.Prelude.{if◌then◌else◌, option_copied, nat_lt};
ghost use Rattle.bean_directives.specs.declared.undated.PushName as names;
ghost use Rattle.bean_directives.specs.declared.undated.Pushed as pushed_declared;
ghost use Rattle.bean_pushes.specs.Matches.{ahead_in, ahead_of, looked_up, open_in, reaches_of};
ghost use Rattle.bean_pushes.specs.Scope as spec;
ghost use Rattle.bean_pushes.specs.Scope.{open_behind, same_name};
ghost use Rattle.bean_pushes.specs.declared.scope.PlacedBound as placed;

use crate::scope::PlacedBound;
use bean_base::Slice;
use bean_directives::{Bound, PushName, Pushed};
use indexmap::IndexMap;
use std::alloc::{AllocError, Global};

fn name_of<'a>(pushed: &Pushed<'a>) -> PushName<'a>
    ensures { result ≡ spec.name_of pushed.now }
{
    match pushed {
        Pushed::Tag(tag) => PushName::Tag(tag.lend()),
        Pushed::Entry(entry) => PushName::Key(entry.key.lend()),
    }
}

fn lend_name<'a>(name: &PushName<'a>) -> PushName<'a>
    ensures { result ≡ name.now }
{
    match name {
        PushName::Tag(tag) => PushName::Tag(tag.lend()),
        PushName::Key(key) => PushName::Key(key.lend()),
    }
}

fn lend_pushed<'a>(pushed: &Pushed<'a>) -> Pushed<'a>
    ensures { result ≡ pushed.now }
{
    match pushed {
        Pushed::Tag(tag) => Pushed::Tag(tag.lend()),
        Pushed::Entry(entry) => Pushed::Entry(entry.lend()),
    }
}

/// What a bound is a bound of.
pub(crate) fn name_in<'a>(bound: &Bound<'a>) -> PushName<'a>
    ensures { result ≡ spec.name_in bound.now }
{
    match bound {
        Bound::Push(pushed) => name_of(pushed),
        Bound::Pop(name) => lend_name(name),
    }
}

/// A name by which bounds are looked up.
#[derive(Drop, PartialEq, Eq, Hash)]
pub(crate) struct Name<'a> {
    text: Slice<'a>,
    is_tag: bool,
}

impl<'a> Name<'a> {
    fn of(name: &PushName<'a>) -> Name<'a>
        ensures { result ≡ looked_up name.now }
    {
        match name {
            PushName::Tag(tag) => Name {
                text: Slice::new(tag.text()),
                is_tag: true,
            },
            PushName::Key(key) => Name {
                text: Slice::new(key.text()),
                is_tag: false,
            },
        }
    }
}

/// What some bounds hold of a name.
#[derive(Clone, Copy, Drop)]
pub(crate) struct Ahead {
    /// How many pops of the name take back pushes that stand before all of the bounds.
    pops: usize,
    /// The place of the next bound of the name; 0 where there is none.
    next: usize,
}

impl Ahead {
    /// What bounds hold of the name of a bound that stands before them, with it.
    fn with<'a>(self, bound: &PlacedBound<'a>) -> Ahead
        requires { self.pops < 2 ^ 64 - 1 }
        ensures { (behind : List placed.PlacedBound)
            → self ≡ ahead_of (spec.name_in bound.now.bound) behind
            → result ≡ ahead_of (spec.name_in bound.now.bound) (bound.now ∷ behind) }
    {
        let pops = match &bound.bound {
            Bound::Push(_) => self.pops.saturating_sub(1),
            Bound::Pop(_) => self.pops + 1,
        };
        Ahead {
            pops,
            next: bound.place,
        }
    }

    /// Up to where the latest push of the name gives that is open before the bounds.
    fn reach(self) -> Option<usize>
        ensures { result ≡ (if nat_lt 0 self.pops then Some self.next else None) }
    {
        if self.pops > 0 { Some(self.next) } else { None }
    }
}

/// What some bounds hold of each name. Bounds are taken from the last to the first, so that each
/// meets those behind it.
#[derive(Drop)]
pub(crate) struct Aheads<'a> {
    by_name: IndexMap<Name<'a>, Ahead>,
}

impl<'a> Aheads<'a> {
    fn new(alloc: Global) -> Aheads<'a>
        ensures { (n : names.PushName) → ahead_in result n ≡ ahead_of n [] }
    {
        Aheads {
            by_name: IndexMap::new(alloc),
        }
    }

    fn get(&self, name: &PushName<'a>) -> Ahead
        ensures { result ≡ ahead_in self.now name.now }
    {
        match self.by_name.get(&Name::of(name)) {
            Some(ahead) => *ahead,
            None => Ahead { pops: 0, next: 0 },
        }
    }

    fn set(&mut self, name: &PushName<'a>, ahead: Ahead) -> Result<(), AllocError>
        ensures { OnOk result ((n : names.PushName) → ahead_in self.new n
            ≡ (if same_name name.now n then ahead else ahead_in self.old n)) }
    {
        self.by_name.insert(Name::of(name), ahead)?;
        Ok(())
    }

    /// Takes the bound that stands before those that were taken. Gives up to where the latest push
    /// of its name gives that is open behind it.
    fn take(&mut self, bound: &PlacedBound<'a>) -> Result<Option<usize>, AllocError>
        requires { (n : names.PushName) → (ahead_in self.old n).pops < 2 ^ 64 - 1 }
        ensures { IfOk result (λ reach. (behind : List placed.PlacedBound)
            → ((n : names.PushName) → ahead_in self.old n ≡ ahead_of n behind)
            → ((n : names.PushName) → ahead_in self.new n ≡ ahead_of n (bound.now ∷ behind))
            × (reach ≡ spec.reach_of (spec.name_in bound.now.bound) behind)) }
    {
        let name = name_in(&bound.bound);
        let ahead = self.get(&name);
        self.set(&name, ahead.with(bound))?;
        Ok(ahead.reach())
    }
}

/// Of each bound, up to where the latest push of its name gives that is open behind it.
pub fn reaches<'a>(
    alloc: Global,
    bounds: &[PlacedBound<'a>],
) -> Result<Vec<Option<usize>>, AllocError>
    ensures { IfOk result (λ found. found.items ≡ reaches_of bounds.now) }
{
    let mut aheads = Aheads::new(alloc);
    let mut found = Vec::new(alloc);
    let mut i = bounds.len();
    while i > 0 {
        i -= 1;
        found.push(aheads.take(&bounds[i])?)?;
    }
    found.reverse();
    Ok(found)
}

/// The pushes of each name that are open, the latest last.
#[derive(Drop)]
pub(crate) struct Opens<'a> {
    by_name: IndexMap<Name<'a>, Vec<Pushed<'a>>>,
}

impl<'a> Opens<'a> {
    pub(crate) fn new(alloc: Global) -> Opens<'a>
        ensures { (n : names.PushName) → open_in result n ≡ [] }
    {
        Opens {
            by_name: IndexMap::new(alloc),
        }
    }

    /// The latest push of a name that is open.
    pub(crate) fn latest(&self, name: &PushName<'a>) -> Option<&Pushed<'a>>
        ensures { option_copied result ≡ spec.latest (open_in self.now name.now) }
    {
        match self.by_name.get(&Name::of(name)) {
            Some(pushes) => pushes.as_slice().last(),
            None => None,
        }
    }

    fn take_out(&mut self, alloc: Global, name: &PushName<'a>) -> Vec<Pushed<'a>>
        ensures taken { result.items ≡ open_in self.old name.now }
        ensures left { (n : names.PushName) → open_in self.new n
            ≡ (if same_name name.now n then [] else open_in self.old n) }
    {
        match self.by_name.swap_remove(&Name::of(name)) {
            Some(pushes) => pushes,
            None => Vec::new(alloc),
        }
    }

    fn put(&mut self, name: &PushName<'a>, pushes: Vec<Pushed<'a>>) -> Result<(), AllocError>
        ensures { OnOk result ((n : names.PushName) → open_in self.new n
            ≡ (if same_name name.now n then pushes.entry.items else open_in self.old n)) }
    {
        self.by_name.insert(Name::of(name), pushes)?;
        Ok(())
    }

    /// Takes the next bound: a push opens one, and a pop closes the latest if any is open.
    pub(crate) fn take(&mut self, alloc: Global, bound: &Bound<'a>) -> Result<(), AllocError>
        ensures { OnOk result ((n : names.PushName) → open_in self.new n
            ≡ open_behind n (open_in self.old n) bound.now) }
    {
        match bound {
            Bound::Push(pushed) => {
                let name = name_of(pushed);
                let mut pushes = self.take_out(alloc, &name);
                pushes.push(lend_pushed(pushed))?;
                self.put(&name, pushes)
            }
            Bound::Pop(name) => {
                let mut pushes = self.take_out(alloc, name);
                pushes.pop();
                self.put(name, pushes)
            }
        }
    }
}
