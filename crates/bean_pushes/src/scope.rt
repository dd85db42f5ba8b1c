//! Pushes and pops: what is given to the transactions between them.
ghost use Rattle.std.specs.Prelude.{◌≡◌, ◌++◌, ◌∷◌, [], IfOk, OnOk};
ghost use Rattle.std.specs.Prelude as prelude;
ghost use Rattle.bean_directives.specs.declared.undated.PushName as names;
ghost use Rattle.bean_directives.specs.declared.undated.Pushed as pushed_declared;
ghost use Rattle.bean_pushes.specs.Matches.{open_in, reaches_of};
ghost use Rattle.bean_pushes.specs.Scope as spec;
ghost use Rattle.bean_pushes.specs.declared.scope.PlacedBound as placed;

use crate::gifts::Gifts;
use crate::matches::{Opens, name_in};
use bean_base::{Fault, FaultKind, Place};
use bean_directives::{ApartDirective, Bound};
use std::alloc::{AllocError, Global};

/// Where a scope begins or ends, with its place.
#[derive(Drop)]
pub struct PlacedBound<'a> {
    /// The line on which it is written, from 1.
    pub line: usize,
    /// How many directives stand before it.
    pub place: usize,
    pub bound: Bound<'a>,
}

/// Whether a push has its pop behind it, or a pop an open push before it.
fn is_matched<'a>(bound: &Bound<'a>, reach: Option<usize>, opens: &Opens<'a>) -> bool
    ensures { (before behind : prelude.List placed.PlacedBound)
        → reach ≡ spec.reach_of (spec.name_in bound.now) behind
        → ((n : names.PushName) → open_in opens.now n ≡ spec.open_pushes n [] before)
        → result ≡ spec.is_matched before bound.now behind }
{
    match bound {
        Bound::Push(_) => reach.is_some(),
        Bound::Pop(name) => opens.latest(name).is_some(),
    }
}

/// F4 at a line.
fn unmatched_at(line: usize) -> Fault
    ensures { result ≡ spec.unmatched_at line }
{
    Fault {
        kind: FaultKind::UnmatchedPushOrPop,
        place: Place { file: 0, line },
    }
}

/// Adds F4 at a line where what is written there isn't matched.
fn note_unless(is_matched: bool, line: usize, faults: &mut Vec<Fault>) -> Result<(), AllocError>
    ensures { OnOk result (faults.new.items
        ≡ faults.old.items ++ spec.fault_unless is_matched line) }
{
    if !is_matched {
        faults.push(unmatched_at(line))?;
    }
    Ok(())
}

/// Adds F4 at each bound that isn't matched.
pub fn add_unmatched<'a>(
    alloc: Global,
    bounds: &[PlacedBound<'a>],
    reaches: &[Option<usize>],
    faults: &mut Vec<Fault>,
) -> Result<(), AllocError>
    requires { reaches.now ≡ reaches_of bounds.now }
    ensures { OnOk result (faults.new.items ≡ faults.old.items ++ spec.unmatched [] bounds.now) }
{
    let mut opens = Opens::new(alloc);
    let mut i = 0;
    while i < bounds.len() {
        let bound = &bounds[i];
        let matched = is_matched(&bound.bound, reaches[i], &opens);
        note_unless(matched, bound.line, faults)?;
        opens.take(alloc, &bound.bound)?;
        i += 1;
    }
    Ok(())
}

/// Gives what stands of each name, from each bound of it up to the next.
pub fn give_all<'a>(
    alloc: Global,
    bounds: &[PlacedBound<'a>],
    reaches: &[Option<usize>],
    directives: &mut Vec<ApartDirective<'a>>,
) -> Result<(), AllocError>
    requires { reaches.now ≡ reaches_of bounds.now }
    ensures { OnOk result (directives.new.items
        ≡ spec.with_pushes [] bounds.now directives.old.items) }
{
    let mut opens = Opens::new(alloc);
    let mut gifts = Gifts::new(alloc, directives.len());
    let mut i = 0;
    while i < bounds.len() {
        let bound = &bounds[i];
        opens.take(alloc, &bound.bound)?;
        let latest = opens.latest(&name_in(&bound.bound));
        let to = reaches[i];
        gifts.add(alloc, latest, bound.place, to, directives)?;
        i += 1;
    }
    gifts.give(alloc, directives)
}
