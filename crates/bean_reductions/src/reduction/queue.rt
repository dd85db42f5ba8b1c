//! The candidates of a reduction, in the order in which they are taken.
ghost use Rattle.std.specs.Prelude.{◌≡◌, ◌↔◌, ◌≢◌, ◌-◌, ◌++◌, ◌&&◌, OnOk, IfOk, IsTrue};
ghost use Rattle.std.specs.Prelude.{IsPermutation, sum_by};
ghost use Rattle.bean_base.specs.Day.{number};
ghost use Rattle.bean_lots.specs.Lot.{same_text};
ghost use Rattle.bean_lots.specs.Inventory.{is_opposite};
ghost use Rattle.bean_reductions.specs.Candidate.{agrees, candidate_of, candidates, selects};
ghost use Rattle.bean_reductions.specs.Take.{IsQueue, units_of};
ghost use Rattle.bean_reductions.specs.Filling.{Judges};

use super::{Method, Selector};
use crate::cause::LotCause;
use bean_inventories::Inventory;
use bean_lots::{Key, Lot};
use refusals::Refusal;
use std::alloc::{AllocError, Global};
use std::cmp::Reverse;
use std::marker::Model;

/// A lot that may be reduced, with the units that are held of it, without their sign.
#[derive(Drop)]
pub(crate) struct Candidate<'a> {
    lot: Lot<'a>,
    units: u128,
}

impl<'a> Model for Candidate<'a> {
    ghost use Rattle.std.specs.Prelude.{ℕ};
    ghost use Rattle.bean_lots.specs.declared.lot.Lot.{Lot};

    ghost Value = { Lot × ℕ };

    ghost view = { λ c. (c.lot, c.units) };
}

impl<'a> Candidate<'a> {
    fn new(lot: Lot<'a>, units: u128) -> Candidate<'a>
        ensures { result ≡ (lot.entry, units) }
    {
        Candidate { lot, units }
    }

    pub(crate) fn lot(&self) -> Lot<'a>
        ensures { result ≡ self.now.0 }
    {
        self.lot.lend()
    }

    pub(crate) fn units(&self) -> u128
        ensures { result ≡ self.now.1 }
    {
        self.units
    }

    pub(crate) fn day_number(&self) -> i32
        ensures { result ≡ number self.now.0.day }
    {
        self.lot.day.number()
    }
}

/// Whether what is held has the sign opposite to the want.
pub(crate) fn is_opposite(want: i128, count: i128) -> bool
    ensures { result ≡ is_opposite want count }
{
    want < 0 && 0 < count || 0 < want && count < 0
}

/// Whether a lot that is held under a key may be reduced.
fn is_candidate(
    selector: &Selector<'_>,
    want: i128,
    key: &Key<'_>,
    lot: &Lot<'_>,
    count: i128,
) -> bool
    ensures { result ≡ (same_text key.now.currency selector.now.currency
        && agrees selector.now lot.now && is_opposite want count) }
{
    key.currency == selector.currency && selector.agrees(lot) && is_opposite(want, count)
}

/// Whether a key is one of those of a selector, whatever is held under it.
pub(crate) fn selects(selector: &Selector<'_>, key: &Key<'_>) -> bool
    ensures { result ≡ selects selector.now key.now.currency key.now.lot }
{
    match &key.lot {
        Some(lot) => selector.agrees(lot) && key.currency == selector.currency,
        None => false,
    }
}

/// Adds the candidate that an entry of that key and count is, where it is one, and tells its units.
pub(crate) fn push_candidate<'a>(
    found: &mut Vec<Candidate<'a>>,
    selector: &Selector<'_>,
    want: i128,
    key: &Key<'a>,
    count: i128,
) -> Result<u128, AllocError>
    ensures found { OnOk result (found.new.items ≡ found.old.items
        ++ candidate_of selector.now want key.now.currency key.now.lot count) }
    ensures units { IfOk result (λ units. units
        ≡ sum_by units_of (candidate_of selector.now want key.now.currency key.now.lot count)) }
{
    let Some(lot) = &key.lot else {
        return Ok(0);
    };
    if !is_candidate(selector, want, key, lot, count) {
        return Ok(0);
    }
    let units = count.unsigned_abs();
    found.push(Candidate::new(lot.lend(), units))?;
    Ok(units)
}

/// The candidates, in order of entry.
pub(crate) fn candidates<'a>(
    alloc: Global,
    inventory: &Inventory<'a>,
    selector: &Selector<'_>,
    want: i128,
) -> Result<Vec<Candidate<'a>>, AllocError>
    ensures { IfOk result (λ found. found.items ≡ candidates selector.now want inventory.now) }
{
    let mut found = Vec::new(alloc);
    let mut rest = inventory.positions();
    while let Some((key, count)) = rest.next_held() {
        push_candidate(&mut found, selector, want, key, count)?;
    }
    Ok(found)
}

/// Puts candidates in the order in which they are taken.
pub(crate) fn arrange(method: Method, queue: &mut Vec<Candidate<'_>>) -> Result<(), AllocError>
    requires { method ≢ Method.None }
    ensures queue { OnOk result (IsQueue method queue.old.items queue.new.items) }
    ensures same { IsPermutation queue.old.items queue.new.items }
{
    match method {
        Method::Lifo => queue.sort_by_key(|c| Reverse(c.day_number())),
        Method::Strict | Method::Fifo => queue.sort_by_key(|c| c.day_number()),
        Method::None => unreachable!(),
    }
}

/// What is left of the want once all is taken.
pub(crate) fn shortfall(queue: &[Candidate<'_>], want: u128) -> u128
    ensures { result ≡ want - sum_by units_of queue.now }
{
    let mut rest = want;
    for c in queue {
        rest = rest.saturating_sub(c.units());
    }
    rest
}

/// Whether all that is held comes to the want.
fn comes_to(queue: &[Candidate<'_>], want: u128) -> bool
    ensures { IsTrue result ↔ (sum_by units_of queue.now ≡ want) }
{
    let mut rest = want;
    for c in queue {
        if c.units() > rest {
            return false;
        }
        rest -= c.units();
    }
    rest == 0
}

/// Whether a queue can be taken from.
pub(crate) fn judge(
    method: Method,
    queue: &[Candidate<'_>],
    want: u128,
) -> Result<(), Refusal<LotCause>>
    ensures { Judges method queue.now want result }
{
    if queue.is_empty() {
        return Err(Refusal::Refused(LotCause::NoLotMatches));
    }
    if method == Method::Strict && queue.len() > 1 {
        if comes_to(queue, want) {
            return Ok(());
        }
        return Err(Refusal::Refused(LotCause::AmbiguousLots));
    }
    if shortfall(queue, want) > 0 {
        return Err(Refusal::Refused(LotCause::NotEnoughUnits));
    }
    Ok(())
}
