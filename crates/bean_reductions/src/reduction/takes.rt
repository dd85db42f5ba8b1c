//! The takes of a reduction.
ghost use Rattle.std.specs.Prelude.{◌≡◌, ◌≢◌, ◌<◌, ◌^◌, ◌++◌, ◌∷◌, [], OnOk, IfOk, List, ℕ, map};
ghost use Rattle.std.specs.Prelude.{length};
ghost use Rattle.std.specs.Int.RustNames.{unsigned_abs};
ghost use Rattle.std.specs.List.{AllByRecursion};
ghost use Rattle.bean_base.specs.Decimal.{scaled};
ghost use Rattle.bean_lots.specs.declared.lot.Lot.{Lot};
ghost use Rattle.bean_reductions.specs.Candidate.{IsHeld, candidates};
ghost use Rattle.bean_reductions.specs.Take.{with_sign, signed_take, signed_takes, take_counts};
ghost use Rattle.bean_reductions.specs.Filling.{filled};
ghost use Rattle.bean_reductions.specs.Reduction.{IsReduction, Reduces};
ghost use Rattle.bean_reductions.specs.declared.reduction.Method.{Method};

use super::queue::{Candidate, arrange, candidates, judge};
use super::{Method, Selector};
use crate::cause::LotCause;
use bean_base::Num;
use bean_inventories::Inventory;
use bean_lots::Lot;
use refusals::Refusal;
use std::alloc::{AllocError, Global};

/// The number of that many units, with the sign of the want.
fn number_of(want: i128, units: u128) -> Num
    requires { units < 10 ^ 20 }
    ensures count { result.count ≡ with_sign want units }
    ensures places { result.places ≡ 8 }
{
    let units = units as i128;
    Num {
        count: if want < 0 { -units } else { units },
        places: 8,
    }
}

fn push_take<'a>(
    takes: &mut Vec<(Lot<'a>, Num)>,
    candidate: &Candidate<'a>,
    want: i128,
    units: u128,
) -> Result<(), AllocError>
    requires { units < 10 ^ 20 }
    ensures { OnOk result (map take_counts takes.new.items
        ≡ map take_counts takes.old.items ++ signed_take want (candidate.now.0, units) ∷ []) }
{
    takes.push((candidate.lot(), number_of(want, units)))?;
    Ok(())
}

/// Takes what is wanted, of one candidate after the other.
fn fill<'a>(
    alloc: Global,
    queue: &[Candidate<'a>],
    want: i128,
) -> Result<Vec<(Lot<'a>, Num)>, AllocError>
    requires { unsigned_abs want < 10 ^ 20 }
    ensures { IfOk result (λ takes. map take_counts takes.items
        ≡ signed_takes want (filled queue.now (unsigned_abs want))) }
{
    let mut takes = Vec::new(alloc);
    let mut rest = want.unsigned_abs();
    for c in queue {
        if rest == 0 {
            return Ok(takes);
        }
        let units = c.units().min(rest);
        push_take(&mut takes, c, want, units)?;
        rest -= units;
    }
    Ok(takes)
}

/// What is taken of candidates, which stand in order of entry.
pub(crate) fn reduce_candidates<'a>(
    alloc: Global,
    mut queue: Vec<Candidate<'a>>,
    want: i128,
    method: Method,
) -> Result<Vec<(Lot<'a>, Num)>, Refusal<LotCause>>
    requires small { unsigned_abs want < 10 ^ 20 }
    requires chooses { method ≢ Method.None }
    requires held { AllByRecursion IsHeld queue.items }
    requires wanted { 0 < length queue.items → 0 < unsigned_abs want }
    ensures { Reduces method queue.entry.items want result }
{
    arrange(method, &mut queue)?;
    match judge(method, &queue, want.unsigned_abs()) {
        Ok(()) => Ok(fill(alloc, &queue, want)?),
        Err(fault) => Err(fault),
    }
}

/// What a reduction by `units` takes of the lots that are held: the takes in their order, with the
/// sign of `units`.
pub fn reduce<'a>(
    alloc: Global,
    inventory: &Inventory<'a>,
    selector: &Selector<'_>,
    units: Num,
    method: Method,
) -> Result<Vec<(Lot<'a>, Num)>, Refusal<LotCause>>
    requires { method ≢ Method.None }
    ensures { let want = scaled units.count units.places 8 in
        Reduces method (candidates selector.now want inventory.now) want result }
{
    let want = units.scaled(8);
    let found = candidates(alloc, inventory, selector, want)?;
    reduce_candidates(alloc, found, want, method)
}

/// There is at most one list of takes.
pub fn one_reduction()
    ensures { (m : Method) (cs : List (Lot × ℕ)) (want : ℕ) (ts us : List (Lot × ℕ))
        → IsReduction m cs want ts → IsReduction m cs want us → ts ≡ us }
{}
