//! Transactions that are tried: nothing is booked until all of one is known.
ghost use Rattle.std.specs.Prelude.{◌≡◌, ◌≤◌, ◌^◌, IfOk, IfErr, false, length};
ghost use Rattle.std.specs.List.{AllByRecursion};
ghost use Rattle.bean_interp.specs.Balance.{is_balanced};
ghost use Rattle.bean_interp.specs.Residual.{IsLight};
ghost use Rattle.bean_holdings.specs.Holdings.{IsBounded, additions_in};
ghost use Rattle.bean_transactions.specs.Lined.{Setting};
ghost use Rattle.bean_transactions.specs.Lines.{IsSettled};
ghost use Rattle.bean_transactions.specs.Outcome.{StopsAt};
ghost use Rattle.bean_transactions.specs.Tried as spec;
ghost use Rattle.bean_transactions.specs.Tried.{IsCompleted, KnowsBalance, LacksOrIsWide, TriesOrLacks};

use crate::completed::completed;
use crate::lacking::{front_of_lacking, try_lacking_last};
use crate::legs::{judge, legs_of};
use crate::line::{Line, Tried};
use crate::lines::line_up;
use crate::plain::{are_plain, as_written, bare_front, try_plain};
use crate::setting::Head;
use crate::stop::{LineFault, refusal_at, refusal_of};
use bean_accounts::Methods;
use bean_base::{FaultKind, List};
use bean_holdings::{Holdings, Posted};
use bean_interp::{Scales, WeighCause};
use bean_inventories::Inventory;
use bean_postings::WrittenPosting;
use refusals::Refusal;
use std::alloc::{AllocError, Global};

fn are_outside_profile(postings: &[WrittenPosting<'_>]) -> bool
    ensures { result ≡ spec.is_outside postings.now }
{
    postings.iter().any(|posting| posting.is_outside_profile())
}

/// The postings that lines are booked as, once what they lack is filled in.
fn complete<'a>(
    alloc: Global,
    scales: &mut Scales<'a>,
    spare: Vec<Posted<'a>>,
    head: Head,
    postings: &[WrittenPosting<'a>],
    lines: Vec<Line<'a>>,
) -> Result<Tried<'a>, Refusal<LineFault>>
    ensures ok { IfOk result (λ t. IsCompleted postings.now lines.entry.items t.posted) }
    ensures balances { IfOk result (KnowsBalance postings.now) }
    ensures err { IfErr result
        (StopsAt (LacksOrIsWide head.line (spec.legs_of postings.now lines.entry.items))) }
{
    let legs = legs_of(alloc, postings, &lines)?;
    match scales.complete(alloc, &legs) {
        Ok(fills) => {
            let posted = completed(spare, fills.as_slice(), lines)?;
            Ok(Tried {
                posted: List::new(posted),
                balances: None,
            })
        }
        Err(fault) => Err(refusal_of(fault, head.line)),
    }
}

/// Tries a transaction by its lines, as one that isn't booked as it is written. It is a function of
/// its own, so that any other makes no room for lines.
#[inline(never)]
fn try_lines<'a>(
    alloc: Global,
    holdings: &Holdings<'a>,
    methods: &Methods<'a>,
    scales: &mut Scales<'a>,
    spare: Vec<Posted<'a>>,
    head: Head,
    postings: &[WrittenPosting<'a>],
) -> Result<Tried<'a>, Refusal<LineFault>>
    requires bounded { IsBounded holdings.now }
    requires few { additions_in holdings.now ≤ 2 ^ 40 }
    requires inside { spec.is_outside postings.now ≡ false }
    ensures tried { (s : Setting) → IsSettled s holdings.now methods.now head
        → TriesOrLacks s postings.now result }
    ensures balances { IfOk result (KnowsBalance postings.now) }
{
    let nothing = Inventory::new(alloc);
    match line_up(alloc, holdings, &nothing, methods, head, postings) {
        Ok(lines) => complete(alloc, scales, spare, head, postings, lines),
        Err(stop) => Err(stop),
    }
}

/// Whether a transaction is weighed where it can be booked without that.
#[derive(Clone, Copy)]
pub enum Weighing {
    /// So that it is known whether it balances.
    Always,
    /// Not where its weights are in range whatever they are: nobody asks whether it balances.
    WhereNeeded,
}

/// So many light weights are in range, whatever they are.
const FEW: usize = 1_000_000_000;

/// The postings that a transaction is booked as, or its first fault. Nothing that is held is
/// changed. Where all are booked as they are written, and it is weighed, it is known as well whether
/// they balance. The postings stand in the memory of `spare`, whatever that list has.
pub fn try_transaction<'a>(
    alloc: Global,
    holdings: &Holdings<'a>,
    methods: &Methods<'a>,
    scales: &mut Scales<'a>,
    spare: Vec<Posted<'a>>,
    head: Head,
    postings: &[WrittenPosting<'a>],
    weighing: Weighing,
) -> Result<Tried<'a>, Refusal<LineFault>>
    requires bounded { IsBounded holdings.now }
    requires few { additions_in holdings.now ≤ 2 ^ 40 }
    ensures tried { (s : Setting) → IsSettled s holdings.now methods.now head
        → TriesOrLacks s postings.now result }
    ensures balances { IfOk result (KnowsBalance postings.now) }
{
    let posted = bare_front(spare, postings)?;
    let (_, rest) = postings.split_at(posted.len());
    // Bare ones weigh what their units are: where they are few, they aren't weighed for their width.
    let is_needed = matches!(weighing, Weighing::Always);
    if !is_needed && posted.len() == postings.len() && posted.len() <= FEW {
        return Ok(Tried {
            posted: List::new(posted),
            balances: None,
        });
    }
    if are_outside_profile(rest) {
        return Err(refusal_at(FaultKind::OutsideProfile, head.line));
    }
    if are_plain(rest) {
        let posted = as_written(posted, rest)?;
        return try_plain(scales, posted, head, postings);
    }
    if let Some(front) = front_of_lacking(rest) {
        let posted = as_written(posted, front)?;
        return try_lacking_last(alloc, scales, posted, head, postings);
    }
    try_lines(alloc, holdings, methods, scales, posted, head, postings)
}

/// Whether a transaction balances by the postings that it is booked as.
pub fn balances<'a>(
    scales: &mut Scales<'a>,
    postings: &[WrittenPosting<'a>],
    posted: &[Posted<'a>],
) -> Result<bool, AllocError>
    requires few { length posted.now ≤ 10 ^ 9 }
    requires light { AllByRecursion IsLight (spec.booked_legs postings.now posted.now) }
    ensures { IfOk result (λ b. b ≡ is_balanced (spec.booked_legs postings.now posted.now)) }
{
    match judge(scales, postings, posted) {
        Ok(balances) => Ok(balances),
        Err(Refusal::OutOfMemory) => Err(AllocError),
        Err(Refusal::Refused(WeighCause::TooWide)) => unreachable!(),
    }
}
