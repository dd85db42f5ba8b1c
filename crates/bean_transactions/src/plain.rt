//! Transactions that are booked as they are written.
ghost use Rattle.std.specs.Prelude.{◌≡◌, ◌++◌, [], IfOk, IsTrue, List, false, reverse, true};
ghost use Rattle.std.specs.List.{list_all};
ghost use Rattle.bean_postings.specs.declared.posting.Posting.{Posting};
ghost use Rattle.bean_transactions.specs.Lined.{Setting};
ghost use Rattle.bean_transactions.specs.Plain as spec;
ghost use Rattle.bean_transactions.specs.Plain.{AreAsWritten, IsAsWritten, IsBare, IsBareFront};
ghost use Rattle.bean_transactions.specs.Tried.{KnowsBalance, TriesOrLacks, is_outside};

use crate::legs::judge;
use crate::line::Tried;
use crate::setting::Head;
use crate::stop::{LineFault, refusal_of};
use bean_base::List;
use bean_holdings::Posted;
use bean_interp::{Scales, completion_refusal};
use bean_postings::{Cost, Units, WrittenPosting};
use refusals::Refusal;
use std::alloc::AllocError;

/// Whether a posting has no cost.
fn has_no_cost(posting: &WrittenPosting<'_>) -> bool
    ensures { result ≡ spec.is_absent posting.now.details.cost }
{
    match posting.details() {
        Some(parts) => matches!(parts.cost, Cost::Absent),
        None => true,
    }
}

/// Whether a posting is booked as it is written: its units are an amount, without a cost.
fn is_plain(posting: &WrittenPosting<'_>) -> bool
    ensures { result ≡ spec.is_plain posting.now }
{
    matches!(posting.units(), Units::Amount(_)) && has_no_cost(posting)
}

/// Whether all postings are booked as they are written, as those of most transactions.
pub(crate) fn are_plain(postings: &[WrittenPosting<'_>]) -> bool
    ensures { result ≡ list_all spec.is_plain postings.now }
{
    postings.iter().all(|posting| is_plain(posting))
}

/// The posting of that index as it is booked.
fn posted_as_written<'a>(index: usize, posting: &WrittenPosting<'a>) -> Posted<'a>
    requires { spec.is_plain posting.now ≡ true }
    ensures { IsAsWritten index posting.now result }
{
    match posting.units() {
        Units::Amount(units) => Posted {
            account: posting.account().lend(),
            units,
            lot: None,
            written: index,
        },
        _ => unreachable!(),
    }
}

/// A list of no postings with room for so many, in the memory of a list that is used no more.
#[inline(always)]
pub(crate) fn emptied<'a>(used: Vec<Posted<'a>>, room: usize) -> Result<Vec<Posted<'a>>, AllocError>
    ensures { IfOk result (λ empty. empty.items ≡ []) }
{
    let mut empty = used;
    empty.clear();
    empty.reserve(room)?;
    Ok(empty)
}

/// Whether a posting is an amount, with nothing beside it but its line.
fn is_bare(posting: &WrittenPosting<'_>) -> bool
    ensures { IsTrue result → IsBare posting.now }
{
    posting.details().is_none() && matches!(posting.units(), Units::Amount(_))
}

/// The bare postings at the front, as they are booked, in the memory of a list that is used no more.
/// Most transactions have no others, so that one pass is all that they take.
#[inline(always)]
pub(crate) fn bare_front<'a>(
    spare: Vec<Posted<'a>>,
    postings: &[WrittenPosting<'a>],
) -> Result<Vec<Posted<'a>>, AllocError>
    ensures { IfOk result (λ posted. IsBareFront postings.now posted.items) }
{
    let mut posted = emptied(spare, postings.len())?;
    for posting in postings {
        if !is_bare(posting) {
            return Ok(posted);
        }
        let index = posted.len();
        posted.push(posted_as_written(index, posting))?;
    }
    Ok(posted)
}

/// Adds plain postings as they are booked, behind those of the postings that stand before them.
#[inline(always)]
pub(crate) fn as_written<'a>(
    front: Vec<Posted<'a>>,
    rest: &[WrittenPosting<'a>],
) -> Result<Vec<Posted<'a>>, AllocError>
    requires { list_all spec.is_plain rest.now ≡ true }
    ensures { IfOk result (λ posted. (before : List Posting)
        → AreAsWritten (reverse before) front.entry.items
        → AreAsWritten (reverse (before ++ rest.now)) posted.items) }
{
    let mut posted = front;
    for posting in rest {
        let index = posted.len();
        posted.push(posted_as_written(index, posting))?;
    }
    Ok(posted)
}

/// Tries a transaction whose postings are booked as they are written. They are its lines, which lack
/// nothing, so one weighing tells whether it is too wide and whether it balances.
pub(crate) fn try_plain<'a>(
    scales: &mut Scales<'a>,
    posted: Vec<Posted<'a>>,
    head: Head,
    postings: &[WrittenPosting<'a>],
) -> Result<Tried<'a>, Refusal<LineFault>>
    requires written { AreAsWritten (reverse postings.now) posted.items }
    requires inside { is_outside postings.now ≡ false }
    ensures tried { (s : Setting) → s.head ≡ head → TriesOrLacks s postings.now result }
    ensures balances { IfOk result (KnowsBalance postings.now) }
{
    match judge(scales, postings, posted.as_slice()) {
        Ok(balances) => Ok(Tried {
            posted: List::new(posted),
            balances: Some(balances),
        }),
        Err(fault) => Err(refusal_of(completion_refusal(fault), head.line)),
    }
}
