//! Transactions that are booked as they are written, but for the last posting, which lacks its amount.
ghost use Rattle.std.specs.Prelude.{◌≡◌, IfOk, IfSome, false, true};
ghost use Rattle.bean_postings.specs.declared.price.Price.TheVariants as price;
ghost use Rattle.bean_transactions.specs.Lined.{Setting};
ghost use Rattle.bean_transactions.specs.Plain.{IsLackingBehind, IsLackingLast};
ghost use Rattle.bean_transactions.specs.Tried.{KnowsBalance, TriesOrLacks, is_outside};

use crate::completed::push_filled;
use crate::legs::set;
use crate::line::Tried;
use crate::plain::are_plain;
use crate::setting::Head;
use crate::stop::{LineFault, refusal_of};
use bean_base::List;
use bean_holdings::Posted;
use bean_interp::{Scales, completion_refusal};
use bean_postings::{Price, Units, WrittenPosting};
use refusals::Refusal;
use std::alloc::Global;

/// The postings before the last, where these are booked as they are written, and the last lacks its
/// amount.
pub(crate) fn front_of_lacking<'p, 'a>(
    postings: &'p [WrittenPosting<'a>],
) -> Option<&'p [WrittenPosting<'a>]>
    ensures { IfSome result (λ front. IsLackingBehind front.now postings.now) }
{
    match postings.split_last() {
        Some((last, front)) => {
            (matches!(last.units(), Units::Missing) && are_plain(front)).then_some(front)
        }
        None => None,
    }
}

/// That all balances once this posting has taken what the others lack, where it has no price.
fn evened_by(posting: &WrittenPosting<'_>) -> Option<bool>
    ensures { IfSome result (λ b. (b ≡ true) × (posting.now.details.price ≡ price.Absent)) }
{
    match posting.details() {
        Some(parts) => matches!(parts.price, Price::Absent).then_some(true),
        None => Some(true),
    }
}

/// Tries such a transaction. All postings but the last are its lines, and the last takes what these
/// lack together. So it balances, where the last has no price, and nothing is laid apart for it.
#[inline(always)]
pub(crate) fn try_lacking_last<'a>(
    alloc: Global,
    scales: &mut Scales<'a>,
    front: Vec<Posted<'a>>,
    head: Head,
    postings: &[WrittenPosting<'a>],
) -> Result<Tried<'a>, Refusal<LineFault>>
    requires lacking { IsLackingLast postings.now front.items }
    requires inside { is_outside postings.now ≡ false }
    ensures tried { (s : Setting) → s.head ≡ head → TriesOrLacks s postings.now result }
    ensures balances { IfOk result (KnowsBalance postings.now) }
{
    let Some((last, before)) = postings.split_last() else {
        unreachable!()
    };
    let mut posted = front;
    if let Err(fault) = set(scales, postings, posted.as_slice()) {
        return Err(refusal_of(completion_refusal(fault), head.line));
    }
    match scales.fill_last(alloc, before.len()) {
        Ok(fills) => {
            let (account, number) = (last.account(), before.len());
            push_filled(&mut posted, fills.as_slice(), number, account, number)?;
            Ok(Tried {
                posted: List::new(posted),
                balances: evened_by(last),
            })
        }
        Err(fault) => Err(refusal_of(fault, head.line)),
    }
}
