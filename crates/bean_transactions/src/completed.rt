//! The postings that a completed transaction is booked as.
ghost use Rattle.std.specs.Prelude.{◌≡◌, ◌≤◌, ◌==◌, ◌++◌, ◌∷◌, [], if◌then◌else◌, OnOk, IfOk, length};
ghost use Rattle.std.specs.List.{prefix_len};
ghost use Rattle.bean_transactions.specs.Filled.{AreFrom, IsCutBehind};
ghost use Rattle.bean_transactions.specs.Tried as spec;

use crate::line::Line;
use crate::plain::emptied;
use bean_base::Account;
use bean_holdings::Posted;
use bean_interp::Fill;
use std::alloc::AllocError;

/// Adds the posting of what is filled in, where it is filled in at that line.
fn push_fill<'a>(
    posted: &mut Vec<Posted<'a>>,
    fill: &Fill<'a>,
    line: usize,
    account: &Account<'a>,
    written: usize,
) -> Result<(), AllocError>
    ensures { OnOk result (posted.new.items ≡ posted.old.items
        ++ (if fill.now.leg == line
        then spec.filled_in account.now written fill.now ∷ [] else [])) }
{
    if fill.leg == line {
        posted.push(Posted {
            account: account.lend(),
            units: fill.amount.lend(),
            lot: None,
            written,
        })?;
    }
    Ok(())
}

/// Adds the postings of what is filled in at a line.
pub(crate) fn push_filled<'a>(
    posted: &mut Vec<Posted<'a>>,
    fills: &[Fill<'a>],
    line: usize,
    account: &Account<'a>,
    written: usize,
) -> Result<(), AllocError>
    ensures { OnOk result (posted.new.items
        ≡ posted.old.items ++ spec.filled_at fills.now line account.now written) }
{
    for fill in fills {
        push_fill(posted, fill, line, account, written)?;
    }
    Ok(())
}

fn push_posted<'a>(posted: &mut Vec<Posted<'a>>, own: Posted<'a>) -> Result<(), AllocError>
    ensures { OnOk result (posted.new.items ≡ posted.old.items ++ own.entry ∷ []) }
{
    posted.push(own)?;
    Ok(())
}

/// Adds the postings that a line is booked as.
fn push_line<'a>(
    posted: &mut Vec<Posted<'a>>,
    fills: &[Fill<'a>],
    number: usize,
    line: Line<'a>,
) -> Result<(), AllocError>
    ensures { OnOk result (posted.new.items
        ≡ posted.old.items ++ spec.posts_at fills.now number line.entry) }
{
    match line {
        Line::Posted(own) | Line::Take(own) => push_posted(posted, own),
        Line::MissingNumber(account, _, written) | Line::MissingAmount(account, written) => {
            push_filled(posted, fills, number, &account, written)
        }
    }
}

/// How many at the front are filled in at a line.
fn reach(fills: &[Fill<'_>], line: usize) -> usize
    ensures len { result ≡ prefix_len (λ f. f.leg == line) fills.now }
    ensures inside { result ≤ length fills.now }
{
    fills.iter().take_while(|fill| fill.leg == line).count()
}

/// What is filled in at a line, at the front of what stands there and behind, and the others.
fn cut_behind<'f, 'a>(fills: &'f [Fill<'a>], line: usize) -> (&'f [Fill<'a>], &'f [Fill<'a>])
    requires { AreFrom line fills.now }
    ensures { IsCutBehind line fills.now result.0.now result.1.now }
{
    fills.split_at(reach(fills, line))
}

/// The postings that lines are booked as, in the memory of a list that is used no more. What is
/// filled in stands in the order of its lines, so each line looks at its own alone.
pub(crate) fn completed<'a>(
    spare: Vec<Posted<'a>>,
    fills: &[Fill<'a>],
    lines: Vec<Line<'a>>,
) -> Result<Vec<Posted<'a>>, AllocError>
    requires { AreFrom 0 fills.now }
    ensures { IfOk result (λ posted. posted.items ≡ spec.completed fills.now lines.entry.items) }
{
    let mut posted = emptied(spare, lines.len())?;
    let mut number = 0;
    let (_, mut left) = fills.split_at(0);
    for line in lines {
        let (here, behind) = cut_behind(left, number);
        push_line(&mut posted, here, number, line)?;
        left = behind;
        number += 1;
    }
    Ok(posted)
}
