//! What is computed for a query, numbered as a program has it.
ghost use Rattle.std.specs.Prelude.{◌≡◌, IfOk};
ghost use Rattle.bql_parser.specs.Answer.{query_of};
ghost use Rattle.bql_plan.specs.Kept as view;
ghost use Rattle.bql_plan.specs.Plan.{plan};

use crate::exprs::{aggregates, order, targets_shown, with_items};
use bql_parser::Query;
use bql_types::grouped::Key;
use bql_types::grouping::{Grouping, grouped_by};
use std::alloc::{AllocError, Global};

/// What is computed for a query, numbered as a program has it. All expressions are lent from it.
pub struct Numbering<'q, 'a> {
    /// The targets, and behind them what only orders rows, equal ones once.
    pub shown: Vec<Key<'q, 'a>>,
    /// What orders rows, as indices of what is shown.
    pub order: Vec<usize>,
    /// How rows come to be, and what they are grouped by.
    pub grouping: Grouping<'q, 'a>,
    /// The aggregates of all that is shown, in order of reading, equal ones once.
    pub aggregates: Vec<Key<'q, 'a>>,
}

/// Written out, so that what gives one up needs to know nothing of what is in it.
impl Drop for Numbering<'_, '_> {
    fn drop(self) {
        let Numbering {
            shown: _,
            order: _,
            grouping: _,
            aggregates: _,
        } = self;
    }
}

/// What is computed for a query, numbered as a program has it.
pub fn numbered<'q, 'a>(
    alloc: Global,
    query: &'q Query<'a>,
) -> Result<Numbering<'q, 'a>, AllocError>
    ensures { IfOk result (λ n. view.numbered_of n ≡ plan (query_of query.now)) }
{
    let targets = query.targets.as_slice();
    let items = query.order.items.as_slice();
    let shown = with_items(targets_shown(alloc, targets)?, items)?;
    let order = order(alloc, shown.as_slice(), items)?;
    let grouping = grouped_by(alloc, targets, &query.group)?;
    let aggregates = aggregates(alloc, shown.as_slice())?;
    Ok(Numbering {
        shown,
        order,
        grouping,
        aggregates,
    })
}
