//! Whether a query has a type, and the least cause for which it has none.
ghost use Rattle.std.specs.Prelude.{◌≡◌, IfOk};
ghost use Rattle.bql_parser.specs.Answer.{query_of};
ghost use Rattle.query_rows.specs.ColumnShape.{AreBounds};
ghost use Rattle.bql_types.specs.Answer.{Answers};
ghost use Rattle.bql_types.specs.Cause.{least_of};
ghost use Rattle.bql_types.specs.Typing as rule;

use crate::cause::TypeCause;
use crate::grouping::grouped_by;
use crate::items::{filters, groups, order};
use crate::targets::targets;
use crate::typed::Typed;
use bql_parser::Query;
use limits::Bounds;
use refusals::Refusal;
use std::alloc::{AllocError, Global};

/// The least cause for which a query has no type.
fn cause(alloc: Global, bounds: &Bounds, query: &Query<'_>) -> Result<Option<TypeCause>, AllocError>
    requires { AreBounds bounds.now }
    ensures { IfOk result (λ r. r ≡ least_of (rule.causes bounds.now (query_of query.now))) }
{
    let grouping = grouped_by(alloc, query.targets.as_slice(), &query.group)?;
    let seen = targets(alloc, bounds, &grouping, query.targets.as_slice(), None)?;
    let found = filters(alloc, bounds, &query.filters, seen.found)?;
    let found = groups(alloc, bounds, seen.targets.as_slice(), &query.group, found)?;
    let items = query.order.items.as_slice();
    order(
        alloc,
        bounds,
        &grouping,
        seen.targets.as_slice(),
        items,
        found,
    )
}

/// The query, where it has a type within the bounds.
pub fn type_query<'q, 'a>(
    alloc: Global,
    query: &'q Query<'a>,
    bounds: &Bounds,
) -> Result<Typed<'q, 'a>, Refusal<TypeCause>>
    requires { AreBounds bounds.now }
    ensures { Answers bounds.now query.now result }
{
    match cause(alloc, bounds, query)? {
        Some(cause) => Err(Refusal::Refused(cause)),
        None => Ok(Typed {
            query,
            bounds: *bounds,
        }),
    }
}
