//! Targets, and what items that name them ask of them: each target is looked at once.
ghost use Rattle.std.specs.Prelude.{◌≡◌, IfOk, map, true};
ghost use Rattle.std.specs.List.{slice_get};
ghost use Rattle.std.specs.Option.{is_some};
ghost use Rattle.bql_parser.specs.View.{target_of};
ghost use Rattle.bql_tree.specs.Tree.{tree_of};
ghost use Rattle.bql_types.specs.Cause.{told, least_of};
ghost use Rattle.bql_types.specs.Keys as view;
ghost use Rattle.bql_types.specs.Named as named;
ghost use Rattle.bql_types.specs.Sought as sought;
ghost use Rattle.bql_types.specs.Typing as rule;
ghost use Rattle.query_rows.specs.ColumnShape.{AreBounds};

use crate::aggregates::misplaced;
use crate::cause::{TypeCause, TypeCauseKind, sooner, where_true};
use crate::grouping::Grouping;
use crate::items::{isnt_ordered, shown};
use bql_parser::Target;
use bql_tree::Expr;
use limits::Bounds;
use query_rows::Shape;
use std::alloc::{AllocError, Global};

/// What is known of a target that items may name.
#[derive(Clone, Copy, Drop)]
pub(crate) struct SeenTarget {
    pub shape: Option<Shape>,
    /// Whether an aggregate would be misplaced in it if rows were grouped by it.
    pub has_aggregate: bool,
}

/// The same of all targets, and the least cause that was found so far.
#[derive(Drop)]
pub(crate) struct SeenTargets {
    pub targets: Vec<SeenTarget>,
    pub found: Option<TypeCause>,
}

/// Whether an aggregate is misplaced in an expression by which rows are grouped.
fn has_aggregate(alloc: Global, bounds: &Bounds, e: &Expr<'_>) -> Result<bool, AllocError>
    requires { AreBounds bounds.now }
    ensures { IfOk result (λ r. r
        ≡ is_some (least_of (sought.misplaced bounds.now true (tree_of e.now)))) }
{
    Ok(misplaced(alloc, bounds, true, e, None)?.is_some())
}

/// What is at fault in the targets, and what is known of them.
pub(crate) fn targets(
    alloc: Global,
    bounds: &Bounds,
    grouping: &Grouping<'_, '_>,
    targets: &[Target<'_>],
    found: Option<TypeCause>,
) -> Result<SeenTargets, AllocError>
    requires { AreBounds bounds.now }
    ensures seen { IfOk result (λ r. r.targets.items
        ≡ map (named.seen_of bounds.now) (map target_of targets.now)) }
    ensures found { IfOk result (λ r. r.found ≡ told found
        (rule.each (rule.target_causes bounds.now (view.grouping_of grouping.now))
        (map target_of targets.now))) }
{
    let mut seen = Vec::new(alloc);
    let mut found = found;
    for target in targets {
        let e = shown(alloc, bounds, grouping, &target.expr, found)?;
        found = e.found;
        seen.push(SeenTarget {
            shape: e.shape,
            has_aggregate: has_aggregate(alloc, bounds, &target.expr)?,
        })?;
    }
    Ok(SeenTargets {
        targets: seen,
        found,
    })
}

/// What is at fault in a group item that names a target.
pub(crate) fn named_group(
    targets: &[SeenTarget],
    index: usize,
    place: usize,
    found: Option<TypeCause>,
) -> Option<TypeCause>
    ensures { result ≡ told found (named.group_causes place (slice_get targets.now index)) }
{
    match targets.get(index) {
        Some(target) => {
            let cause = TypeCause::at(TypeCauseKind::AggregateMisplaced, place);
            where_true(found, target.has_aggregate, cause)
        }
        None => sooner(found, TypeCause::at(TypeCauseKind::KindClash, place)),
    }
}

/// What is at fault in an order item that names a target.
pub(crate) fn named_order(
    targets: &[SeenTarget],
    index: usize,
    place: usize,
    found: Option<TypeCause>,
) -> Option<TypeCause>
    ensures { result ≡ told found (named.order_causes place (slice_get targets.now index)) }
{
    match targets.get(index) {
        Some(target) => {
            let cause = TypeCause::at(TypeCauseKind::NotOrderable, place);
            where_true(found, isnt_ordered(target.shape), cause)
        }
        None => sooner(found, TypeCause::at(TypeCauseKind::KindClash, place)),
    }
}
