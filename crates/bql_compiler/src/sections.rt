//! What each section of a query's program computes.
ghost use Rattle.std.specs.Prelude.{◌≡◌, ◌≤◌, ◌++◌, length, IfOk, IfSome};
ghost use Rattle.bql_code.specs.Kept.{core_of, cores_of};
ghost use Rattle.bql_compiler.specs.Kept as view;
ghost use Rattle.bql_compiler.specs.Limits.{sections_in};
ghost use Rattle.bql_compiler.specs.Lowers.{AllLower, Lowers};
ghost use Rattle.bql_lowering.specs.Kept as lowered_view;
ghost use Rattle.bql_lowering.specs.Lowered as lowering;
ghost use Rattle.bql_parser.specs.Answer.{query_of};
ghost use Rattle.bql_parser.specs.View.{filter_of as asked_filter};
ghost use Rattle.bql_plan.specs.Kept.{numbered_of};
ghost use Rattle.bql_plan.specs.Plan.{plan};
ghost use Rattle.bql_compiler.specs.Program as rule;
ghost use Rattle.bql_tree.specs.Tree.{tree_of};
ghost use Rattle.bql_types.specs.Keys.{lent_trees};
ghost use Rattle.limits.specs.declared.counts.TheConstants.{MOST_ITEMS};
ghost use Rattle.query_rows.specs.ColumnShape.{AreBounds};

use bql_code::{Core, Load};
use bql_lowering::{Scope, lower, lower_all};
use bql_plan::{Numbering, first_part};
use bql_tree::Expr;
use bql_types::Typed;
use bql_types::grouped::Key;
use limits::Bounds;
use std::alloc::{AllocError, Global};

/// What each section computes: of the filter one expression, of the others one behind the other.
pub struct Sections<'a> {
    pub filter: Core<'a>,
    pub row: Vec<Core<'a>>,
    pub last: Vec<Core<'a>>,
}

/// Written out, so that what gives one up needs to know nothing of what is in it.
impl Drop for Sections<'_> {
    fn drop(self) {
        let Sections {
            filter: _,
            row: _,
            last: _,
        } = self;
    }
}

/// A row has no keys and no aggregates to be loaded.
fn of_a_row(bounds: &Bounds) -> Scope<'static, 'static, 'static>
    ensures bounds { result.bounds ≡ bounds.now }
    ensures row { lowered_view.gathered_of result ≡ lowering.of_a_row }
    ensures few { lowered_view.IsFew result }
{
    Scope {
        bounds: *bounds,
        keys: &[],
        aggregates: &[],
    }
}

/// What is gathered for an aggregate, behind other expressions.
fn with_input<'q, 'a>(
    exprs: Vec<Key<'q, 'a>>,
    aggregate: &'q Expr<'a>,
) -> Result<Vec<Key<'q, 'a>>, AllocError>
    ensures { IfOk result (λ r. lent_trees r.items
        ≡ lent_trees exprs.entry.items ++ rule.input_in (tree_of aggregate.now)) }
{
    let mut exprs = exprs;
    if let Some(input) = first_part(aggregate) {
        exprs.push(input)?;
    }
    Ok(exprs)
}

/// What a row gives where rows are grouped: the keys, and behind them the inputs of the aggregates.
fn keys_and_inputs<'q, 'a>(
    alloc: Global,
    keys: &[Key<'q, 'a>],
    aggregates: &[Key<'q, 'a>],
) -> Result<Vec<Key<'q, 'a>>, AllocError>
    ensures { IfOk result (λ r. lent_trees r.items
        ≡ lent_trees keys.now ++ rule.inputs_in (lent_trees aggregates.now)) }
{
    let mut exprs = Vec::from_slice(alloc, keys)?;
    for aggregate in aggregates {
        exprs = with_input(exprs, aggregate.expr)?;
    }
    Ok(exprs)
}

/// What the machine computes for some expressions.
fn lower_each<'a>(
    alloc: Global,
    scope: &Scope<'_, '_, '_>,
    exprs: &[Key<'_, 'a>],
) -> Result<Vec<Core<'a>>, AllocError>
    requires bounds { AreBounds scope.now.bounds }
    requires few { lowered_view.IsFew scope.now }
    requires lowers { AllLower scope.now.bounds (lent_trees exprs.now) }
    ensures { IfOk result (λ r. cores_of r.items ≡ lowering.all_lowered scope.now.bounds
        (lowered_view.gathered_of scope.now) (lent_trees exprs.now)) }
{
    lower_all(alloc, scope, exprs)
}

/// What a row gives: its values, or of a group the keys and the inputs.
pub(crate) fn row_of<'a>(
    alloc: Global,
    bounds: &Bounds,
    numbering: &Numbering<'_, 'a>,
) -> Result<Vec<Core<'a>>, AllocError>
    requires bounds { AreBounds bounds.now }
    requires shown { AllLower bounds.now (numbered_of numbering.now).shown }
    requires keys { AllLower bounds.now (numbered_of numbering.now).grouping.keys }
    requires inputs { AllLower bounds.now (rule.inputs_in (numbered_of numbering.now).aggregates) }
    ensures { IfOk result (λ r. cores_of r.items
        ≡ rule.row_of bounds.now (numbered_of numbering.now)) }
{
    let scope = of_a_row(bounds);
    if numbering.grouping.is_aggregating {
        let keys = numbering.grouping.keys.as_slice();
        let exprs = keys_and_inputs(alloc, keys, numbering.aggregates.as_slice())?;
        lower_each(alloc, &scope, exprs.as_slice())
    } else {
        lower_each(alloc, &scope, numbering.shown.as_slice())
    }
}

/// What a group shows.
pub(crate) fn last_of<'a>(
    alloc: Global,
    bounds: &Bounds,
    numbering: &Numbering<'_, 'a>,
) -> Result<Vec<Core<'a>>, AllocError>
    requires bounds { AreBounds bounds.now }
    requires shown { AllLower bounds.now (numbered_of numbering.now).shown }
    requires keys { length (numbered_of numbering.now).grouping.keys ≤ MOST_ITEMS }
    requires aggregates { length (rule.of_groups (numbered_of numbering.now)
        (numbered_of numbering.now).aggregates) ≤ MOST_ITEMS }
    ensures { IfOk result (λ r. cores_of r.items
        ≡ rule.last_of bounds.now (numbered_of numbering.now)) }
{
    if !numbering.grouping.is_aggregating {
        return Ok(Vec::new(alloc));
    }
    let scope = Scope {
        bounds: *bounds,
        keys: numbering.grouping.keys.as_slice(),
        aggregates: numbering.aggregates.as_slice(),
    };
    lower_each(alloc, &scope, numbering.shown.as_slice())
}

/// What the machine computes for an expression of each row.
fn lower_row<'a>(alloc: Global, bounds: &Bounds, expr: &Expr<'a>) -> Result<Core<'a>, AllocError>
    requires bounds { AreBounds bounds.now }
    requires lowers { Lowers bounds.now (tree_of expr.now) }
    ensures { IfOk result (λ r. core_of r
        ≡ lowering.lowered bounds.now lowering.of_a_row (tree_of expr.now)) }
{
    lower(alloc, &of_a_row(bounds), expr)
}

/// What a filter computes, if there is one.
fn filter_of<'a>(
    alloc: Global,
    bounds: &Bounds,
    filter: &Option<Box<Expr<'a>>>,
) -> Result<Option<Core<'a>>, AllocError>
    requires bounds { AreBounds bounds.now }
    requires lowers { IfSome (asked_filter filter.now) (Lowers bounds.now) }
    ensures { IfOk result (λ r. view.core_if r
        ≡ rule.filter_of bounds.now (asked_filter filter.now)) }
{
    match filter {
        Some(expr) => Ok(Some(lower_row(alloc, bounds, expr)?)),
        None => Ok(None),
    }
}

/// Both filters, one of them, or what is always true.
fn filtering<'a>(
    alloc: Global,
    from: Option<Core<'a>>,
    filter: Option<Core<'a>>,
) -> Result<Core<'a>, AllocError>
    ensures { IfOk result (λ r. core_of r
        ≡ rule.filtering (view.core_if from.entry) (view.core_if filter.entry)) }
{
    match (from, filter) {
        (Some(x), Some(y)) => Ok(Core::And(Box::new(alloc, x)?, Box::new(alloc, y)?)),
        (Some(x), None) => Ok(x),
        (None, Some(y)) => Ok(y),
        (None, None) => Ok(Core::Load(Load::Truth(true))),
    }
}

/// What the filter computes.
fn filter_in<'a>(alloc: Global, typed: &Typed<'_, 'a>) -> Result<Core<'a>, AllocError>
    ensures { IfOk result (λ r. core_of r
        ≡ (sections_in typed.now.bounds (query_of typed.now.query.now)).filter) }
{
    let filters = &typed.query.filters;
    let from = filter_of(alloc, &typed.bounds, &filters.from)?;
    let filter = filter_of(alloc, &typed.bounds, &filters.filter)?;
    filtering(alloc, from, filter)
}

/// What each section of a typed query's program computes.
pub(crate) fn sections_of<'q, 'a>(
    alloc: Global,
    typed: &Typed<'q, 'a>,
    numbering: &Numbering<'q, 'a>,
) -> Result<Sections<'a>, AllocError>
    requires plan { numbered_of numbering.now ≡ plan (query_of typed.now.query.now) }
    requires few { length (rule.of_groups (numbered_of numbering.now)
        (numbered_of numbering.now).aggregates) ≤ MOST_ITEMS }
    ensures { IfOk result (λ s. view.sections_of s
        ≡ sections_in typed.now.bounds (query_of typed.now.query.now)) }
{
    Ok(Sections {
        filter: filter_in(alloc, typed)?,
        row: row_of(alloc, &typed.bounds, numbering)?,
        last: last_of(alloc, &typed.bounds, numbering)?,
    })
}
