//! What sections leave at their end.
ghost use Rattle.std.specs.Prelude.{◌≡◌, [], ◌∷◌, MatchBool, MatchOption, Some, None, slice_get};
ghost use Rattle.std.specs.List.{list_all};
ghost use Rattle.query_rows.specs.declared.shape.Shape.TheVariants.{Truth};
ghost use Rattle.well_shaped.specs.Ends as spec;
ghost use Rattle.verify_programs.specs.Ending.{Hands, Totals, input_at};

use crate::CodeCause;
use bean_base::List;
use query_code::{Code, Output};
use query_rows::rules::is_ranked;
use query_rows::{Misfit, Shape, aggregate_shape};
use query_values::Aggregate;
use refusals::Refusal;
use std::alloc::Global;

/// Whether a filter leaves one truth value.
pub fn is_one_truth(values: &[Shape]) -> bool
    ensures { MatchBool result (values.now ≡ Truth ∷ []) (values.now ≡ Truth ∷ [] → ⊥) }
{
    matches!(values, [Shape::Truth])
}

/// Whether the value in a column has an order.
fn has_order(values: &[Shape], column: u8) -> bool
    ensures { result ≡ spec.has_order (slice_get values.now column) }
{
    match values.get(column as usize) {
        Some(shape) => is_ranked(*shape),
        None => false,
    }
}

/// Whether the values in columns have an order.
fn have_order(values: &[Shape], columns: &[u8]) -> bool
    ensures { result ≡ list_all (λ column. spec.has_order (slice_get values.now column)) columns.now }
{
    columns.iter().all(|column| has_order(values, *column))
}

/// Whether values are a row of the answer: as many as it has columns, and those to order by have an
/// order.
pub fn is_row(output: &Output<'_>, values: &[Shape]) -> bool
    ensures { MatchBool result (spec.AreRow output.now values.now)
        (spec.AreRow output.now values.now → ⊥) }
{
    if values.len() != output.targets.as_slice().len() + output.hidden as usize {
        return false;
    }
    have_order(values, output.order.as_slice())
}

/// What a row section hands to the last section.
#[derive(Drop)]
pub struct ToLast {
    pub keys: List<Shape>,
    pub totals: List<Shape>,
}

/// The input of an aggregate, in front of those of others; rows are counted without one.
fn next_input(aggregate: Aggregate, inputs: &[Shape]) -> Option<(Option<Shape>, &[Shape])>
    ensures { MatchOption result (input_at aggregate inputs.now ≡ None)
        (λ i. input_at aggregate inputs.now ≡ Some (i.0, i.1.now)) }
{
    match (aggregate, inputs) {
        (Aggregate::CountRows, _) => Some((None, inputs)),
        (_, [first, rest @ ..]) => Some((Some(*first), rest)),
        (_, []) => None,
    }
}

/// The shapes of what aggregates gather over at most so many values of their inputs' shapes.
fn gathered(
    alloc: Global,
    most: u32,
    aggregates: &[Aggregate],
    inputs: &[Shape],
) -> Result<List<Shape>, Refusal<CodeCause>>
    ensures { Totals result (spec.gathered most aggregates.now inputs.now) }
{
    let mut totals = List::new(Vec::new(alloc));
    let mut is_wide = false;
    let mut rest = inputs;
    for aggregate in aggregates {
        let Some((input, others)) = next_input(*aggregate, rest) else {
            return Err(Refusal::Refused(CodeCause::Values));
        };
        rest = others;
        match aggregate_shape(most, *aggregate, input) {
            Ok(shape) => totals.push(shape)?,
            Err(Misfit::Kind) => return Err(Refusal::Refused(CodeCause::Values)),
            Err(Misfit::TooWide) => is_wide = true,
        }
    }
    if !rest.is_empty() {
        return Err(Refusal::Refused(CodeCause::Values));
    }
    if is_wide {
        return Err(Refusal::Refused(CodeCause::TooWide));
    }
    Ok(totals)
}

/// What the values that a row section leaves hand to the last section: keys, and behind them the
/// inputs of the aggregates.
pub fn handed(
    alloc: Global,
    most: u32,
    code: &Code<'_>,
    values: &[Shape],
) -> Result<ToLast, Refusal<CodeCause>>
    ensures { Hands most code.now values.now result }
{
    let count = code.keys as usize;
    if values.len() < count {
        return Err(Refusal::Refused(CodeCause::Values));
    }
    let (keys, inputs) = values.split_at(count);
    match gathered(alloc, most, code.aggregates.as_slice(), inputs) {
        Ok(totals) => Ok(ToLast {
            keys: List::new(Vec::from_slice(alloc, keys)?),
            totals,
        }),
        Err(refusal) => Err(refusal),
    }
}
