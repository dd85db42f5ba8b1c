//! What a group has gathered, a running value for each aggregate.
ghost use Rattle.std.specs.Prelude.{◌≡◌, ◌≢◌, [], IfOk, None, OnOk, Some, drop, map};
ghost use Rattle.plain_machine.specs.Gathering.{take_each, with_value};
ghost use Rattle.query_groups.specs.Taking as spec;
ghost use Rattle.query_values.specs.Aggregate.{aggregate_of};

use query_values::{Aggregate, Value};
use std::alloc::{AllocError, Global};
use std::marker::Model;

/// Running values, in the order of the aggregates that gather them.
#[derive(Drop)]
pub struct Totals<'r> {
    values: Vec<Value<'r>>,
}

impl<'r> Model for Totals<'r> {
    ghost use Rattle.std.specs.Prelude.{List};
    ghost use Rattle.query_values.specs.declared.value.Value as of_queries;

    ghost Value = { List of_queries.Value };

    ghost view = { λ t. t.values.items };
}

/// What aggregates start from.
fn starts<'r>(alloc: Global, aggregates: &[Aggregate]) -> Result<Vec<Value<'r>>, AllocError>
    ensures { IfOk result (λ values. values.items ≡ map (λ a. aggregate_of a []) aggregates.now) }
{
    let mut values = Vec::with_capacity(alloc, aggregates.len())?;
    for aggregate in aggregates {
        values.push(aggregate.start(alloc)?)?;
    }
    Ok(values)
}

fn counts_rows(aggregate: Aggregate) -> bool
    ensures { result ≡ spec.counts_rows aggregate }
{
    matches!(aggregate, Aggregate::CountRows)
}

#[tactic(auto, using(crate::proofs::TakingFacts::given_is_held, crate::proofs::TakingFacts::given_is))]
#[inline(always)]
fn take<'r>(
    aggregate: Aggregate,
    total: &mut Value<'r>,
    value: &Value<'r>,
) -> Result<(), AllocError>
    requires { with_value aggregate total.old value.now ≢ None }
    ensures { OnOk result (with_value aggregate total.old value.now ≡ Some total.new) }
{
    aggregate.add(total, value)
}

/// An aggregate takes its input among those from a place on, and the answer is the place behind it.
#[tactic(auto, using(crate::proofs::TakingFacts::counted, crate::proofs::TakingFacts::counted_is, crate::proofs::TakingFacts::there, crate::proofs::TakingFacts::taken, crate::proofs::TakingFacts::taken_is))]
#[inline(always)]
fn take_next<'r>(
    aggregate: Aggregate,
    total: &mut Value<'r>,
    inputs: &[Value<'r>],
    at: usize,
) -> Result<usize, AllocError>
    requires { spec.taking aggregate total.old (drop at inputs.now) ≢ None }
    ensures { IfOk result (λ behind. spec.taking aggregate total.old (drop at inputs.now)
        ≡ Some (total.new, drop behind inputs.now)) }
{
    if counts_rows(aggregate) {
        take(aggregate, total, &Value::Null)?;
        return Ok(at);
    }
    take(aggregate, total, &inputs[at])?;
    Ok(at + 1)
}

#[tactic(auto, using(crate::proofs::AddingFacts::adding_first, crate::proofs::AddingFacts::adding_fits, crate::proofs::AddingFacts::adding_has, crate::proofs::AddingFacts::adding_on, crate::proofs::AddingFacts::adding_past))]
#[inline(always)]
fn gather_each<'r>(
    totals: &mut Vec<Value<'r>>,
    aggregates: &[Aggregate],
    inputs: &[Value<'r>],
) -> Result<(), AllocError>
    requires { take_each with_value aggregates.now totals.old.items inputs.now ≢ None }
    ensures { OnOk result
        (take_each with_value aggregates.now totals.old.items inputs.now ≡ Some totals.new.items) }
{
    let mut at = 0;
    let mut k = 0;
    while k < aggregates.len() {
        at = take_next(aggregates[k], &mut totals[k], inputs, at)?;
        k += 1;
    }
    totals.truncate(k);
    Ok(())
}

impl<'r> Totals<'r> {
    /// What aggregates start from.
    pub(crate) fn start(alloc: Global, aggregates: &[Aggregate]) -> Result<Totals<'r>, AllocError>
        ensures { IfOk result (λ totals. totals ≡ map (λ a. aggregate_of a []) aggregates.now) }
    {
        let values = starts(alloc, aggregates)?;
        Ok(Totals { values })
    }

    /// Each running value takes the input of its aggregate.
    #[inline(always)]
    pub(crate) fn gather(
        &mut self,
        aggregates: &[Aggregate],
        inputs: &[Value<'r>],
    ) -> Result<(), AllocError>
        requires { take_each with_value aggregates.now self.old inputs.now ≢ None }
        ensures { OnOk result
            (take_each with_value aggregates.now self.old inputs.now ≡ Some self.new) }
    {
        gather_each(&mut self.values, aggregates, inputs)
    }

    /// The running values.
    pub fn as_slice(&self) -> &[Value<'r>]
        ensures { result.now ≡ self.now }
    {
        self.values.as_slice()
    }
}
