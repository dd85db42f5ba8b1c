//! The shapes that functions give, and the aggregates that some of them are.
ghost use Rattle.std.specs.Prelude.{◌≡◌};
ghost use Rattle.std.specs.List.{list_all};
ghost use Rattle.bql_rules.specs.Rules as rule;

use bql_tree::Function;
use limits::Bounds;
use query_rows::rules::{
    aligned, cost_of, currency_of, length_of, magnitude_of, number_of, of_day, of_text, units_of,
    whole,
};
use query_rows::{Misfit, Shape, aggregate_shape};
use query_values::Aggregate;

/// The aggregate that sums values of the shape: numbers to a number, others to an inventory.
fn sum_over(shape: Shape) -> Aggregate
    ensures { result ≡ rule.sum_over shape }
{
    match shape {
        Shape::Number { places, .. } => Aggregate::Sum(places),
        Shape::Amount { places, .. } => Aggregate::SumInventory(places),
        _ => Aggregate::SumInventory(8),
    }
}

/// The aggregate that sums what has one shape; an inventory where it has none.
fn summing(shape: Option<Shape>) -> Aggregate
    ensures { result ≡ rule.summing shape }
{
    match shape {
        Some(shape) => sum_over(shape),
        None => Aggregate::SumInventory(8),
    }
}

/// The aggregate that a function is, if it is one, over values of one shape, or of none.
pub fn aggregate_for(function: Function, shape: Option<Shape>) -> Option<Aggregate>
    ensures { result ≡ rule.aggregate_for function shape }
{
    match function {
        Function::Count => Some(Aggregate::Count),
        Function::Sum => Some(summing(shape)),
        Function::First => Some(Aggregate::First),
        Function::Last => Some(Aggregate::Last),
        Function::Min => Some(Aggregate::Min),
        Function::Max => Some(Aggregate::Max),
        _ => None,
    }
}

/// What an aggregate function gives, over at most so many values of the shape.
fn gathered(postings: u32, function: Function, shape: Shape) -> Result<Shape, Misfit>
    ensures { result ≡ rule.gathered postings function shape }
{
    match aggregate_for(function, Some(shape)) {
        Some(aggregate) => aggregate_shape(postings, aggregate, Some(shape)),
        None => Err(Misfit::Kind),
    }
}

/// What a function of one argument gives.
fn of_one(postings: u32, function: Function, shape: Shape) -> Result<Shape, Misfit>
    ensures { result ≡ rule.of_one postings function shape }
{
    match function {
        Function::Parent | Function::Leaf => of_text(Shape::Text, shape),
        Function::Length => length_of(shape),
        Function::Units => units_of(shape),
        Function::Cost => cost_of(shape),
        Function::Year => of_day(whole(9999), shape),
        Function::Month => of_day(whole(12), shape),
        Function::Day => of_day(whole(31), shape),
        Function::Number => number_of(shape),
        Function::Currency => currency_of(shape),
        Function::Abs => magnitude_of(shape),
        Function::RootRank => of_text(whole(5), shape),
        _ => gathered(postings, function, shape),
    }
}

/// Whether both are texts, days or numbers.
fn are_alike(a: Shape, b: Shape) -> bool
    ensures { result ≡ rule.are_alike a b }
{
    matches!(
        (a, b),
        (Shape::Text, Shape::Text)
            | (Shape::Day, Shape::Day)
            | (Shape::Number { .. }, Shape::Number { .. })
    )
}

/// The decimals of numbers, and 0 of all else.
fn places_of(shape: Shape) -> u8
    ensures { result ≡ rule.places_of shape }
{
    match shape {
        Shape::Number { places, .. } => places,
        _ => 0,
    }
}

/// The greatest count of decimals.
fn greatest_places(first: Shape, others: &[Shape]) -> u8
    ensures { result ≡ rule.greatest_places first others.now }
{
    others.iter().fold(places_of(first), |most, shape| most.max(places_of(*shape)))
}

/// Whether a value keeps its kind with so many decimals, if it is a number.
fn is_held_with(places: u8, shape: Shape) -> bool
    ensures { result ≡ rule.is_held_with places shape }
{
    match shape {
        Shape::Number { .. } => aligned(places, shape).is_ok(),
        _ => true,
    }
}

fn are_all_alike(first: Shape, others: &[Shape]) -> bool
    ensures { result ≡ list_all (rule.are_alike first) others.now }
{
    others.iter().all(|shape| are_alike(first, *shape))
}

fn are_all_held_with(places: u8, shapes: &[Shape]) -> bool
    ensures { result ≡ list_all (rule.is_held_with places) shapes.now }
{
    shapes.iter().all(|shape| is_held_with(places, *shape))
}

/// What `IN` with a list gives: numbers are brought to the greatest count of decimals.
fn one_of(first: Shape, others: &[Shape]) -> Result<Shape, Misfit>
    ensures { result ≡ rule.one_of first others.now }
{
    if !are_alike(first, first) || !are_all_alike(first, others) {
        return Err(Misfit::Kind);
    }
    let places = greatest_places(first, others);
    if is_held_with(places, first) && are_all_held_with(places, others) {
        Ok(Shape::Truth)
    } else {
        Err(Misfit::TooWide)
    }
}

/// What `IN` with a list gives: what is looked for stands first.
fn listed(arguments: &[Shape]) -> Result<Shape, Misfit>
    ensures { result ≡ rule.listed arguments.now }
{
    match arguments {
        [] => Err(Misfit::Kind),
        [first, others @ ..] => one_of(*first, others),
    }
}

/// What a function of one argument gives on these.
fn single(postings: u32, function: Function, arguments: &[Shape]) -> Result<Shape, Misfit>
    ensures { result ≡ rule.single postings function arguments.now }
{
    match arguments {
        [shape] => of_one(postings, function, *shape),
        _ => Err(Misfit::Kind),
    }
}

/// What a function gives on arguments of these shapes.
pub fn call_shape(bounds: &Bounds, function: Function, arguments: &[Shape]) -> Result<Shape, Misfit>
    ensures { result ≡ rule.call_shape bounds.now function arguments.now }
{
    match function {
        Function::OneOf => listed(arguments),
        _ => single(bounds.postings, function, arguments),
    }
}
