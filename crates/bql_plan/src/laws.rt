//! Laws of plans.
ghost use Rattle.bql_plan.specs.Laws.{OrderIsShown, AggregatesAreCounted, KeysAreFound};
ghost use Rattle.bql_plan.specs.Whole.{TypedAreWhole};

/// Whatever orders rows is shown or hidden, whatever is gathered is counted, and whatever is a key
/// stands among the keys: at its index stands an expression that is the same.
pub fn plans_have_all_that_is_asked()
    ensures order { OrderIsShown }
    ensures aggregates { AggregatesAreCounted }
    ensures keys { KeysAreFound }
{}

/// Each expression of a query that has a type has a shape, and so has each of its parts, but for a
/// NULL that is a side of an equation.
pub fn typed_queries_have_whole_shapes()
    ensures { TypedAreWhole }
{}
