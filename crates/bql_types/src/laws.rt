//! Laws of the definitions.
ghost use Rattle.bql_types.specs.Laws.{LeastIsTold, NoneIsTold, ShapesAreFound, ShapesHaveNoCauses};
ghost use Rattle.bql_types.specs.Laws.{TypedIsNotRefused, OneRefusal, TypedHaveShapes};
ghost use Rattle.bql_types.specs.Laws.{JournalsAreTyped, BalancesAreTyped};
ghost use Rattle.bql_types.specs.Laws.{SameHaveOneShape, SameHaveCausesAlike};

/// Of some causes one is told that no other stands before, and none only where there is none.
pub fn least_causes_are_told()
    ensures told { LeastIsTold }
    ensures none { NoneIsTold }
{}

/// An expression has a shape exactly where it has no cause for which it has none.
pub fn expressions_have_shapes_or_causes()
    ensures shapes { ShapesAreFound }
    ensures causes { ShapesHaveNoCauses }
{}

/// Expressions that are the same have one shape, or none for the same causes, wherever they stand.
pub fn same_expressions_have_one_shape()
    ensures shape { SameHaveOneShape }
    ensures causes { SameHaveCausesAlike }
{}

/// A query has a type or it is refused, in one way.
pub fn queries_are_answered_in_one_way()
    ensures apart { TypedIsNotRefused }
    ensures once { OneRefusal }
{}

/// What a typed query asks has shapes: its filters are truth values, and rows can be ordered by
/// what orders them.
pub fn typed_queries_have_shapes()
    ensures { TypedHaveShapes }
{}

/// Of a JOURNAL and a BALANCES only what is written of their filters can be at fault: what they
/// show, and what their rows are grouped and ordered by, has a type within all bounds.
pub fn only_filters_are_at_fault()
    ensures journals { JournalsAreTyped }
    ensures balances { BalancesAreTyped }
{}
