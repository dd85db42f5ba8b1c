//! Queries that have a type.
ghost use Rattle.bql_parser.specs.Answer.{query_of};
ghost use Rattle.query_rows.specs.ColumnShape.{AreBounds};
ghost use Rattle.bql_types.specs.Typing.{IsTyped};

use bql_parser::Query;
use limits::Bounds;

/// A query that has a type within bounds: each of its expressions has a shape, and what it asks
/// stands where it may.
#[derive(Drop)]
pub struct Typed<'q, 'a> {
    pub query: &'q Query<'a>,
    pub bounds: Bounds,
    ghost within: { AreBounds bounds },
    ghost has_type: { IsTyped bounds (query_of query.now) },
}
