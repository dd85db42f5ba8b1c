//! Which expressions have a shape, and what keeps the others from it.
ghost use Rattle.std.specs.Prelude.{◌≡◌, IfOk, [], ◌∷◌, Some};
ghost use Rattle.query_rows.specs.ColumnShape.{AreBounds};
ghost use Rattle.bql_tree.specs.Tree.{leaf_of, one_of, two_of, call_of, tree_of, trees_of};
ghost use Rattle.bql_types.specs.Shaped as rule;
ghost use Rattle.bql_types.specs.Seen as seen_rule;

use crate::cause::{TypeCause, TypeCauseKind, sooner};
use bql_rules::{binary_shape, call_shape, leaf_shape, unary_shape};
use bql_tree::{BinaryOperator, Expr, Function, Leaf, UnaryOperator};
use limits::Bounds;
use query_rows::{Misfit, Shape};
use std::alloc::{AllocError, Global};

/// What is known of a part of an operation.
#[derive(Clone, Copy, Drop, PartialEq, Eq)]
pub(crate) enum Operand {
    /// A NULL that may stand there.
    Null,
    Shaped(Shape),
    /// It has no shape.
    Shapeless,
}

/// The shape of an expression, if it has one, and the least cause that was found so far.
#[derive(Clone, Copy, Drop)]
pub(crate) struct Seen {
    pub shape: Option<Shape>,
    pub found: Option<TypeCause>,
}

/// The same of a part of an operation.
#[derive(Clone, Copy, Drop)]
pub(crate) struct SeenPart {
    pub operand: Operand,
    pub found: Option<TypeCause>,
}

/// The same of the parts of a call: their shapes, if all have one.
#[derive(Drop)]
pub(crate) struct SeenAll {
    pub shapes: Option<Vec<Shape>>,
    pub found: Option<TypeCause>,
}

fn kind_of(misfit: Misfit) -> TypeCauseKind
    ensures { result ≡ rule.kind_of misfit }
{
    match misfit {
        Misfit::Kind => TypeCauseKind::KindClash,
        Misfit::TooWide => TypeCauseKind::TooWide,
    }
}

/// An operation to which its rule gave this, or nothing where a part has no shape.
fn concluded(place: usize, ruled: Option<Result<Shape, Misfit>>, found: Option<TypeCause>) -> Seen
    ensures { result ≡ seen_rule.concluded place ruled found }
{
    match ruled {
        Some(Ok(shape)) => Seen {
            shape: Some(shape),
            found,
        },
        Some(Err(misfit)) => Seen {
            shape: None,
            found: sooner(found, TypeCause::at(kind_of(misfit), place)),
        },
        None => Seen { shape: None, found },
    }
}

/// Whether it is a NULL.
pub fn is_null(e: &Expr<'_>) -> bool
    ensures { result ≡ rule.is_null (tree_of e.now) }
{
    match e {
        Expr::Leaf(_, Leaf::Null) => true,
        _ => false,
    }
}

/// Whether it is `=` or `!=`.
fn is_equality(op: BinaryOperator) -> bool
    ensures { result ≡ rule.is_equality op }
{
    op == BinaryOperator::Equal || op == BinaryOperator::NotEqual
}

/// What an operation between a value and a NULL gives.
fn beside_null(op: BinaryOperator) -> Result<Shape, Misfit>
    ensures { result ≡ rule.beside_null op }
{
    if is_equality(op) {
        Ok(Shape::Truth)
    } else {
        Err(Misfit::Kind)
    }
}

/// What an operation on one part gives, if it has a shape.
fn before(op: &UnaryOperator<'_>, x: Option<Shape>) -> Option<Result<Shape, Misfit>>
    ensures { result ≡ seen_rule.before op.now x }
{
    match x {
        Some(shape) => Some(unary_shape(op, shape)),
        None => None,
    }
}

/// What an operation between two parts gives, if they have shapes.
fn between(op: BinaryOperator, x: Operand, y: Operand) -> Option<Result<Shape, Misfit>>
    ensures { result ≡ seen_rule.between op x y }
{
    match (x, y) {
        (Operand::Shaped(s), Operand::Shaped(t)) => Some(binary_shape(op, s, t)),
        (Operand::Shaped(_), Operand::Null) => Some(beside_null(op)),
        (Operand::Null, Operand::Shaped(_)) => Some(beside_null(op)),
        (Operand::Null, Operand::Null) => Some(Err(Misfit::Kind)),
        _ => None,
    }
}

/// One more shape behind those of the parts before, if all have one.
fn one_more(
    shapes: Option<Vec<Shape>>,
    shape: Option<Shape>,
) -> Result<Option<Vec<Shape>>, AllocError>
    ensures { IfOk result (λ r. seen_rule.list_of r
        ≡ seen_rule.one_more (seen_rule.list_of shapes) shape) }
{
    match (shapes, shape) {
        (Some(mut shapes), Some(shape)) => {
            shapes.push(shape)?;
            Ok(Some(shapes))
        }
        _ => Ok(None),
    }
}

/// What a function gives on its parts, if they have shapes.
fn called(
    bounds: &Bounds,
    function: Function,
    shapes: Option<Vec<Shape>>,
) -> Option<Result<Shape, Misfit>>
    ensures { result ≡ rule.ruled bounds.now (call_of function) (seen_rule.list_of shapes) }
{
    match shapes {
        Some(shapes) => Some(call_shape(bounds, function, shapes.as_slice())),
        None => None,
    }
}

/// The shape of an expression, and the least of its causes and of those found before.
#[cycle(shaped)]
pub(crate) fn look(
    alloc: Global,
    bounds: &Bounds,
    e: &Expr<'_>,
    found: Option<TypeCause>,
) -> Result<Seen, AllocError>
    requires { AreBounds bounds.now }
    ensures { IfOk result (λ r. r ≡ seen_rule.seen bounds.now found (tree_of e.now)) }
{
    match e {
        Expr::Leaf(place, leaf) => Ok(concluded(*place, Some(leaf_shape(bounds, leaf)), found)),
        Expr::One(place, op, x) => {
            let x = look(alloc, bounds, x, found)?;
            Ok(concluded(*place, before(op, x.shape), x.found))
        }
        Expr::Two(place, op, x, y) => {
            let x = look_at_side(alloc, bounds, *op, x, found)?;
            let y = look_at_side(alloc, bounds, *op, y, x.found)?;
            Ok(concluded(*place, between(*op, x.operand, y.operand), y.found))
        }
        Expr::Call(place, function, arguments) => {
            let all = look_at_all(alloc, bounds, arguments, found)?;
            let found = all.found;
            Ok(concluded(*place, called(bounds, *function, all.shapes), found))
        }
    }
}

/// The same of a side of an operation, of which an equation may have a NULL.
#[cycle(shaped)]
fn look_at_side(
    alloc: Global,
    bounds: &Bounds,
    op: BinaryOperator,
    e: &Expr<'_>,
    found: Option<TypeCause>,
) -> Result<SeenPart, AllocError>
    requires { AreBounds bounds.now }
    ensures { IfOk result (λ r. r ≡ seen_rule.seen_part bounds.now op found (tree_of e.now)) }
{
    if is_equality(op) && is_null(e) {
        return Ok(SeenPart {
            operand: Operand::Null,
            found,
        });
    }
    let e = look(alloc, bounds, e, found)?;
    let operand = match e.shape {
        Some(shape) => Operand::Shaped(shape),
        None => Operand::Shapeless,
    };
    Ok(SeenPart {
        operand,
        found: e.found,
    })
}

/// The same of the parts of a call.
#[cycle(shaped)]
pub(crate) fn look_at_all(
    alloc: Global,
    bounds: &Bounds,
    es: &[Expr<'_>],
    found: Option<TypeCause>,
) -> Result<SeenAll, AllocError>
    requires { AreBounds bounds.now }
    ensures { IfOk result (λ r. seen_rule.all_of r
        ≡ seen_rule.seen_all bounds.now found (trees_of es.now)) }
{
    let mut shapes = Some(Vec::new(alloc));
    let mut found = found;
    for e in es {
        let e = look(alloc, bounds, e, found)?;
        found = e.found;
        shapes = one_more(shapes, e.shape)?;
    }
    Ok(SeenAll { shapes, found })
}

/// The shape of an expression, if it has one.
pub fn shape_in(alloc: Global, bounds: &Bounds, e: &Expr<'_>) -> Result<Option<Shape>, AllocError>
    requires { AreBounds bounds.now }
    ensures { IfOk result (λ r. r ≡ rule.shape_of bounds.now (tree_of e.now)) }
{
    let seen = look(alloc, bounds, e, None)?;
    Ok(seen.shape)
}
