//! Operations on one value.
ghost use Rattle.std.specs.Prelude.{◌≡◌, ◌≢◌, Some, None, IfOk, map, option_map};
ghost use Rattle.plain_machine.specs.Loading.{unary_of};
ghost use Rattle.plain_machine.specs.Pool.{members_in, pattern_in};
ghost use Rattle.query_code.specs.declared.instruction.Unary.TheVariants.{Match, Neg};
ghost use Rattle.query_sections.specs.Reading.{MayBeIn};
ghost use Rattle.query_values.specs.Choice.{text_choice};
ghost use Rattle.query_values.specs.Operation.{is_among};

use crate::finders::Finders;
use query_code::{Constant, TextList, Unary};
use query_values::arithmetic::{abs, align};
use query_values::comparison::{is_null, is_true};
use query_values::membership::{in_days, in_numbers};
use query_values::{Value, part};
use std::alloc::{AllocError, Global};

/// Whether a text is one of these.
fn in_texts(x: &Value<'_>, texts: &TextList<'_>) -> bool
    ensures { result ≡ is_among (map text_choice texts.now) x.now }
{
    match x {
        Value::Text(text) => texts.has(text.text()),
        _ => false,
    }
}

/// Whether a value is one of a list of the pool.
fn in_list(x: &Value<'_>, list: &Constant<'_>) -> bool
    requires { MayBeIn list.now x.now }
    ensures { option_map (λ ys. is_among ys x.now) (members_in list.now) ≡ Some result }
{
    match list {
        Constant::Texts(texts) => in_texts(x, texts),
        Constant::Numbers(numbers) => in_numbers(x, numbers.places, numbers.counts.as_slice()),
        Constant::Days(days) => in_days(x, days.as_slice()),
        _ => unreachable!(),
    }
}

/// What an operation other than the change of sign gives, where it may be applied and the result
/// can be held.
fn applied<'r>(
    alloc: Global,
    finders: &mut Finders<'r>,
    pool: &[Constant<'_>],
    op: Unary,
    x: &Value<'r>,
) -> Result<Value<'r>, AllocError>
    requires built { finders.old ≡ map pattern_in pool.now }
    requires fine { unary_of pool.now op x.now ≢ None }
    requires other { op ≢ Neg }
    ensures value { IfOk result (λ y. unary_of pool.now op x.now ≡ Some y) }
    ensures same { finders.new ≡ finders.old }
{
    match op {
        Unary::Align(places) => Ok(align(x, places)),
        Unary::Neg => unreachable!(),
        Unary::Abs => Ok(abs(x)),
        Unary::Not => Ok(Value::Truth(!is_true(x))),
        Unary::IsNull => Ok(Value::Truth(is_null(x))),
        Unary::Match(place) => Ok(Value::Truth(finders.matches(place, x))),
        Unary::MatchAny(place) => Ok(Value::Truth(finders.matches_any(place, x))),
        Unary::InList(place) => Ok(Value::Truth(in_list(x, &pool[place as usize]))),
        Unary::Year => Ok(part::year(x)),
        Unary::Month => Ok(part::month(x)),
        Unary::Day => Ok(part::day(x)),
        Unary::Root(components) => Ok(part::root(x, components)),
        Unary::Parent => Ok(part::parent(x)),
        Unary::Leaf => Ok(part::leaf(x)),
        Unary::Length => Ok(part::length(x)),
        Unary::Units => part::units(alloc, x),
        Unary::Cost => part::cost(alloc, x),
        Unary::Number => Ok(part::number(x)),
        Unary::Currency => Ok(part::currency(x)),
        Unary::RootRank => Ok(part::root_rank(x)),
    }
}

/// Whether a text has the pattern at a place of the pool, as most filters ask of each posting.
#[inline(always)]
pub fn apply_match<'r>(
    finders: &mut Finders<'r>,
    pool: &[Constant<'_>],
    place: u16,
    x: &Value<'r>,
) -> Value<'r>
    requires built { finders.old ≡ map pattern_in pool.now }
    requires fine { unary_of pool.now (Match place) x.now ≢ None }
    ensures value { unary_of pool.now (Match place) x.now ≡ Some result }
    ensures same { finders.new ≡ finders.old }
{
    Value::Truth(finders.matches(place, x))
}

/// What an operation gives, where it may be applied and the result can be held. An inventory whose
/// sign changes keeps its memory.
pub fn apply_unary<'r>(
    alloc: Global,
    finders: &mut Finders<'r>,
    pool: &[Constant<'_>],
    op: Unary,
    x: Value<'r>,
) -> Result<Value<'r>, AllocError>
    requires built { finders.old ≡ map pattern_in pool.now }
    requires fine { unary_of pool.now op x ≢ None }
    ensures value { IfOk result (λ y. unary_of pool.now op x.entry ≡ Some y) }
    ensures same { finders.new ≡ finders.old }
{
    match op {
        Unary::Neg => Ok(x.negated()),
        _ => applied(alloc, finders, pool, op, &x),
    }
}
