//! What stands at the front of some tokens, and what stands behind it.
ghost use Rattle.std.specs.Prelude.{◌≡◌, ◌<◌, ◌∷◌, [], None, Some, length, MatchOption, IfSome};
ghost use Rattle.bql_grammar.specs.Front as rule;
ghost use Rattle.bql_grammar.specs.Front.{front};

use bean_base::parse_day;
use bql_lexer::{Kind, Token};
use bql_tree::level::{Level, comparison_of, sign_of};
use bql_tree::number::number;
use bql_tree::{BinaryOperator, Leaf};

/// The first token, and what stands behind it.
fn next<'t, 'a>(tokens: &'t [Token<'a>]) -> Option<(&'t Token<'a>, &'t [Token<'a>])>
    ensures front { MatchOption result (tokens.now ≡ [])
        (λ r. tokens.now ≡ r.0.now ∷ r.1.now) }
    ensures shorter { IfSome result (λ r. length r.1.now < length tokens.now) }
{
    let (first, rest) = tokens.split_first()?;
    Some((first, rest))
}

/// The first token, if it is of the kind.
pub fn after<'t, 'a>(
    tokens: &'t [Token<'a>],
    kind: Kind,
) -> Option<(&'t Token<'a>, &'t [Token<'a>])>
    ensures front { MatchOption result (front (rule.of_kind kind) tokens.now ≡ None)
        (λ r. front (rule.of_kind kind) tokens.now ≡ Some (r.0.now, r.1.now)) }
    ensures shorter { IfSome result (λ r. length r.1.now < length tokens.now) }
{
    let (first, rest) = next(tokens)?;
    if first.kind == kind {
        Some((first, rest))
    } else {
        None
    }
}

/// The operator of a level at the front.
pub fn after_operator<'t, 'a>(
    tokens: &'t [Token<'a>],
    level: Level,
) -> Option<(BinaryOperator, &'t [Token<'a>])>
    ensures front { MatchOption result (front (rule.operator level) tokens.now ≡ None)
        (λ r. front (rule.operator level) tokens.now ≡ Some (r.0, r.1.now)) }
    ensures shorter { IfSome result (λ r. length r.1.now < length tokens.now) }
{
    let (first, rest) = next(tokens)?;
    let operator = level.operator(first.kind)?;
    Some((operator, rest))
}

/// The comparison at the front.
pub fn after_comparison<'t, 'a>(
    tokens: &'t [Token<'a>],
) -> Option<(BinaryOperator, &'t [Token<'a>])>
    ensures front { MatchOption result (front rule.comparison tokens.now ≡ None)
        (λ r. front rule.comparison tokens.now ≡ Some (r.0, r.1.now)) }
    ensures shorter { IfSome result (λ r. length r.1.now < length tokens.now) }
{
    let (first, rest) = next(tokens)?;
    let operator = comparison_of(first.kind)?;
    Some((operator, rest))
}

/// The sign at the front, and whether it is a minus.
pub fn after_sign<'t, 'a>(tokens: &'t [Token<'a>]) -> Option<(&'t Token<'a>, bool, &'t [Token<'a>])>
    ensures front { MatchOption result (front rule.sign tokens.now ≡ None)
        (λ r. front rule.sign tokens.now ≡ Some ((r.0.now, r.1), r.2.now)) }
    ensures shorter { IfSome result (λ r. length r.2.now < length tokens.now) }
{
    let (first, rest) = next(tokens)?;
    let is_minus = sign_of(first.kind)?;
    Some((first, is_minus, rest))
}

/// The literal that a token is. A day that the calendar lacks is none.
fn literal_of<'a>(token: &Token<'a>) -> Option<Leaf<'a>>
    ensures { result ≡ rule.leaf_of token.now }
{
    match token.kind {
        Kind::Number => Some(number(token.text.text())),
        Kind::Text => Some(Leaf::Text(token.text.lend())),
        Kind::Day => match parse_day(token.text.text()) {
            Ok(day) => Some(Leaf::Day(day)),
            Err(_) => None,
        },
        Kind::True => Some(Leaf::Truth(true)),
        Kind::False => Some(Leaf::Truth(false)),
        Kind::Null => Some(Leaf::Null),
        _ => None,
    }
}

/// The literal at the front, with its token.
pub fn after_literal<'t, 'a>(
    tokens: &'t [Token<'a>],
) -> Option<(&'t Token<'a>, Leaf<'a>, &'t [Token<'a>])>
    ensures front { MatchOption result (front rule.literal tokens.now ≡ None)
        (λ r. front rule.literal tokens.now ≡ Some ((r.0.now, r.1), r.2.now)) }
    ensures shorter { IfSome result (λ r. length r.2.now < length tokens.now) }
{
    let (first, rest) = next(tokens)?;
    let literal = literal_of(first)?;
    Some((first, literal, rest))
}

/// Whether IN stands at the front with a list behind it: a parenthesis with a literal and then a
/// comma or a parenthesis.
pub fn begins_with_list(tokens: &[Token<'_>]) -> bool
    ensures { result ≡ rule.begins_with_list tokens.now }
{
    let Some((_, rest)) = after(tokens, Kind::In) else {
        return false;
    };
    let Some((_, rest)) = after(rest, Kind::OpenParenthesis) else {
        return false;
    };
    let Some(found) = after_literal(rest) else {
        return false;
    };
    let (_token, _literal, rest) = found;
    after(rest, Kind::Comma).is_some() || after(rest, Kind::CloseParenthesis).is_some()
}

/// Whether a name stands at the front with a parenthesis behind it.
pub fn begins_with_call(tokens: &[Token<'_>]) -> bool
    ensures { result ≡ rule.begins_with_call tokens.now }
{
    match after(tokens, Kind::Name) {
        Some((_, rest)) => after(rest, Kind::OpenParenthesis).is_some(),
        None => false,
    }
}
