//! What stands at the front of a list of tokens, and what stands behind it.
ghost use Rattle.std.specs.Prelude.{◌≡◌, ◌<◌, ◌-◌, [], ◌∷◌, false, length, drop, take, get_or};
ghost use Rattle.std.specs.Prelude.{IsTrue, MatchOption, IfSome};
ghost use Rattle.bean_base.specs.Day.{is_day_form};
ghost use Rattle.bean_base.specs.Numeral.{is_number};
ghost use Rattle.bean_lexer.specs.TokenForm.{is_text, is_key};
ghost use Rattle.bean_grammar.specs.Lexeme as lexeme;
ghost use Rattle.bean_grammar.specs.Lexeme.{lexeme_of, lexemes, plus_or_minus};
ghost use Rattle.bean_grammar.specs.Lexeme.{begins_with_day, begins_with_number, begins_with_text};
ghost use Rattle.bean_grammar.specs.Lexeme.{begins_with_account, begins_with_currency};
ghost use Rattle.bean_grammar.specs.Lexeme.{begins_with_tag, begins_with_link, begins_with_key};
ghost use Rattle.bean_grammar.specs.Lexeme.{begins_with_keyword, begins_with_sign};
ghost use Rattle.bean_grammar.specs.Lexeme.{begins_with_plus_or_minus};

use crate::names::{Link, MetaKey, Tag};
use bean_base::{Account, Currency};
use bean_lexer::{Keyword, Kind, Sign, Token};

/// The first token, and what stands behind it.
pub fn next<'t, 'a>(tokens: &'t [Token<'a>]) -> Option<(&'t Token<'a>, &'t [Token<'a>])>
    ensures front { MatchOption result (lexemes tokens.now ≡ [])
        (λ r. lexemes tokens.now ≡ lexeme_of r.0.now ∷ lexemes r.1.now) }
    ensures shorter { IfSome result (λ r. length r.1.now < length tokens.now) }
{
    let (first, rest) = tokens.split_first()?;
    Some((first, rest))
}

/// What stands behind a word at the front.
pub fn after_keyword<'t, 'a>(tokens: &'t [Token<'a>], word: Keyword) -> Option<&'t [Token<'a>]>
    ensures front { MatchOption result (begins_with_keyword word (lexemes tokens.now) ≡ false)
        (λ r. lexemes tokens.now ≡ lexeme.Keyword word ∷ lexemes r.now) }
    ensures shorter { IfSome result (λ r. length r.now < length tokens.now) }
{
    let (token, rest) = next(tokens)?;
    match token.kind {
        Kind::Keyword(found) if found == word => Some(rest),
        _ => None,
    }
}

/// What stands behind a sign at the front.
pub fn after_sign<'t, 'a>(tokens: &'t [Token<'a>], mark: Sign) -> Option<&'t [Token<'a>]>
    ensures front { MatchOption result (begins_with_sign mark (lexemes tokens.now) ≡ false)
        (λ r. lexemes tokens.now ≡ lexeme.Sign mark ∷ lexemes r.now) }
    ensures shorter { IfSome result (λ r. length r.now < length tokens.now) }
{
    let (token, rest) = next(tokens)?;
    match token.kind {
        Kind::Sign(found) if found == mark => Some(rest),
        _ => None,
    }
}

/// The day at the front, as it is written, and what stands behind it.
pub fn after_day<'t, 'a>(tokens: &'t [Token<'a>]) -> Option<(&'a str, &'t [Token<'a>])>
    ensures front { MatchOption result (begins_with_day (lexemes tokens.now) ≡ false)
        (λ r. lexemes tokens.now ≡ lexeme.Day r.0.now ∷ lexemes r.1.now) }
    ensures form { IfSome result (λ r. IsTrue (is_day_form r.0.now)) }
    ensures shorter { IfSome result (λ r. length r.1.now < length tokens.now) }
{
    let (token, rest) = next(tokens)?;
    match token.kind {
        Kind::Day => Some((token.text.text(), rest)),
        _ => None,
    }
}

/// The number at the front, as it is written, and what stands behind it.
pub fn after_number<'t, 'a>(tokens: &'t [Token<'a>]) -> Option<(&'a str, &'t [Token<'a>])>
    ensures front { MatchOption result (begins_with_number (lexemes tokens.now) ≡ false)
        (λ r. lexemes tokens.now ≡ lexeme.Number r.0.now ∷ lexemes r.1.now) }
    ensures form { IfSome result (λ r. IsTrue (is_number r.0.now)) }
    ensures shorter { IfSome result (λ r. length r.1.now < length tokens.now) }
{
    let (token, rest) = next(tokens)?;
    match token.kind {
        Kind::Number => Some((token.text.text(), rest)),
        _ => None,
    }
}

/// The text at the front, as it is written, and what stands behind it.
pub fn after_text<'t, 'a>(tokens: &'t [Token<'a>]) -> Option<(&'a str, &'t [Token<'a>])>
    ensures front { MatchOption result (begins_with_text (lexemes tokens.now) ≡ false)
        (λ r. lexemes tokens.now ≡ lexeme.Text r.0.now ∷ lexemes r.1.now) }
    ensures form { IfSome result (λ r. IsTrue (is_text r.0.now)) }
    ensures shorter { IfSome result (λ r. length r.1.now < length tokens.now) }
{
    let (token, rest) = next(tokens)?;
    match token.kind {
        Kind::Text => Some((token.text.text(), rest)),
        _ => None,
    }
}

/// The account at the front, and what stands behind it.
pub fn after_account<'t, 'a>(tokens: &'t [Token<'a>]) -> Option<(Account<'a>, &'t [Token<'a>])>
    ensures front { MatchOption result (begins_with_account (lexemes tokens.now) ≡ false)
        (λ r. lexemes tokens.now ≡ lexeme.Account r.0 ∷ lexemes r.1.now) }
    ensures shorter { IfSome result (λ r. length r.1.now < length tokens.now) }
{
    let (token, rest) = next(tokens)?;
    match token.kind {
        Kind::Account => Some((Account::new(token.text.text()), rest)),
        _ => None,
    }
}

/// The currency at the front, and what stands behind it.
pub fn after_currency<'t, 'a>(tokens: &'t [Token<'a>]) -> Option<(Currency<'a>, &'t [Token<'a>])>
    ensures front { MatchOption result (begins_with_currency (lexemes tokens.now) ≡ false)
        (λ r. lexemes tokens.now ≡ lexeme.Currency r.0 ∷ lexemes r.1.now) }
    ensures shorter { IfSome result (λ r. length r.1.now < length tokens.now) }
{
    let (token, rest) = next(tokens)?;
    match token.kind {
        Kind::Currency => Some((Currency::new(token.text.text()), rest)),
        _ => None,
    }
}

/// What stands behind the sign of a tag or a link.
pub fn behind_sign(marked: &str) -> &str
    requires some { 0 < length marked.now }
    requires ascii { get_or marked.now 0 0 < 128 }
    ensures { result.now ≡ drop 1 marked.now }
{
    &marked[1..]
}

/// What stands before the colon of a key.
fn before_colon(key: &str) -> &str
    requires { IsTrue (is_key key.now) }
    ensures { result.now ≡ take (length key.now - 1) key.now }
{
    &key[..key.len() - 1]
}

/// The tag at the front, and what stands behind it.
pub fn after_tag<'t, 'a>(tokens: &'t [Token<'a>]) -> Option<(Tag<'a>, &'t [Token<'a>])>
    ensures front { MatchOption result (begins_with_tag (lexemes tokens.now) ≡ false)
        (λ r. lexemes tokens.now ≡ lexeme.Tag r.0 ∷ lexemes r.1.now) }
    ensures shorter { IfSome result (λ r. length r.1.now < length tokens.now) }
{
    let (token, rest) = next(tokens)?;
    match token.kind {
        Kind::Tag => Some((Tag::new(behind_sign(token.text.text())), rest)),
        _ => None,
    }
}

/// The link at the front, and what stands behind it.
pub fn after_link<'t, 'a>(tokens: &'t [Token<'a>]) -> Option<(Link<'a>, &'t [Token<'a>])>
    ensures front { MatchOption result (begins_with_link (lexemes tokens.now) ≡ false)
        (λ r. lexemes tokens.now ≡ lexeme.Link r.0 ∷ lexemes r.1.now) }
    ensures shorter { IfSome result (λ r. length r.1.now < length tokens.now) }
{
    let (token, rest) = next(tokens)?;
    match token.kind {
        Kind::Link => Some((Link::new(behind_sign(token.text.text())), rest)),
        _ => None,
    }
}

/// The key at the front, and what stands behind it.
pub fn after_key<'t, 'a>(tokens: &'t [Token<'a>]) -> Option<(MetaKey<'a>, &'t [Token<'a>])>
    ensures front { MatchOption result (begins_with_key (lexemes tokens.now) ≡ false)
        (λ r. lexemes tokens.now ≡ lexeme.Key r.0 ∷ lexemes r.1.now) }
    ensures shorter { IfSome result (λ r. length r.1.now < length tokens.now) }
{
    let (token, rest) = next(tokens)?;
    match token.kind {
        Kind::Key => Some((MetaKey::new(before_colon(token.text.text())), rest)),
        _ => None,
    }
}

/// Whether a sign of a number at the front is a minus, and what stands behind it.
pub fn after_plus_or_minus<'t, 'a>(tokens: &'t [Token<'a>]) -> Option<(bool, &'t [Token<'a>])>
    ensures front { MatchOption result (begins_with_plus_or_minus (lexemes tokens.now) ≡ false)
        (λ r. lexemes tokens.now ≡ plus_or_minus r.0 ∷ lexemes r.1.now) }
    ensures shorter { IfSome result (λ r. length r.1.now < length tokens.now) }
{
    let (token, rest) = next(tokens)?;
    match token.kind {
        Kind::Sign(Sign::Plus) => Some((false, rest)),
        Kind::Sign(Sign::Minus) => Some((true, rest)),
        _ => None,
    }
}
