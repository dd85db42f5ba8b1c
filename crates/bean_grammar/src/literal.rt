//! Days and texts at the front of a list of tokens.
ghost use Rattle.std.specs.Prelude.{◌≡◌, ◌<◌, length, MatchOption, IfSome, IsTrue, false};
ghost use Rattle.theory.specs.Form.{Reads, due};
ghost use Rattle.bean_base.specs.Day.{is_day_form};
ghost use Rattle.bean_lexer.specs.TokenForm.{is_text};
ghost use Rattle.bean_grammar.specs.Lexeme.{lexemes, begins_with_day, begins_with_text};
ghost use Rattle.bean_grammar.specs.Literal as rule;

use crate::front::{after_day, after_text};
use crate::ranged::Ranged;
use bean_base::{Day, Text, day_of_form};
use bean_lexer::Token;

/// The day that a token writes, where the calendar has it.
pub fn day_of(written: &str) -> Ranged<Day>
    requires { IsTrue (is_day_form written.now) }
    ensures { rule.IsDay written.now result }
{
    match day_of_form(written) {
        Ok(day) => Ranged::Within(day),
        Err(_) => Ranged::Outside,
    }
}

/// The day at the front, and what stands behind it.
pub fn day<'t, 'a>(tokens: &'t [Token<'a>]) -> Option<(Ranged<Day>, &'t [Token<'a>])>
    ensures read { MatchOption result (begins_with_day (lexemes tokens.now) ≡ false)
        (λ r. Reads rule.day (lexemes tokens.now) r.0 (lexemes r.1.now)) }
    ensures shorter { IfSome result (λ r. length r.1.now < length tokens.now) }
{
    let (written, rest) = after_day(tokens)?;
    Some((day_of(written), rest))
}

/// What stands between the quotes of a text.
pub fn between_quotes(quoted: &str) -> &str
    requires { IsTrue (is_text quoted.now) }
    ensures { result.now ≡ rule.between_quotes quoted.now }
{
    &quoted[1..quoted.len() - 1]
}

/// The text at the front, and what stands behind it.
pub fn text<'t, 'a>(tokens: &'t [Token<'a>]) -> Option<(Text<'a>, &'t [Token<'a>])>
    ensures read { MatchOption result (begins_with_text (lexemes tokens.now) ≡ false)
        (λ r. Reads rule.text (lexemes tokens.now) r.0 (lexemes r.1.now)) }
    ensures shorter { IfSome result (λ r. length r.1.now < length tokens.now) }
{
    let (quoted, rest) = after_text(tokens)?;
    Some((Text::new(between_quotes(quoted)), rest))
}

/// The text at the front, if there is one, and what stands behind it.
pub fn text_if_due<'t, 'a>(tokens: &'t [Token<'a>]) -> (Option<Text<'a>>, &'t [Token<'a>])
    ensures { Reads (due begins_with_text rule.text) (lexemes tokens.now)
        result.0 (lexemes result.1.now) }
{
    match text(tokens) {
        Some(found) => {
            let (text, rest) = found;
            (Some(text), rest)
        }
        None => (None, tokens),
    }
}
