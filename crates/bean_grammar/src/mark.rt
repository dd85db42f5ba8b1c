//! Tags and links.
ghost use Rattle.std.specs.Prelude.{◌≡◌, ◌∷◌, ◌<◌, ◌≤◌, false, length, MatchOption, IfSome, IfOk};
ghost use Rattle.theory.specs.Form.{Reads, Is, IsNone};
ghost use Rattle.bean_grammar.specs.Lexeme.{lexemes};
ghost use Rattle.bean_grammar.specs.Mark as rule;
ghost use Rattle.bean_grammar.specs.Mark.{begins_with_mark};

use crate::front::{after_link, after_tag, next};
use crate::names::{Link, Tag};
use bean_base::List;
use bean_lexer::Token;
use std::alloc::{AllocError, Global};

/// A tag or a link.
#[derive(Drop)]
pub enum Mark<'a> {
    Tag(Tag<'a>),
    Link(Link<'a>),
}

/// The tag or link at the front, and what stands behind it.
fn after_mark<'t, 'a>(tokens: &'t [Token<'a>]) -> Option<(Mark<'a>, &'t [Token<'a>])>
    ensures front { MatchOption result (begins_with_mark (lexemes tokens.now) ≡ false)
        (λ r. lexemes tokens.now ≡ rule.written r.0 ∷ lexemes r.1.now) }
    ensures shorter { IfSome result (λ r. length r.1.now < length tokens.now) }
{
    if let Some(found) = after_tag(tokens) {
        let (tag, rest) = found;
        return Some((Mark::Tag(tag), rest));
    }
    let (link, rest) = after_link(tokens)?;
    Some((Mark::Link(link), rest))
}

/// The tokens that are still to be read.
#[derive(Clone, Copy)]
struct Unread<'t, 'a> {
    tokens: &'t [Token<'a>],
}

/// The tags and links at the front, and what stands behind them.
pub fn marks<'t, 'a>(
    alloc: Global,
    tokens: &'t [Token<'a>],
) -> Result<(List<Mark<'a>>, &'t [Token<'a>]), AllocError>
    ensures read { IfOk result
        (λ r. Reads rule.marks (lexemes tokens.now) r.0 (lexemes r.1.now)) }
    ensures no_longer { IfOk result (λ r. length r.1.now ≤ length tokens.now) }
{
    let mut marks = Vec::new(alloc);
    let mut unread = Unread { tokens };
    while let Some(found) = after_mark(unread.tokens) {
        let (mark, rest) = found;
        marks.push(mark)?;
        unread = Unread { tokens: rest };
    }
    Ok((List::new(marks), unread.tokens))
}

/// The tags and links that a line is, where it is one or more of them.
pub fn line_of_marks<'a>(
    alloc: Global,
    line: &[Token<'a>],
) -> Result<Option<List<Mark<'a>>>, AllocError>
    ensures { IfOk result (λ found. MatchOption found (IsNone rule.some_marks (lexemes line.now))
        (Is rule.some_marks (lexemes line.now))) }
{
    let Some(_) = after_mark(line) else {
        return Ok(None);
    };
    let (marks, rest) = marks(alloc, line)?;
    match next(rest) {
        Some(_) => Ok(None),
        None => Ok(Some(marks)),
    }
}
