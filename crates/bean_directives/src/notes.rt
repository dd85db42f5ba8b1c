//! Directives that note something: notes, documents, events, queries and those of other programs.
ghost use Rattle.std.specs.Prelude.{◌≡◌, MatchOption, IfOk};
ghost use Rattle.theory.specs.Form.{Reads, HasNone};
ghost use Rattle.bean_grammar.specs.Lexeme.{lexemes};
ghost use Rattle.bean_directives.specs.Head as rule;

use crate::directive::DirectiveKind;
use bean_base::{Account, List, Text};
use bean_grammar::entry::all_values;
use bean_grammar::front::after_account;
use bean_grammar::literal::text;
use bean_grammar::mark::marks;
use bean_grammar::{Mark, Ranged, Value};
use bean_lexer::Token;
use std::alloc::{AllocError, Global};

/// A remark on an account.
#[derive(Drop)]
pub struct Note<'a> {
    pub account: Account<'a>,
    pub text: Text<'a>,
}

/// A file that belongs to an account.
#[derive(Drop)]
pub struct Document<'a> {
    pub account: Account<'a>,
    pub name: Text<'a>,
    /// Tags and links, in the order in which they are written.
    pub marks: List<Mark<'a>>,
}

/// The value of something from its day on.
#[derive(Drop)]
pub struct Event<'a> {
    pub name: Text<'a>,
    pub value: Text<'a>,
}

/// A query with a name.
#[derive(Drop)]
pub struct Query<'a> {
    pub name: Text<'a>,
    pub query: Text<'a>,
}

/// A directive of another program.
#[derive(Drop)]
pub struct Custom<'a> {
    pub name: Text<'a>,
    pub values: List<Value<'a>>,
}

/// What stands behind `note`, and what stands behind that.
pub fn note_line<'t, 'a>(
    tokens: &'t [Token<'a>],
) -> Option<(Ranged<DirectiveKind<'a>>, &'t [Token<'a>])>
    ensures { MatchOption result (HasNone rule.note_line (lexemes tokens.now))
        (λ r. Reads rule.note_line (lexemes tokens.now) r.0 (lexemes r.1.now)) }
{
    let (account, rest) = after_account(tokens)?;
    let (text, rest) = text(rest)?;
    let note = Note { account, text };
    Some((Ranged::Within(DirectiveKind::Note(note)), rest))
}

/// What stands behind `document`, and what stands behind that.
pub fn document_line<'t, 'a>(
    alloc: Global,
    tokens: &'t [Token<'a>],
) -> Result<Option<(Ranged<DirectiveKind<'a>>, &'t [Token<'a>])>, AllocError>
    ensures { IfOk result (λ o. MatchOption o (HasNone rule.document_line (lexemes tokens.now))
        (λ r. Reads rule.document_line (lexemes tokens.now) r.0 (lexemes r.1.now))) }
{
    let Some(found) = after_account(tokens) else {
        return Ok(None);
    };
    let (account, rest) = found;
    let Some(found) = text(rest) else {
        return Ok(None);
    };
    let (name, rest) = found;
    let (marks, rest) = marks(alloc, rest)?;
    let document = Document {
        account,
        name,
        marks,
    };
    Ok(Some((Ranged::Within(DirectiveKind::Document(document)), rest)))
}

/// What stands behind `event`, and what stands behind that.
pub fn event_line<'t, 'a>(
    tokens: &'t [Token<'a>],
) -> Option<(Ranged<DirectiveKind<'a>>, &'t [Token<'a>])>
    ensures { MatchOption result (HasNone rule.event_line (lexemes tokens.now))
        (λ r. Reads rule.event_line (lexemes tokens.now) r.0 (lexemes r.1.now)) }
{
    let (name, rest) = text(tokens)?;
    let (value, rest) = text(rest)?;
    let event = Event { name, value };
    Some((Ranged::Within(DirectiveKind::Event(event)), rest))
}

/// What stands behind `query`, and what stands behind that.
pub fn query_line<'t, 'a>(
    tokens: &'t [Token<'a>],
) -> Option<(Ranged<DirectiveKind<'a>>, &'t [Token<'a>])>
    ensures { MatchOption result (HasNone rule.query_line (lexemes tokens.now))
        (λ r. Reads rule.query_line (lexemes tokens.now) r.0 (lexemes r.1.now)) }
{
    let (name, rest) = text(tokens)?;
    let (query, rest) = text(rest)?;
    let query = Query { name, query };
    Some((Ranged::Within(DirectiveKind::Query(query)), rest))
}

fn custom_of<'a>(name: Text<'a>, values: Ranged<List<Value<'a>>>) -> Ranged<DirectiveKind<'a>>
    ensures { result ≡ rule.custom_of name.entry values.entry }
{
    match values {
        Ranged::Within(values) => Ranged::Within(DirectiveKind::Custom(Custom { name, values })),
        Ranged::Outside => Ranged::Outside,
    }
}

/// What stands behind `custom`, and what stands behind that.
pub fn custom_line<'t, 'a>(
    alloc: Global,
    tokens: &'t [Token<'a>],
) -> Result<Option<(Ranged<DirectiveKind<'a>>, &'t [Token<'a>])>, AllocError>
    ensures { IfOk result (λ o. MatchOption o (HasNone rule.custom_line (lexemes tokens.now))
        (λ r. Reads rule.custom_line (lexemes tokens.now) r.0 (lexemes r.1.now))) }
{
    let Some(found) = text(tokens) else {
        return Ok(None);
    };
    let (name, rest) = found;
    let Some(values) = all_values(alloc, rest)? else {
        return Ok(None);
    };
    let (end, _) = rest.split_at(0);
    Ok(Some((custom_of(name, values), end)))
}
