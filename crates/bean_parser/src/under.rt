//! The lines under the first one of a directive.
ghost use Rattle.std.specs.Prelude.{◌≡◌, true, false, MatchOption, IfOk, OnOk};
ghost use Rattle.theory.specs.Form.{Is, IsNone};
ghost use Rattle.bean_grammar.specs.Lexeme.{lexemes};
ghost use Rattle.bean_grammar.specs.Lexeme as spec;
ghost use Rattle.bean_grammar.specs.Mark as mark_spec;
ghost use Rattle.bean_grammar.specs.Metadata as metadata;
ghost use Rattle.bean_parser.specs.Block.{line_of, lines};
ghost use Rattle.bean_parser.specs.Reading.{ReadsLines, ReadsLine};
ghost use Rattle.bean_parser.specs.Under as rule;

use crate::part::{Part, first_line, first_part};
use bean_base::List;
use bean_grammar::entry::entry;
use bean_grammar::front::{after_key, after_link, after_tag, next};
use bean_grammar::mark::line_of_marks;
use bean_grammar::{Mark, MetaEntry, Ranged};
use bean_lexer::Token;
use bean_postings::WrittenPosting;
use bean_postings::posting_line::posting;
use given_items::WithGiven;
use std::alloc::{AllocError, Global};

/// What a line says.
#[derive(Drop)]
pub enum LineKind<'a> {
    Entry(Ranged<MetaEntry<'a>>),
    Marks(List<Mark<'a>>),
    Posting(Ranged<WrittenPosting<'a>>),
}

/// What lines say.
#[derive(Drop)]
pub struct Body<'a> {
    /// The entries above all postings.
    pub metadata: WithGiven<MetaEntry<'a>>,
    pub marks: List<Mark<'a>>,
    /// The postings but the last.
    pub before: List<WrittenPosting<'a>>,
    pub last: Option<WrittenPosting<'a>>,
    /// Whether all of it is in the range of a ledger.
    pub is_in_range: bool,
}

/// The tokens that are still to be read.
#[derive(Clone, Copy)]
struct Unread<'t, 'a> {
    tokens: &'t [Token<'a>],
}

fn begins_with_key(line: &[Token<'_>]) -> bool
    ensures { result ≡ spec.begins_with_key (lexemes line.now) }
{
    after_key(line).is_some()
}

fn begins_with_mark(line: &[Token<'_>]) -> bool
    ensures { result ≡ mark_spec.begins_with_mark (lexemes line.now) }
{
    after_tag(line).is_some() || after_link(line).is_some()
}

/// The entry that a line is.
fn entry_line<'a>(line: &[Token<'a>]) -> Option<Ranged<MetaEntry<'a>>>
    ensures { MatchOption result (IsNone metadata.entry (lexemes line.now))
        (Is metadata.entry (lexemes line.now)) }
{
    let (entry, rest) = entry(line)?;
    match next(rest) {
        Some(_) => None,
        None => Some(entry),
    }
}

/// What a line says that begins with no key, under a transaction.
fn transaction_line<'a>(
    alloc: Global,
    line: &[Token<'a>],
) -> Result<Option<LineKind<'a>>, AllocError>
    requires { spec.begins_with_key (lexemes line.now) ≡ false }
    ensures { IfOk result (ReadsLine true (line_of line.now)) }
{
    if begins_with_mark(line) {
        return match line_of_marks(alloc, line)? {
            Some(marks) => Ok(Some(LineKind::Marks(marks))),
            None => Ok(None),
        };
    }
    match posting(alloc, first_line(line), line)? {
        Some(posting) => Ok(Some(LineKind::Posting(posting))),
        None => Ok(None),
    }
}

/// What a line says, where it may stand there.
pub fn line_kind<'a>(
    alloc: Global,
    in_transaction: bool,
    line: &[Token<'a>],
) -> Result<Option<LineKind<'a>>, AllocError>
    ensures { IfOk result (ReadsLine in_transaction (line_of line.now)) }
{
    if begins_with_key(line) {
        return match entry_line(line) {
            Some(entry) => Ok(Some(LineKind::Entry(entry))),
            None => Ok(None),
        };
    }
    if !in_transaction {
        return Ok(None);
    }
    transaction_line(alloc, line)
}

impl<'a> Body<'a> {
    /// What no lines say.
    fn new(alloc: Global) -> Body<'a>
        ensures { result ≡ rule.no_lines }
    {
        Body {
            metadata: WithGiven::new(),
            marks: List::new(Vec::new(alloc)),
            before: List::new(Vec::new(alloc)),
            last: None,
            is_in_range: true,
        }
    }

    /// Adds an entry.
    fn add_entry(&mut self, alloc: Global, entry: MetaEntry<'a>) -> Result<(), AllocError>
        ensures { OnOk result (self.new ≡ rule.with_entry self.old self.old.last entry.entry) }
    {
        match &mut self.last {
            Some(posting) => posting.push(alloc, entry),
            None => self.metadata.push(alloc, entry),
        }
    }

    /// Adds a posting.
    fn add_posting(&mut self, posting: WrittenPosting<'a>) -> Result<(), AllocError>
        ensures { OnOk result (self.new ≡ rule.with_posting self.old posting.entry) }
    {
        if let Some(previous) = self.last.replace(posting) {
            self.before.push(previous)?;
        }
        Ok(())
    }

    /// Adds what a line says.
    fn add(&mut self, alloc: Global, line: LineKind<'a>) -> Result<(), AllocError>
        ensures { OnOk result (self.new ≡ rule.with_line self.old line.entry) }
    {
        match line {
            LineKind::Entry(Ranged::Within(entry)) => self.add_entry(alloc, entry),
            LineKind::Marks(marks) => self.marks.append(marks),
            LineKind::Posting(Ranged::Within(posting)) => self.add_posting(posting),
            LineKind::Entry(Ranged::Outside) | LineKind::Posting(Ranged::Outside) => {
                self.is_in_range = false;
                Ok(())
            }
        }
    }
}

/// All postings.
pub fn all_postings<'a>(
    before: List<WrittenPosting<'a>>,
    last: Option<WrittenPosting<'a>>,
) -> Result<List<WrittenPosting<'a>>, AllocError>
    ensures { IfOk result (λ all. all ≡ rule.all_before before.entry last.entry) }
{
    let mut all = before;
    if let Some(last) = last {
        all.push(last)?;
    }
    Ok(all)
}

/// What lines say, where each is one that may stand there. It stays a call of its own, since nearly all
/// transactions are read without it.
#[inline(never)]
pub fn lines_under<'a>(
    alloc: Global,
    in_transaction: bool,
    under: &[Token<'a>],
) -> Result<Option<Body<'a>>, AllocError>
    ensures { IfOk result (ReadsLines in_transaction (lines under.now)) }
{
    let mut body = Body::new(alloc);
    let mut rest = Unread { tokens: under };
    while let Some((line, after)) = first_part(Part::Line, rest.tokens) {
        let Some(kind) = line_kind(alloc, in_transaction, line)? else {
            return Ok(None);
        };
        body.add(alloc, kind)?;
        rest = Unread { tokens: after };
    }
    Ok(Some(body))
}
