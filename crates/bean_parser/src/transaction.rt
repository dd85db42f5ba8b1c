//! The lines under the first one of a transaction, as they are read off a lexer.
ghost use Rattle.std.specs.Prelude as prelude;
ghost use Rattle.std.specs.Prelude.{◌≡◌, ◌≤◌, ◌∷◌, [], IfOk, IsTrue, OnOk, length};
ghost use Rattle.bean_lexer.specs.ToCome.{EndsLines};
ghost use Rattle.bean_lexer.specs.declared.lexer.Lexer as lexers;
ghost use Rattle.bean_directives.specs.declared.directive.Directive as directives;
ghost use Rattle.bean_directives.specs.declared.transaction.Transaction as transactions;
ghost use Rattle.bean_postings.specs.declared.posting.Posting.{Posting};
ghost use Rattle.bean_parser.specs.Plain.{HasSaid, IsKept, TakesToken, TakesUnder, marked};
ghost use Rattle.bean_parser.specs.Under as rule;
ghost use Rattle.bean_parser.specs.declared.under.Body as bodies;
ghost use Rattle.bean_parser.specs.declared.under.LineKind as lines;

use crate::block::fault_line;
use crate::plain::take_postings;
use crate::reader::{add_token, take_inside};
use crate::under::{LineKind, line_kind};
use bean_base::List;
use bean_directives::{Directive, DirectiveKind};
use bean_grammar::{Mark, MetaEntry, Ranged};
use bean_lexer::{Lexer, Place, Token};
use bean_postings::WrittenPosting;
use std::alloc::{AllocError, Global};

/// Adds an entry to the last posting of a transaction whose postings stand behind others, or to itself where
/// it has none yet.
fn add_entry<'a>(
    alloc: Global,
    entry: MetaEntry<'a>,
    directive: &mut Directive<'a>,
    before: usize,
    postings: &mut Vec<WrittenPosting<'a>>,
) -> Result<(), AllocError>
    requires { before ≤ length postings.now.items }
    ensures kept { IsKept before postings.old.items postings.new.items }
    ensures said { (head : directives.Directive) (t : transactions.Transaction) (others : prelude.List Posting)
        (b : bodies.Body) → length others ≡ before
        → HasSaid head t others b directive.old postings.old.items
        → OnOk result (HasSaid head t others (rule.with_entry b b.last entry.entry) directive.new postings.new.items) }
{
    if postings.len() == before {
        return directive.metadata.push(alloc, entry);
    }
    let Some(mut last) = postings.pop() else {
        unreachable!()
    };
    last.push(alloc, entry)?;
    postings.push(last)?;
    Ok(())
}

/// Adds tags and links.
fn add_marks<'a>(
    alloc: Global,
    marks: List<Mark<'a>>,
    directive: &mut Directive<'a>,
) -> Result<(), AllocError>
    ensures { OnOk result (directive.new
        ≡ record directive.old { kind = marked marks.entry directive.old.kind }) }
{
    if let DirectiveKind::Transaction(transaction) = &mut directive.kind {
        transaction.marks.append(alloc, marks)?;
    }
    Ok(())
}

/// Adds what a line says to a transaction whose postings stand behind others, if that is in the range of a
/// ledger.
fn add_line<'a>(
    alloc: Global,
    line: LineKind<'a>,
    directive: &mut Directive<'a>,
    before: usize,
    postings: &mut Vec<WrittenPosting<'a>>,
) -> Result<bool, AllocError>
    requires { before ≤ length postings.now.items }
    ensures kept { IsKept before postings.old.items postings.new.items }
    ensures said { (head : directives.Directive) (t : transactions.Transaction) (others : prelude.List Posting)
        (b : bodies.Body) → length others ≡ before
        → HasSaid head t others b directive.old postings.old.items
        → IfOk result (λ some. IsTrue some
        → HasSaid head t others (rule.with_line b line.entry) directive.new postings.new.items) }
{
    match line {
        LineKind::Entry(Ranged::Within(entry)) => {
            add_entry(alloc, entry, directive, before, postings)?;
            Ok(true)
        }
        LineKind::Marks(marks) => {
            add_marks(alloc, marks, directive)?;
            Ok(true)
        }
        LineKind::Posting(Ranged::Within(posting)) => {
            postings.push(posting)?;
            Ok(true)
        }
        LineKind::Entry(Ranged::Outside) | LineKind::Posting(Ranged::Outside) => Ok(false),
    }
}

/// Takes the tokens of the line that one begins off a lexer, and adds what they say, if they are a line that
/// may stand under a transaction.
#[inline(never)]
fn take_other<'a>(
    alloc: Global,
    first: Token<'a>,
    lexer: &mut Lexer<'a>,
    line: &mut Vec<Token<'a>>,
    directive: &mut Directive<'a>,
    before: usize,
    postings: &mut Vec<WrittenPosting<'a>>,
) -> Result<bool, AllocError>
    requires { before ≤ length postings.now.items }
    ensures kept { IsKept before postings.old.items postings.new.items }
    ensures said { (mid : lexers.Lexer) (head : directives.Directive) (t : transactions.Transaction)
        (others : prelude.List Posting) (b : bodies.Body) → TakesToken first.entry mid lexer.old
        → length others ≡ before → HasSaid head t others b directive.old postings.old.items
        → IfOk result (λ some. IsTrue some → (k : lines.LineKind) × TakesUnder mid lexer.new (k ∷ [])
        × HasSaid head t others (rule.with_line b k) directive.new postings.new.items) }
    ensures no_longer { IfOk result (λ _. length lexer.new.rest.now ≤ length lexer.old.rest.now) }
{
    let Place::Indented = first.place else {
        return Ok(false);
    };
    line.clear();
    add_token(line, first)?;
    take_inside(lexer, line)?;
    if let Some(_) = fault_line(line) {
        return Ok(false);
    }
    match line_kind(alloc, true, line)? {
        Some(kind) => add_line(alloc, kind, directive, before, postings),
        None => Ok(false),
    }
}

/// Takes the lines under the first one of a transaction, up to the next block, if each is one that may stand
/// there, which it tells. Its postings are added behind others.
#[inline(always)]
pub fn take_lines<'a>(
    alloc: Global,
    lexer: &mut Lexer<'a>,
    line: &mut Vec<Token<'a>>,
    directive: &mut Directive<'a>,
    before: usize,
    postings: &mut Vec<WrittenPosting<'a>>,
) -> Result<bool, AllocError>
    requires { before ≤ length postings.now.items }
    ensures kept { IsKept before postings.old.items postings.new.items }
    ensures said { (head : directives.Directive) (t : transactions.Transaction) (others : prelude.List Posting)
        → length others ≡ before
        → HasSaid head t others rule.no_lines directive.old postings.old.items
        → IfOk result (λ some. IsTrue some → (ks : prelude.List lines.LineKind)
        × TakesUnder lexer.old lexer.new ks × EndsLines lexer.new
        × HasSaid head t others (rule.with_lines rule.no_lines ks) directive.new postings.new.items) }
{
    while let Some(first) = take_postings(lexer, postings)? {
        if !take_other(alloc, first, lexer, line, directive, before, postings)? {
            return Ok(false);
        }
    }
    Ok(true)
}
