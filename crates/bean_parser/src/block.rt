//! Blocks: what each gives.
ghost use Rattle.std.specs.Prelude.{◌≡◌, ◌++◌, [], MatchOption, IfSome, IfOk};
ghost use Rattle.std.specs.List.{list_all};
ghost use Rattle.std.specs.Prelude as prelude;
ghost use Rattle.bean_directives.specs.Given.{with_postings};
ghost use Rattle.bean_postings.specs.declared.posting.Posting.{Posting};
ghost use Rattle.bean_parser.specs.Block as spec;
ghost use Rattle.bean_parser.specs.Grammar as rule;
ghost use Rattle.bean_parser.specs.Outcome as outcomes;
ghost use Rattle.bean_parser.specs.Outcome.{Gives};
ghost use Rattle.bean_parser.specs.Reading.{ReadsBlock, ReadsDated, ReadsUndated};
ghost use Rattle.bean_parser.specs.declared.block.Outcome.TheVariants as outcome;
ghost use Rattle.bean_parser.specs.declared.statement.Statement.TheVariants as statements;

use crate::part::{Part, first_line, first_part};
use crate::statement::Statement;
use crate::under::{Body, all_postings, lines_under};
use bean_base::{Day, Fault, FaultKind, Place};
use bean_directives::head::head;
use bean_directives::undated::undated_line;
use bean_directives::{Directive, DirectiveKind, Stretch, Transaction, Undated};
use bean_grammar::{Mark, Ranged};
use bean_lexer::{Kind, Sign, Token};
use bean_postings::WrittenPosting;
use std::alloc::{AllocError, Global};

/// What a block gives.
#[derive(Drop)]
pub enum Outcome<'a> {
    Statement(Statement<'a>),
    Fault(Fault),
}

fn is_fault(kind: Kind) -> bool
    ensures { result ≡ spec.is_fault kind }
{
    matches!(kind, Kind::Fault)
}

/// The line on which the first fault token begins.
pub(crate) fn fault_line(block: &[Token<'_>]) -> Option<usize>
    ensures { result ≡ spec.fault_line block.now }
{
    block
        .iter()
        .find(|token| is_fault(token.kind))
        .map(|token| token.line)
}

/// Whether a block begins in the first column.
pub(crate) fn is_in_column_one(block: &[Token<'_>]) -> bool
    ensures { result ≡ spec.is_in_column_one block.now }
{
    match block.first() {
        Some(token) => Part::Block.begins_at(token.place),
        None => false,
    }
}

/// Whether postings may stand under a first line of the kind.
fn takes_postings(kind: &Ranged<DirectiveKind<'_>>) -> bool
    ensures { result ≡ rule.takes_postings kind.now }
{
    matches!(kind, Ranged::Within(DirectiveKind::Transaction(_)))
}

/// The kind, with the postings that stand under it.
#[inline(always)]
fn with_postings<'a>(
    kind: DirectiveKind<'a>,
    postings: Stretch<WrittenPosting<'a>>,
) -> DirectiveKind<'a>
    ensures { result ≡ rule.with_body kind.entry [] postings.entry }
{
    match kind.into_transaction() {
        Ok(transaction) => DirectiveKind::Transaction(Transaction {
            flag: transaction.flag,
            payee: transaction.payee,
            narration: transaction.narration,
            marks: transaction.marks,
            postings,
        }),
        Err(other) => other,
    }
}

/// The directive that a head makes, with what the lines under it say.
fn directive_of<'a>(
    alloc: Global,
    line: u32,
    body: Body<'a>,
    day: Day,
    kind: DirectiveKind<'a>,
) -> Result<Directive<'a>, AllocError>
    ensures { IfOk result (λ d. d ≡ rule.directive_of line body.entry day kind.entry) }
{
    let Body {
        metadata,
        marks,
        before,
        last,
        ..
    } = body;
    let postings = Stretch::of(alloc, all_postings(before, last)?)?;
    let mut kind = with_postings(kind, postings);
    if let DirectiveKind::Transaction(transaction) = &mut kind {
        transaction.marks.append(alloc, marks)?;
    }
    Ok(Directive {
        day,
        line,
        metadata,
        kind,
    })
}

/// What a head says with the lines under it, where all of it is in range.
fn dated<'a>(
    alloc: Global,
    line: u32,
    day: Ranged<Day>,
    kind: Ranged<DirectiveKind<'a>>,
    body: Body<'a>,
) -> Result<Option<Ranged<Statement<'a>>>, AllocError>
    ensures { IfOk result (λ o. o ≡ prelude.Some (rule.dated line day kind.entry body.entry)) }
{
    let (Ranged::Within(day), true) = (day, body.is_in_range) else {
        return Ok(Some(Ranged::Outside));
    };
    let Ranged::Within(kind) = kind else {
        return Ok(Some(Ranged::Outside));
    };
    match directive_of(alloc, line, body, day, kind) {
        Ok(directive) => Ok(Some(Ranged::Within(Statement::Directive(directive)))),
        Err(error) => Err(error),
    }
}

/// What a block says whose first line is a head.
fn dated_block<'a>(
    alloc: Global,
    line: u32,
    day: Ranged<Day>,
    kind: Ranged<DirectiveKind<'a>>,
    under: &[Token<'a>],
) -> Result<Option<Ranged<Statement<'a>>>, AllocError>
    ensures { IfOk result (ReadsDated line day kind.entry (spec.lines under.now)) }
{
    match lines_under(alloc, takes_postings(&kind), under) {
        Ok(Some(body)) => dated(alloc, line, day, kind, body),
        Ok(None) => Ok(None),
        Err(error) => Err(error),
    }
}

/// What a block without a day says that begins with a line.
#[inline(never)]
fn undated_block<'a>(
    line: usize,
    first: &[Token<'a>],
    under: &[Token<'a>],
) -> Option<Ranged<Statement<'a>>>
    ensures { ReadsUndated line first.now under.now result }
{
    let kind = undated_line(first)?;
    if !under.is_empty() {
        return None;
    }
    match kind {
        Ranged::Within(kind) => Some(Ranged::Within(Statement::Undated(Undated { line, kind }))),
        Ranged::Outside => Some(Ranged::Outside),
    }
}

/// A line as a directive keeps it. A text of a ledger has far fewer lines than 32 bits count.
pub(crate) fn kept_line(line: usize) -> Result<u32, AllocError>
    ensures { IfOk result (λ kept. kept ≡ line) }
{
    match u32::try_from(line) {
        Ok(kept) => Ok(kept),
        Err(_) => Err(AllocError),
    }
}

/// What a block without fault tokens says.
fn statement<'a>(
    alloc: Global,
    block: &[Token<'a>],
) -> Result<Option<Ranged<Statement<'a>>>, AllocError>
    ensures { IfOk result (ReadsBlock block.now) }
{
    if !is_in_column_one(block) {
        return Ok(None);
    }
    let Some((first, under)) = first_part(Part::Line, block) else {
        return Ok(None);
    };
    let line = first_line(block);
    match head(alloc, first) {
        Ok(Some((day, kind))) => dated_block(alloc, kept_line(line)?, day, kind, under),
        Ok(None) => Ok(undated_block(line, first, under)),
        Err(error) => Err(error),
    }
}

/// A fault at a line of the text that is parsed, of which the number isn't known here.
pub fn fault_at(kind: FaultKind, line: usize) -> Fault
    ensures { result ≡ outcomes.fault_at kind line }
{
    Fault {
        kind,
        place: Place { file: 0, line },
    }
}

/// What a block says, or its first fault. It stays a call of its own: nearly all blocks are transactions, which
/// are read without it.
#[inline(never)]
pub fn read_block<'a>(alloc: Global, block: &[Token<'a>]) -> Result<Outcome<'a>, AllocError>
    ensures { IfOk result (Gives block.now) }
{
    if let Some(line) = fault_line(block) {
        return Ok(Outcome::Fault(fault_at(FaultKind::BadToken, line)));
    }
    let line = first_line(block);
    match statement(alloc, block) {
        Ok(Some(Ranged::Within(statement))) => Ok(Outcome::Statement(statement)),
        Ok(Some(Ranged::Outside)) => Ok(Outcome::Fault(fault_at(FaultKind::OutOfRange, line))),
        Ok(None) => Ok(Outcome::Fault(fault_at(FaultKind::NotADirective, line))),
        Err(error) => Err(error),
    }
}
