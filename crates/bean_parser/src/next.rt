//! The next block of a text: a transaction that is read off the lexer line by line, or the tokens of a block.
ghost use Rattle.std.specs.Prelude.{◌≡◌, ◌++◌, ◌<◌, List, IfOk, length, true};
ghost use Rattle.bean_postings.specs.declared.posting.Posting.{Posting};
ghost use Rattle.bean_parser.specs.Taken.{Takes, is_some};

use crate::plain::head_of;
use crate::reader::{next_block, take_line, take_others};
use crate::transaction::take_lines;
use bean_directives::Directive;
use bean_lexer::{Lexer, Token};
use bean_postings::WrittenPosting;
use std::alloc::{AllocError, Global};

/// What was taken of a text.
#[derive(Drop)]
pub enum Taken<'a> {
    /// Nothing: no block is left.
    Nothing,
    /// A transaction, which is to be given its postings.
    Transaction(Directive<'a>),
    /// The tokens of a block.
    Block,
}

/// Takes the next block off a lexer, if there is one. Of a transaction that has no fault the postings are
/// added to others as they are read. Nearly all blocks are such, and no token of their plain lines is kept.
/// `block` comes to hold the tokens of any other, in place of what it held.
#[inline(always)]
pub fn take_next<'a>(
    alloc: Global,
    lexer: &mut Lexer<'a>,
    block: &mut Vec<Token<'a>>,
    postings: &mut Vec<WrittenPosting<'a>>,
) -> Result<Taken<'a>, AllocError>
    ensures block { (ps : List Posting) × (postings.new.items ≡ postings.old.items ++ ps)
        × IfOk result (λ taken. Takes taken ps lexer.old block.new.items lexer.new) }
    ensures shorter { IfOk result (λ taken. is_some taken ≡ true
        → length lexer.new.rest.now < length lexer.old.rest.now) }
{
    let start = *lexer;
    if !take_line(lexer, block)? {
        return Ok(Taken::Nothing);
    }
    let Some(mut directive) = head_of(alloc, block)? else {
        take_others(lexer, block)?;
        return Ok(Taken::Block);
    };
    let before = postings.len();
    if take_lines(alloc, lexer, block, &mut directive, before, postings)? {
        return Ok(Taken::Transaction(directive));
    }
    postings.truncate(before);
    *lexer = start;
    match next_block(lexer, block)? {
        true => Ok(Taken::Block),
        false => Ok(Taken::Nothing),
    }
}
