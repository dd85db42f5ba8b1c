//! The directives of a text while they are gathered: the postings of many lie in one block of memory.
ghost use Rattle.std.specs.Prelude.{◌≡◌, ◌<◌, ◌≤◌, ◌++◌, ◌∷◌, [], IfOk, OnErr, OnOk, length, map, true};
ghost use Rattle.std.specs.List.{AllByRecursion};
ghost use Rattle.bean_directives.specs.Given.{with_postings};
ghost use Rattle.bean_parser.specs.Taken.{AddsTransaction, found};
ghost use Rattle.bean_parser.specs.Waiting.{IsWithin, completed};

use crate::next::{Taken, take_next};
use bean_directives::{ApartDirective, Directive, Stretch};
use bean_lexer::{Lexer, Token};
use bean_postings::WrittenPosting;
use std::alloc::{AllocError, Global};
use std::marker::Model;
use std::mem::replace;
use std::rc::Rc;

/// How many postings a block has room for: as many as a piece of a ledger has rows, which take its place.
const MOST_TOGETHER: usize = 1_024;

/// How many directives wait at most until a block is full.
const MOST_WAITING: usize = 1_024;

/// So many postings have most transactions at most: a block with no more room is full.
const ROOM: usize = 16;

/// What the next block of a text is.
#[derive(Clone, Copy, PartialEq, Eq)]
pub enum Next {
    /// There is none.
    Nothing,
    /// A transaction, which was added.
    Added,
    /// Another, of which the tokens are known.
    Block,
}

/// A directive that waits until the block is full in which its postings stand.
#[derive(Drop)]
pub struct Waiting<'a> {
    directive: ApartDirective<'a>,
    /// Where they stand there, if it has none by itself.
    part: Option<InBlock>,
}

/// A part of a block: from one place up to another.
#[derive(Clone, Copy, Drop)]
pub struct InBlock {
    first: usize,
    end: usize,
}

/// Directives in reading order. Contracts see the list of them, each with its postings.
#[derive(Drop)]
pub struct Directives<'a> {
    /// Those that have their postings.
    settled: Vec<ApartDirective<'a>>,
    /// Those behind these.
    waiting: Vec<Waiting<'a>>,
    /// The postings of those that wait.
    postings: Vec<WrittenPosting<'a>>,
}

impl<'a> Model for Directives<'a> {
    ghost use Rattle.std.specs.Prelude as prelude;
    ghost use Rattle.std.specs.Prelude.{◌++◌, map};
    ghost use Rattle.std.specs.List.{AllByRecursion};
    ghost use Rattle.bean_directives.specs.declared.directive.Directive as declared;
    ghost use Rattle.bean_parser.specs.Waiting.{IsWithin, completed};

    ghost Value = { prelude.List declared.Directive };

    ghost view = { λ d. d.settled.items ++ map (completed d.postings.items) d.waiting.items };

    ghost invariant = { λ d. AllByRecursion (IsWithin d.postings.items) d.waiting.items };
}

/// A directive with its postings, which may stand in a block.
#[inline(always)]
fn settled<'a>(
    alloc: Global,
    block: &Rc<Vec<WrittenPosting<'a>>>,
    waiting: Waiting<'a>,
) -> Result<ApartDirective<'a>, AllocError>
    requires { IsWithin block.now.value.items waiting }
    ensures { IfOk result (λ d. d ≡ completed block.now.value.items waiting.entry) }
{
    let Waiting {
        mut directive,
        part,
    } = waiting;
    if let Some(part) = part {
        directive.give_postings(Stretch::within(alloc, block, part.first, part.end)?);
    }
    Ok(directive)
}

/// Adds directives that waited until a block was full.
fn add_settled<'a>(
    alloc: Global,
    block: &Rc<Vec<WrittenPosting<'a>>>,
    waiting: Vec<Waiting<'a>>,
    directives: &mut Vec<ApartDirective<'a>>,
) -> Result<(), AllocError>
    requires { AllByRecursion (IsWithin block.now.value.items) waiting.items }
    ensures { OnOk result (directives.new.items
        ≡ directives.old.items ++ map (completed block.now.value.items) waiting.entry.items) }
{
    for one in waiting {
        directives.push(settled(alloc, block, one)?)?;
    }
    Ok(())
}

/// Moves postings behind those of a block. Says where they stand there.
fn add_postings<'a>(
    own: Vec<WrittenPosting<'a>>,
    postings: &mut Vec<WrittenPosting<'a>>,
) -> Result<InBlock, AllocError>
    ensures added { IfOk result (λ part.
        (postings.new.items ≡ postings.old.items ++ own.entry.items)
        × (part.first ≡ length postings.old.items) × (part.end ≡ length postings.new.items)) }
    ensures unchanged { OnErr result (postings.new.items ≡ postings.old.items) }
{
    let mut own = own;
    let first = postings.len();
    postings.append(&mut own)?;
    Ok(InBlock {
        first,
        end: postings.len(),
    })
}

impl<'a> Directives<'a> {
    /// No directives.
    pub fn new(alloc: Global) -> Directives<'a>
        ensures { result ≡ [] }
    {
        Directives {
            settled: Vec::new(alloc),
            waiting: Vec::new(alloc),
            postings: Vec::new(alloc),
        }
    }

    /// How many there are.
    pub fn len(&self) -> usize
        ensures { result ≡ length self.now }
    {
        self.settled.len() + self.waiting.len()
    }

    /// Adds a directive. Nearly all are transactions, which come otherwise: so it stays a call of its own.
    #[inline(never)]
    pub fn push(&mut self, alloc: Global, directive: Directive<'a>) -> Result<(), AllocError>
        ensures { OnOk result (self.new ≡ self.old ++ directive.entry ∷ []) }
    {
        let mut directive = directive;
        match directive.take_postings(alloc) {
            Some(own) => self.push_apart(alloc, own, directive),
            None => self.push_whole(alloc, directive),
        }
    }

    /// Adds a directive whose postings are by themselves: they go to the block.
    fn push_apart(
        &mut self,
        alloc: Global,
        own: Vec<WrittenPosting<'a>>,
        directive: Directive<'a>,
    ) -> Result<(), AllocError>
        ensures { OnOk result
            (self.new ≡ self.old ++ with_postings own.entry.items directive.entry ∷ []) }
    {
        let part = add_postings(own, &mut self.postings)?;
        let directive = ApartDirective::new(alloc, directive)?;
        self.waiting.push(Waiting {
            directive,
            part: Some(part),
        })?;
        self.settle_if_full(alloc)
    }

    /// Adds a directive that has its postings.
    fn push_whole(&mut self, alloc: Global, directive: Directive<'a>) -> Result<(), AllocError>
        ensures { OnOk result (self.new ≡ self.old ++ directive.entry ∷ []) }
    {
        let directive = ApartDirective::new(alloc, directive)?;
        self.waiting.push(Waiting {
            directive,
            part: None,
        })?;
        self.settle_if_full(alloc)
    }

    /// Takes the next block off a lexer, and adds the transaction that it is, if it is one without a fault.
    /// Each of its postings is moved but once, to where it stays. `block` comes to hold the tokens of any
    /// other.
    #[inline(always)]
    pub fn add_transaction(
        &mut self,
        alloc: Global,
        lexer: &mut Lexer<'a>,
        block: &mut Vec<Token<'a>>,
    ) -> Result<Next, AllocError>
        ensures added { IfOk result (λ next. AddsTransaction next lexer.old block.new.items lexer.new self.old self.new) }
        ensures shorter { IfOk result
            (λ next. found next ≡ true → length lexer.new.rest.now < length lexer.old.rest.now) }
    {
        let first = self.postings.len();
        match take_next(alloc, lexer, block, &mut self.postings)? {
            Taken::Transaction(directive) => {
                let end = self.postings.len();
                let directive = ApartDirective::new(alloc, directive)?;
                self.waiting.push(Waiting {
                    directive,
                    part: Some(InBlock { first, end }),
                })?;
                self.settle_if_full(alloc)?;
                Ok(Next::Added)
            }
            Taken::Block => Ok(Next::Block),
            Taken::Nothing => Ok(Next::Nothing),
        }
    }

    /// Gives those that wait their postings, if the block is full.
    #[inline(always)]
    fn settle_if_full(&mut self, alloc: Global) -> Result<(), AllocError>
        ensures { OnOk result (self.new ≡ self.old) }
    {
        if self.postings.len() <= MOST_TOGETHER - ROOM && self.waiting.len() < MOST_WAITING {
            return Ok(());
        }
        self.settle(alloc)
    }

    /// Gives those that wait their postings. What is behind comes to lie in another block.
    #[inline(never)]
    fn settle(&mut self, alloc: Global) -> Result<(), AllocError>
        ensures { OnOk result (self.new ≡ self.old) }
    {
        let next = Vec::with_capacity(alloc, self.postings.capacity().min(MOST_TOGETHER))?;
        let waiting = replace(&mut self.waiting, Vec::new(alloc));
        let block = Rc::new(alloc, replace(&mut self.postings, next))?;
        add_settled(alloc, &block, waiting, &mut self.settled)
    }

    /// All of them, each with its postings.
    pub fn into_vec(self, alloc: Global) -> Result<Vec<ApartDirective<'a>>, AllocError>
        ensures { IfOk result (λ all. all.items ≡ self.entry) }
    {
        let Directives {
            mut settled,
            waiting,
            postings,
        } = self;
        let block = Rc::new(alloc, postings)?;
        add_settled(alloc, &block, waiting, &mut settled)?;
        Ok(settled)
    }
}
