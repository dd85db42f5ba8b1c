//! What a ledger's text says: its directives, its settings and its faults.
ghost use Rattle.std.specs.Prelude.{◌≡◌, ◌<◌, ◌++◌, ◌∷◌, [], List, IfOk, OnOk, IsTrue, length};
ghost use Rattle.bean_parser.specs.Parsed.{IsParsed, ComeTo, AreByLine};
ghost use Rattle.bean_parser.specs.Gathered.{AddsNext, IsGathered, undated_at};
ghost use Rattle.bean_parser.specs.declared.block.Outcome.{Outcome};
ghost use Rattle.bean_parser.specs.declared.block.Outcome.TheVariants as outcome;
ghost use Rattle.bean_parser.specs.Outcome.{Gives};

use crate::block::{Outcome, fault_at, read_block};
use crate::directives::{Directives, Next};
use crate::statement::Statement;
use bean_base::{Fault, FaultKind, List};
use bean_directives::{ApartDirective, Setting, UndatedKind};
use bean_lexer::{Lexer, Token};
use bean_pushes::{PlacedBound, add_unmatched, give_all, reaches};
use std::alloc::{AllocError, Global};

/// What a ledger's text says, in reading order. The faults have file 0.
#[derive(Drop)]
pub struct Parsed<'a> {
    pub directives: List<ApartDirective<'a>>,
    pub settings: List<Setting<'a>>,
    pub faults: List<Fault>,
}

/// What blocks gave so far, scopes aside.
#[derive(Drop)]
pub struct Gathered<'a> {
    pub directives: Directives<'a>,
    pub settings: Vec<Setting<'a>>,
    pub bounds: Vec<PlacedBound<'a>>,
    pub faults: Vec<Fault>,
}

/// Arranges faults by their lines; those of one line keep their order.
fn sort_by_line(faults: &mut Vec<Fault>) -> Result<(), AllocError>
    ensures { OnOk result (AreByLine faults.old.items faults.new.items) }
{
    faults.sort_by_key(|fault| fault.place.line)
}

impl<'a> Gathered<'a> {
    /// No blocks give nothing.
    fn new(alloc: Global) -> Gathered<'a>
        ensures { IsGathered [] result }
    {
        Gathered {
            directives: Directives::new(alloc),
            settings: Vec::new(alloc),
            bounds: Vec::new(alloc),
            faults: Vec::new(alloc),
        }
    }

    /// Adds what a block without a day says that is written on a line.
    fn add_undated(&mut self, line: usize, kind: UndatedKind<'a>) -> Result<(), AllocError>
        ensures { OnOk result ((os : List Outcome) → IsGathered os self.old
            → IsGathered (os ++ undated_at line kind.entry ∷ []) self.new) }
    {
        match kind {
            UndatedKind::Setting(kind) => self.settings.push(Setting { line, kind })?,
            UndatedKind::Ignored => self.faults.push(fault_at(FaultKind::Ignored, line))?,
            UndatedKind::Bound(bound) => {
                let place = self.directives.len();
                self.bounds.push(PlacedBound { line, place, bound })?;
            }
        }
        Ok(())
    }

    /// Adds what a block says.
    fn add_statement(&mut self, alloc: Global, statement: Statement<'a>) -> Result<(), AllocError>
        ensures { OnOk result ((os : List Outcome) → IsGathered os self.old
            → IsGathered (os ++ outcome.Statement statement.entry ∷ []) self.new) }
    {
        match statement {
            Statement::Directive(directive) => self.directives.push(alloc, directive),
            Statement::Undated(undated) => self.add_undated(undated.line, undated.kind),
        }
    }

    /// Adds what the next block of a text gives, if there is one. `block` has room for its tokens.
    fn add_next(
        &mut self,
        alloc: Global,
        lexer: &mut Lexer<'a>,
        block: &mut Vec<Token<'a>>,
    ) -> Result<bool, AllocError>
        ensures added { IfOk result (λ some. AddsNext some lexer.old self.old lexer.new self.new) }
        ensures shorter { IfOk result (λ some. IsTrue some
            → length lexer.new.rest.now < length lexer.old.rest.now) }
    {
        match self.directives.add_transaction(alloc, lexer, block)? {
            Next::Nothing => Ok(false),
            Next::Added => Ok(true),
            Next::Block => {
                self.add_other(alloc, block)?;
                Ok(true)
            }
        }
    }

    /// Adds what a block gives that isn't a transaction, or is at fault. In place, it would clear memory for
    /// each other.
    #[inline(never)]
    fn add_other(&mut self, alloc: Global, block: &[Token<'a>]) -> Result<(), AllocError>
        ensures { OnOk result ((o : Outcome) × Gives block.now o
            × ((os : List Outcome) → IsGathered os self.old → IsGathered (os ++ o ∷ []) self.new)) }
    {
        match read_block(alloc, block)? {
            Outcome::Statement(statement) => self.add_statement(alloc, statement)?,
            Outcome::Fault(fault) => self.faults.push(fault)?,
        }
        Ok(())
    }

    /// What blocks come to that gave this.
    fn parsed(self, alloc: Global) -> Result<Parsed<'a>, AllocError>
        ensures { IfOk result (λ p. (os : List Outcome) → IsGathered os self.entry → ComeTo os p) }
    {
        let mut directives = self.directives.into_vec(alloc)?;
        let mut faults = self.faults;
        let bounds = self.bounds.as_slice();
        let reaches = reaches(alloc, bounds)?;
        give_all(alloc, bounds, &reaches, &mut directives)?;
        add_unmatched(alloc, bounds, &reaches, &mut faults)?;
        sort_by_line(&mut faults)?;
        Ok(Parsed {
            directives: List::new(directives),
            settings: List::new(self.settings),
            faults: List::new(faults),
        })
    }
}

/// The directives, the settings and the faults of a ledger's text.
pub fn parse(alloc: Global, text: &str) -> Result<Parsed<'_>, AllocError>
    ensures { IfOk result (IsParsed text.now) }
{
    let mut gathered = Gathered::new(alloc);
    let mut block = Vec::new(alloc);
    let mut lexer = Lexer::new(text);
    while gathered.add_next(alloc, &mut lexer, &mut block)? {}
    gathered.parsed(alloc)
}
