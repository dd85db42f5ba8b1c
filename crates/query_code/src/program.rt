//! Programs: compiled queries.
ghost use Rattle.std.specs.Prelude.{◌≡◌};
ghost use Rattle.query_code.specs.QueryFile.{file};

use crate::instruction::Instruction;
use crate::text_list::TextList;
use bean_base::{Day, List, Slice};
use limits::{Bounds, Version};
use query_terms::Decimal;
use query_values::Aggregate;

/// Whether the rows of a query are postings or groups.
#[derive(Clone, Copy, Drop, PartialEq, Eq)]
pub enum Mode {
    Plain,
    Grouped,
}

/// Counts of numbers that all have so many decimals.
#[derive(Drop)]
pub struct Numbers {
    pub places: u8,
    pub counts: List<i128>,
}

/// An entry of the pool.
pub enum Constant<'a> {
    Text(Slice<'a>),
    Number(Decimal),
    Day(Day),
    /// A regular expression.
    Pattern(Slice<'a>),
    Texts(TextList<'a>),
    Numbers(Numbers),
    Days(List<Day>),
}

/// Written out, so that crates which give one up need to know nothing of what is in it.
impl Drop for Constant<'_> {
    fn drop(self) {
        match self {
            Constant::Text(_) => {}
            Constant::Number(_) => {}
            Constant::Day(_) => {}
            Constant::Pattern(_) => {}
            Constant::Texts(_) => {}
            Constant::Numbers(_) => {}
            Constant::Days(_) => {}
        }
    }
}

/// What becomes of the rows that the code gives.
pub struct Output<'a> {
    /// Only the first of equal rows.
    pub is_distinct: bool,
    pub is_descending: bool,
    /// The most rows.
    pub limit: Option<u32>,
    /// The names of the columns that are shown, one or more.
    pub targets: List<Slice<'a>>,
    /// How many columns stand behind them, to order by.
    pub hidden: u8,
    /// The columns to order by, the most important first.
    pub order: List<u8>,
}

/// Written out, so that what gives one up needs to know nothing of what is in it.
impl Drop for Output<'_> {
    fn drop(self) {
        let Output {
            is_distinct: _,
            is_descending: _,
            limit: _,
            targets: _,
            hidden: _,
            order: _,
        } = self;
    }
}

/// The sections of instructions, and what they refer to.
pub struct Code<'a> {
    /// How many keys a group has.
    pub keys: u8,
    pub aggregates: List<Aggregate>,
    pub pool: List<Constant<'a>>,
    /// Run for each posting: whether it passes.
    pub filter: List<Instruction>,
    /// Run for each posting that passes: its row, or its keys and what its group gathers.
    pub row: List<Instruction>,
    /// Run for each group: its row.
    pub last: List<Instruction>,
}

/// Written out, so that what gives one up needs to know nothing of what is in it.
impl Drop for Code<'_> {
    fn drop(self) {
        let Code {
            keys: _,
            aggregates: _,
            pool: _,
            filter: _,
            row: _,
            last: _,
        } = self;
    }
}

/// The parts of a program.
pub struct Parts<'a> {
    pub bounds: Bounds,
    pub mode: Mode,
    pub output: Output<'a>,
    pub code: Code<'a>,
}

/// Written out, so that what gives one up needs to know nothing of what is in it.
impl Drop for Parts<'_> {
    fn drop(self) {
        let Parts {
            bounds: _,
            mode: _,
            output: _,
            code: _,
        } = self;
    }
}

/// A compiled query: parts that keep the limits of a query file. Its texts are slices of the query,
/// or of the file, that it was made from.
pub struct Program<'a> {
    pub parts: Parts<'a>,
    ghost has_file: { ∥ file.fits parts ∥₁ },
}

/// Written out, so that what gives one up needs to know nothing of what is in it.
impl Drop for Program<'_> {
    fn drop(self) {
        let Program { parts: _ } = self;
    }
}

impl Program<'_> {
    /// The version of its file, which is the schema of its bounds.
    pub fn version(&self) -> Version
        ensures { result ≡ self.now.parts.bounds.schema }
    {
        self.parts.bounds.schema
    }
}
