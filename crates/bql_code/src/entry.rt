//! The constants of expressions, as a pool has them.
ghost use Rattle.std.specs.Prelude.{◌≡◌, ◌≤◌, length, map, IsTrue};
ghost use Rattle.std.specs.List.{AllByRecursion};
ghost use Rattle.limits.specs.declared.counts.TheConstants.{LARGEST_QUERY, MOST_PLACES};
ghost use Rattle.query_code.specs.QueryFile as query_file;
ghost use Rattle.query_code.specs.declared.program.Constant.TheVariants as constants;
ghost use Rattle.bql_code.specs.Literals.{constant_of, text_of};

use crate::literal::{Literal, ShortText};
use bean_base::{Day, List};
use query_code::Numbers;
use query_terms::Decimal;

/// A constant that a file can hold: a list has from 1 to 65,535 members.
#[derive(Drop)]
pub struct Entry<'a> {
    pub literal: Literal<'a>,
    ghost has_form: { ∥ query_file.constant.fits (constant_of literal) ∥₁ },
}

impl<'a> Entry<'a> {
    /// A text.
    pub fn text(text: ShortText<'a>) -> Entry<'a>
        ensures { constant_of result.literal ≡ constants.Text text.entry.text }
    {
        Entry {
            literal: Literal::Text(text),
        }
    }

    /// The text of a pattern.
    pub fn pattern(text: ShortText<'a>) -> Entry<'a>
        ensures { constant_of result.literal ≡ constants.Pattern text.entry.text }
    {
        Entry {
            literal: Literal::Pattern(text),
        }
    }

    /// A number, with its decimals.
    pub fn number(number: Decimal) -> Entry<'a>
        ensures { constant_of result.literal ≡ constants.Number number }
    {
        Entry {
            literal: Literal::Number(number),
        }
    }

    /// A day.
    pub fn day(day: Day) -> Entry<'a>
        ensures { constant_of result.literal ≡ constants.Day day }
    {
        Entry {
            literal: Literal::Day(day),
        }
    }

    /// A list of texts, at least one and at most as many as a query has bytes.
    pub fn texts(texts: List<ShortText<'a>>) -> Entry<'a>
        requires some { 1 ≤ length texts }
        requires few { length texts ≤ LARGEST_QUERY }
        ensures { constant_of result.literal ≡ constants.Texts (map text_of texts.entry) }
    {
        Entry {
            literal: Literal::Texts(texts),
        }
    }

    /// A list of numbers of as many decimals, at least one and at most as many as a query has bytes.
    pub fn numbers(numbers: Numbers) -> Entry<'a>
        requires some { 1 ≤ length numbers.counts }
        requires few { length numbers.counts ≤ LARGEST_QUERY }
        requires narrow { numbers.places ≤ MOST_PLACES }
        requires held { AllByRecursion (λ c. IsTrue (query_file.is_count c)) numbers.counts }
        ensures { constant_of result.literal ≡ constants.Numbers numbers }
    {
        Entry {
            literal: Literal::Numbers(numbers),
        }
    }

    /// A list of days, at least one and at most as many as a query has bytes.
    pub fn days(days: List<Day>) -> Entry<'a>
        requires some { 1 ≤ length days }
        requires few { length days ≤ LARGEST_QUERY }
        ensures { constant_of result.literal ≡ constants.Days days }
    {
        Entry {
            literal: Literal::Days(days),
        }
    }
}
