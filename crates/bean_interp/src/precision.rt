//! The decimals to which a transaction is exact, by currency.
ghost use Rattle.std.specs.Prelude.{◌≡◌, ◌≤◌, [], List, ℕ, OnOk, Some, IfSome, IsTrue, position, if◌then◌else◌};
ghost use Rattle.std.specs.Map.{keys_of, lookup};
ghost use Rattle.bean_interp.specs.Tolerance as spec;
ghost use Rattle.std.specs.Str.{bytes_eq};
ghost use Rattle.bean_interp.specs.Tolerance.{precision, with_written};

use crate::leg::Leg;
use bean_base::Currency;
use indexmap::IndexMap;
use std::alloc::{AllocError, Global};
use std::marker::Model;

/// The least positive counts of decimals that are written for units, by currency.
///
/// Its value is the list of currencies that have one, with it; no count is above 8.
pub struct Precisions<'a> {
    by_currency: IndexMap<Currency<'a>, u8>,
}

/// Written out, so that what gives one up needs to know nothing of what is in it.
impl Drop for Precisions<'_> {
    fn drop(self) {
        let Precisions { by_currency: _ } = self;
    }
}

impl<'a> Model for Precisions<'a> {
    ghost use Rattle.std.specs.Prelude.{List, ℕ};
    ghost use Rattle.bean_interp.specs.Tolerance.{AreFew};

    ghost Value = { List (List ℕ × ℕ) };

    ghost view = { λ p. p.by_currency.entries };

    ghost invariant = { λ p. AreFew p.by_currency.entries };
}

/// Half a unit of the last decimal, in counts of `10^-16`; 0 without decimals.
pub(crate) fn half_unit(precision: Option<u8>) -> u128
    requires { IfSome precision (λ d. d ≤ 8) }
    ensures { result ≡ spec.half_unit precision }
{
    match precision {
        Some(decimals) => 5 * 10u128.pow(15 - decimals as u32),
        None => 0,
    }
}

/// The lesser of the decimals that are written and those that were.
fn lesser(decimals: u8, least: Option<u8>) -> u8
    requires written { decimals ≤ 8 }
    requires few { IfSome least (λ d. d ≤ 8) }
    ensures is { result ≡ spec.lesser decimals least }
    ensures few { result ≤ 8 }
{
    match least {
        Some(least) => least.min(decimals),
        None => decimals,
    }
}

/// Whether the decimals that are written are no fewer than those that were.
fn are_no_less(decimals: u8, least: Option<u8>) -> bool
    ensures { IsTrue result → Some (spec.lesser decimals least) ≡ least }
{
    match least {
        Some(least) => least <= decimals,
        None => false,
    }
}

impl<'a> Precisions<'a> {
    /// No decimals. Takes no memory.
    pub fn new(alloc: Global) -> Precisions<'a>
        ensures { result ≡ [] }
    {
        Precisions {
            by_currency: IndexMap::new(alloc),
        }
    }

    /// Whether a currency is the first of all.
    fn is_first(&self, currency: &Currency<'_>) -> bool
        ensures { IsTrue result → position (bytes_eq currency.now) (keys_of self.now) ≡ Some 0 }
    {
        let _currencies = self.by_currency.len();
        match self.by_currency.get_index(0) {
            Some((first, _)) => *currency == *first,
            None => false,
        }
    }

    /// The decimals of a currency, where some are written. Most transactions are of one currency, so
    /// the first is compared and not hashed.
    pub fn of(&self, currency: &Currency<'_>) -> Option<u8>
        ensures is { result ≡ lookup (bytes_eq currency.now) self.now }
        ensures few { IfSome result (λ d. d ≤ 8) }
    {
        if self.is_first(currency) {
            return Some(self.by_currency[0]);
        }
        self.by_currency.get(currency).copied()
    }

    /// Notes the decimals of a number that is written for a currency.
    fn note(&mut self, currency: &Currency<'a>, decimals: u8) -> Result<(), AllocError>
        requires { decimals ≤ 8 }
        ensures { OnOk result ((c : List ℕ) → lookup (bytes_eq c) self.new
            ≡ (if bytes_eq currency.now c
            then Some (spec.lesser decimals (lookup (bytes_eq currency.now) self.old))
            else lookup (bytes_eq c) self.old)) }
    {
        let least = self.of(currency);
        if are_no_less(decimals, least) {
            return Ok(());
        }
        self.by_currency
            .insert(currency.lend(), lesser(decimals, least))?;
        Ok(())
    }

    /// Forgets all decimals.
    pub fn clear(&mut self)
        ensures { self.new ≡ [] }
    {
        if !self.by_currency.is_empty() {
            self.by_currency.clear();
        }
    }

    /// Notes the decimals that are written in a leg.
    pub fn note_leg(&mut self, leg: &Leg<'a>) -> Result<(), AllocError>
        ensures { OnOk result ((c : List ℕ) → lookup (bytes_eq c) self.new
            ≡ with_written leg.now c (lookup (bytes_eq c) self.old)) }
    {
        match leg {
            Leg::Whole(whole) if whole.decimals > 0 => {
                self.note(&whole.units.currency, whole.decimals)
            }
            _ => Ok(()),
        }
    }

    /// Takes the decimals that are written in legs, in place of those that it had.
    pub fn read(&mut self, legs: &[Leg<'a>]) -> Result<(), AllocError>
        ensures { OnOk result ((c : List ℕ) → lookup (bytes_eq c) self.new ≡ precision legs.now c) }
    {
        self.clear();
        for leg in legs {
            self.note_leg(leg)?;
        }
        Ok(())
    }
}
