//! How many decimals each currency shows.
ghost use Rattle.std.specs.Prelude.{◌≡◌, Some, IfSome, OnOk, OnErr};
ghost use Rattle.std.specs.FinMap as map;
ghost use Rattle.posting_table.specs.Decimals.{decimals_of};

use bean_base::Currency;
use indexmap::IndexMap;
use std::alloc::{AllocError, Global};
use std::marker::Model;

/// How many currencies are compared one by one before any is hashed: most ledgers have few.
const FEW: usize = 4;

/// The display decimals of the currencies, as a map from each name to a count: 0 where none is set.
#[derive(Drop)]
pub struct Display<'a> {
    places: IndexMap<Currency<'a>, u8>,
}

impl<'a> Model for Display<'a> {
    ghost use Rattle.std.specs.FinMap.{from_entries};
    ghost use Rattle.posting_table.specs.Decimals.{Decimals, decimals_code};

    ghost Value = { Decimals };

    ghost coded = { decimals_code };

    ghost view = { λ d. from_entries d.places.entries };
}

impl<'a> Display<'a> {
    /// Every currency at 0 decimals. Takes no memory.
    pub fn new(alloc: Global) -> Display<'a>
        ensures { result ≡ map.empty }
    {
        Display {
            places: IndexMap::new(alloc),
        }
    }

    /// The decimals of a currency. `near` tells at which place the last one was found that was asked
    /// for: most often it is this one, which isn't hashed then.
    #[inline(always)]
    pub fn places_near(&self, currency: &Currency<'_>, near: &mut usize) -> u8
        ensures { result ≡ decimals_of self.now currency.now }
    {
        self.set_near(currency, near).unwrap_or(0)
    }

    /// The decimals that are set for a currency, if any are, found in the same way.
    #[inline(always)]
    pub fn set_near(&self, currency: &Currency<'_>, near: &mut usize) -> Option<u8>
        ensures { result ≡ map.get self.now currency.now }
    {
        match self.places_at(*near, currency) {
            Some(places) => Some(places),
            None => self.places_found(currency, near),
        }
    }

    /// The decimals of a currency, where they stand at that place.
    #[inline(always)]
    fn places_at(&self, place: usize, currency: &Currency<'_>) -> Option<u8>
        ensures { IfSome result (λ places. Some places ≡ map.get self.now currency.now) }
    {
        match self.places.get_index(place) {
            Some((found, places)) if *currency == *found => Some(*places),
            _ => None,
        }
    }

    /// The same, where it isn't that one.
    #[inline(never)]
    fn places_found(&self, currency: &Currency<'_>, near: &mut usize) -> Option<u8>
        ensures { result ≡ map.get self.now currency.now }
    {
        for place in 0..FEW {
            if let Some(places) = self.places_at(place, currency) {
                *near = place;
                return Some(places);
            }
        }
        let place = self.places.get_index_of(currency)?;
        *near = place;
        Some(self.places[place])
    }

    /// Sets the decimals of one currency; the others stay as they were.
    pub fn set(&mut self, currency: Currency<'a>, places: u8) -> Result<(), AllocError>
        ensures set { OnOk result (self.new ≡ map.insert self.old currency.entry places) }
        ensures unchanged { OnErr result (self.new ≡ self.old) }
    {
        self.places.insert(currency, places)?;
        Ok(())
    }
}
