//! The order in which the directives and the settings of all texts are taken.
ghost use Rattle.std.specs.Prelude.{◌≡◌, ◌<◌, ◌+ℤ◌, ◌*ℤ◌, pos, List, [], ◌∷◌, ◌++◌, IfOk, IfSome};
ghost use Rattle.std.specs.Prelude.{OnErr, OnOk};
ghost use Rattle.bean_directives.specs.declared.directive.Directive.{Directive};
ghost use Rattle.bean_loaded.specs.declared.placed.Placed as placed_declared;
ghost use Rattle.bean_load.specs.Order as spec;
ghost use Rattle.bean_load.specs.Order.{AreInOrder, AreInOrderIf, AreSettingsInOrder};
ghost use Rattle.bean_load.specs.Turns.{AreCodesIf, IsCode};
ghost use Rattle.bean_load.specs.declared.order.TheConstants.{BEFORE};

use crate::rank::Rank;
use arranging::arrange;
use bean_loaded::Placed;
use bean_parser::{ApartDirective, Setting};
use std::alloc::{AllocError, Global};

/// One number for a day's number and a rank.
fn turn(day: i32, rank: u8) -> i64
    requires { rank < 8 }
    ensures { result ≡ day *ℤ pos 8 +ℤ pos rank }
{
    i64::from(day) * 8 + i64::from(rank)
}

/// The turn of a directive, and its part of the ledger: so two whole numbers are all that is
/// compared.
fn turn_of(placed: &Placed<ApartDirective<'_>>) -> (i64, usize)
    ensures { result ≡ spec.turn_of placed.now }
{
    let directive = placed.item.get();
    let rank = Rank::of(&directive.kind);
    (
        turn(directive.day.number(), rank.number()),
        placed.part as usize,
    )
}

/// In a code there is room for so many parts. The turns of all days, a number from 0 on for each
/// directive, and these have room in 64 bits together.
pub(crate) const PARTS: usize = 1 << 16;

/// No turn is so far below 0: that of the first day of the year 1 isn't.
pub(crate) const BEFORE: i64 = 1 << 23;

/// A turn as a number from 0 on.
fn above(turn: i64) -> Option<u64>
    ensures { IfSome result (λ above. pos above ≡ turn +ℤ BEFORE) }
{
    let Ok(above) = u64::try_from(turn.checked_add(BEFORE)?) else {
        return None;
    };
    Some(above)
}

/// One number for a turn and a part, where they have room.
fn code_of(placed: &Placed<ApartDirective<'_>>) -> Option<u64>
    ensures { IfSome result (IsCode (spec.turn_of placed.now)) }
{
    let (turn, part) = turn_of(placed);
    if part >= PARTS {
        return None;
    }
    above(turn)?
        .checked_mul(PARTS as u64)?
        .checked_add(part as u64)
}

/// The codes of directives, one for each, as far as all have one.
#[derive(Drop)]
pub struct Codes {
    pub codes: Vec<u64>,
    /// Whether each directive had one.
    pub are_all: bool,
}

impl Codes {
    /// Those of no directives. Takes no memory.
    pub fn new(alloc: Global) -> Codes
        ensures { AreCodesIf [] result }
    {
        Codes {
            codes: Vec::new(alloc),
            are_all: true,
        }
    }

    /// Adds the code of one more directive.
    pub fn add(&mut self, placed: &Placed<ApartDirective<'_>>) -> Result<(), AllocError>
        ensures { OnOk result ((ds : List (placed_declared.Placed Directive))
            → AreCodesIf ds self.old → AreCodesIf (ds ++ placed.now ∷ []) self.new) }
    {
        match code_of(placed) {
            Some(code) => self.codes.push(code)?,
            None => self.are_all = false,
        }
        Ok(())
    }
}

/// Arranges directives by their codes, where all have one. Whether it did.
fn order_by_codes(
    alloc: Global,
    directives: &mut [Placed<ApartDirective<'_>>],
    codes: Codes,
) -> Result<bool, AllocError>
    requires { AreCodesIf directives.old codes }
    ensures in_order { IfOk result (λ done. AreInOrderIf done directives.old directives.new) }
    ensures unchanged { OnErr result (directives.new ≡ directives.old) }
{
    if !codes.are_all {
        return Ok(false);
    }
    arrange(alloc, directives, codes.codes)
}

/// By day, of one day opens, then balances, all else, documents and closes, then in reading order.
pub fn order_directives(
    alloc: Global,
    directives: &mut Vec<Placed<ApartDirective<'_>>>,
    codes: Codes,
) -> Result<(), AllocError>
    requires { AreCodesIf directives.old.items codes }
    ensures { OnOk result (AreInOrder directives.old.items directives.new.items) }
{
    if order_by_codes(alloc, directives, codes)? {
        return Ok(());
    }
    directives.sort_by_cached_key(turn_of)
}

/// In reading order.
pub fn order_settings(settings: &mut Vec<Placed<Setting<'_>>>) -> Result<(), AllocError>
    ensures { OnOk result (AreSettingsInOrder settings.old.items settings.new.items) }
{
    settings.sort_by_key(|setting| setting.part)
}
