//! The texts of positions, and how wide they are.
ghost use Rattle.std.specs.Prelude.{◌≡◌, ◌++◌, OnOk, IfOk, true};
ghost use Rattle.std.specs.Int.{is_in_range};
ghost use Rattle.std.specs.List.{list_all};
ghost use Rattle.std.specs.String.{string_bytes};
ghost use Rattle.posting_table.specs.Decimals.{decimals_of};
ghost use Rattle.number_texts.specs.Digits.{day_text};
ghost use Rattle.cell_texts.specs.Width.{text_width};
ghost use Rattle.cell_texts.specs.CellText.{entry_text, label_text, lot_text, position_text, units_text};

use crate::cells::{
    Scratch, add_clean, push_amount, push_as_it_is, push_units, units_width, width_of,
};
use bean_base::{Currency, Day, Text};
use bean_lots::{COUNT_PLACES, Key, Lot};
use number_texts::push_day;
use posting_table::Display;
use std::alloc::AllocError;

/// Adds printable ASCII characters.
fn add_printable(clean: &mut String, bytes: &[u8]) -> Result<(), AllocError>
    requires { list_all (is_in_range 32 126) bytes.now ≡ true }
    ensures { OnOk result (string_bytes clean.new ≡ string_bytes clean.old ++ bytes.now) }
{
    if let Ok(text) = str::from_utf8(bytes) {
        clean.push_str(text)?;
    }
    Ok(())
}

/// Adds the number `count` · `10^-places` and a currency.
fn add_units(
    scratch: &mut Scratch,
    count: i128,
    places: u8,
    currency: &Currency<'_>,
    display: &Display<'_>,
) -> Result<(), AllocError>
    ensures { OnOk result (string_bytes scratch.new.clean ≡ string_bytes scratch.old.clean
        ++ units_text (decimals_of display.now) count places currency.now) }
{
    scratch.measured.clear();
    push_amount(
        &mut scratch.measured,
        count,
        places,
        currency,
        display,
        &mut scratch.nears,
    )?;
    add_printable(&mut scratch.clean, &scratch.measured)?;
    Ok(())
}

fn add_day(scratch: &mut Scratch, day: Day) -> Result<(), AllocError>
    ensures { OnOk result (string_bytes scratch.new.clean
        ≡ string_bytes scratch.old.clean ++ day_text day) }
{
    scratch.measured.clear();
    push_day(&mut scratch.measured, day)?;
    add_printable(&mut scratch.clean, &scratch.measured)?;
    Ok(())
}

/// Adds a label between quotes, where there is one.
fn add_label(scratch: &mut Scratch, label: &Option<Text<'_>>) -> Result<(), AllocError>
    ensures { OnOk result (string_bytes scratch.new.clean
        ≡ string_bytes scratch.old.clean ++ label_text label.now) }
{
    if let Some(label) = label {
        scratch.clean.push_str(", \"")?;
        scratch.read.clear();
        label.add_to(&mut scratch.read)?;
        add_clean(&mut scratch.clean, &scratch.read)?;
        scratch.clean.push_str("\"")?;
    }
    Ok(())
}

fn add_lot(scratch: &mut Scratch, lot: &Lot<'_>, display: &Display<'_>) -> Result<(), AllocError>
    ensures { OnOk result (string_bytes scratch.new.clean
        ≡ string_bytes scratch.old.clean ++ lot_text (decimals_of display.now) lot.now) }
{
    scratch.clean.push_str(" {")?;
    add_units(
        scratch,
        lot.cost.count,
        COUNT_PLACES,
        &lot.cost.currency,
        display,
    )?;
    scratch.clean.push_str(", ")?;
    add_day(scratch, lot.day)?;
    add_label(scratch, &lot.label)?;
    scratch.clean.push_str("}")?;
    Ok(())
}

/// Adds units of a key, and the lot that they are held as.
pub(crate) fn add_entry(
    scratch: &mut Scratch,
    key: &Key<'_>,
    count: i128,
    places: u8,
    display: &Display<'_>,
) -> Result<(), AllocError>
    ensures { OnOk result (string_bytes scratch.new.clean ≡ string_bytes scratch.old.clean
        ++ entry_text (decimals_of display.now) places key.now count) }
{
    add_units(scratch, count, places, &key.currency, display)?;
    if let Some(lot) = &key.lot {
        add_lot(scratch, lot, display)?;
    }
    Ok(())
}

/// The text of a position, in place of what was there.
fn make_position(
    scratch: &mut Scratch,
    key: &Key<'_>,
    count: i128,
    display: &Display<'_>,
) -> Result<(), AllocError>
    ensures { OnOk result (string_bytes scratch.new.clean
        ≡ position_text (decimals_of display.now) key.now count) }
{
    scratch.clean.clear();
    add_entry(scratch, key, count, COUNT_PLACES, display)
}

/// Adds a position, and tells its width.
#[inline(always)]
pub(crate) fn push_position(
    out: &mut Vec<u8>,
    key: &Key<'_>,
    count: i128,
    display: &Display<'_>,
    scratch: &mut Scratch,
) -> Result<usize, AllocError>
    ensures text { OnOk result (out.new.items ≡ out.old.items
        ++ position_text (decimals_of display.now) key.now count) }
    ensures width { IfOk result (λ n. n
        ≡ text_width (position_text (decimals_of display.now) key.now count)) }
{
    // Most are held without a lot: their width is told without looking at characters.
    if key.lot.is_none() {
        return push_units(
            out,
            count,
            COUNT_PLACES,
            &key.currency,
            display,
            &mut scratch.nears,
        );
    }
    make_position(scratch, key, count, display)?;
    push_as_it_is(out, &scratch.clean)
}

/// How many columns of a terminal a position takes.
#[inline(always)]
pub(crate) fn position_width(
    key: &Key<'_>,
    count: i128,
    display: &Display<'_>,
    scratch: &mut Scratch,
) -> Result<usize, AllocError>
    ensures { IfOk result (λ n. n
        ≡ text_width (position_text (decimals_of display.now) key.now count)) }
{
    if key.lot.is_none() {
        return Ok(units_width(
            count,
            COUNT_PLACES,
            &key.currency,
            display,
            &mut scratch.nears,
        ));
    }
    make_position(scratch, key, count, display)?;
    Ok(width_of(&scratch.clean))
}
