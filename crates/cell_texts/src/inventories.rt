//! The texts of inventories, and how wide they are.
//!
//! What inventories lend has one lifetime here, as in the cells that lend them: the checker compares
//! fewer types for it.
ghost use Rattle.std.specs.Prelude.{◌≡◌, ◌+◌, ◌++◌, OnOk, IfOk, IfSome, true};
ghost use Rattle.std.specs.Int.{is_in_range};
ghost use Rattle.std.specs.List.{list_all};
ghost use Rattle.std.specs.String.{string_bytes};
ghost use Rattle.posting_table.specs.Decimals.{decimals_of};
ghost use Rattle.cell_texts.specs.Width.{text_width};
ghost use Rattle.query_holdings.specs.Entries.{in_order};
ghost use Rattle.cell_texts.specs.CellText.{bag_text, entries_text};
ghost use Rattle.cell_texts.specs.CellText as spec;

use crate::cells::{Scratch, add_between, held_width, push_as_it_is, push_held, width_of};
use crate::nears::Nears;
use crate::numbers::Numbers;
use crate::positions::add_entry;
use posting_table::Display;
use query_values::{Entry, Holdings, InOrder};
use std::alloc::AllocError;

/// How wide what stands between two entries is.
const BETWEEN_WIDTH: usize = 2;

/// Whether an entry is held without a lot.
fn is_plain(entry: &Entry<'_, '_>) -> bool
    ensures { result ≡ spec.is_plain entry.now }
{
    entry.key().lot().is_none()
}

/// Whether all entries are held without a lot, as most are.
fn are_plain<'h>(entries: &InOrder<'h, 'h>) -> bool
    ensures { result ≡ list_all spec.is_plain entries.now }
{
    for place in 0..entries.len() {
        if !is_plain(&entries.entry(place)) {
            return false;
        }
    }
    true
}

/// Adds entries that are held without a lot.
fn push_plain<'h>(
    out: &mut Vec<u8>,
    entries: &InOrder<'h, 'h>,
    places: u8,
    display: &Display<'_>,
    nears: &mut Nears,
    numbers: &mut Numbers,
) -> Result<(), AllocError>
    requires plain { list_all spec.is_plain entries.now ≡ true }
    ensures text { OnOk result (out.new.items
        ≡ out.old.items ++ entries_text (decimals_of display.now) places entries.now) }
    ensures printable { OnOk result (list_all (is_in_range 32 126)
        (entries_text (decimals_of display.now) places entries.now) ≡ true) }
{
    for place in 0..entries.len() {
        let entry = entries.entry(place);
        push_held(
            out,
            entry.count(),
            places,
            entry.key().currency(),
            display,
            nears,
            numbers,
        )?;
    }
    // Nothing stands behind the last.
    if entries.len() > 0 {
        out.truncate(out.len() - BETWEEN_WIDTH);
    }
    Ok(())
}

/// A width with one entry more, and what stands behind it.
fn wider(width: usize, own: usize) -> Option<usize>
    ensures { IfSome result (λ n. n ≡ width + own + 2) }
{
    width.checked_add(own)?.checked_add(BETWEEN_WIDTH)
}

/// How many columns of a terminal entries take that are all held without a lot, or none where one is
/// held in a lot. They take as many in any order.
fn plain_width<'h>(
    held: &Holdings<'h, 'h>,
    places: u8,
    display: &Display<'_>,
    nears: &mut Nears,
    numbers: &mut Numbers,
) -> Option<usize>
    ensures { IfSome result (λ n. n
        ≡ text_width (entries_text (decimals_of display.now) places (in_order held.now))) }
{
    let mut width: usize = 0;
    let mut rest = held.lend();
    while let Some((key, count)) = rest.next_held() {
        if key.lot().is_some() {
            return None;
        }
        let own = held_width(count, places, key.currency(), display, nears, numbers);
        width = wider(width, own)?;
    }
    // Nothing stands behind the last.
    Some(width.saturating_sub(BETWEEN_WIDTH))
}

/// The text of entries, in place of what was there.
fn make_entries<'h>(
    scratch: &mut Scratch,
    places: u8,
    entries: &InOrder<'h, 'h>,
    display: &Display<'_>,
) -> Result<(), AllocError>
    ensures { OnOk result (string_bytes scratch.new.clean
        ≡ entries_text (decimals_of display.now) places entries.now) }
{
    scratch.clean.clear();
    for place in 0..entries.len() {
        let entry = entries.entry(place);
        add_between(&mut scratch.clean, ", ", place)?;
        let lent = entry.key();
        add_entry(scratch, &lent.key(), entry.count(), places, display)?;
    }
    Ok(())
}

/// Adds entries, and tells their width.
fn push_entries<'h>(
    out: &mut Vec<u8>,
    entries: &InOrder<'h, 'h>,
    places: u8,
    display: &Display<'_>,
    scratch: &mut Scratch,
) -> Result<usize, AllocError>
    ensures text { OnOk result (out.new.items
        ≡ out.old.items ++ entries_text (decimals_of display.now) places entries.now) }
    ensures width { IfOk result (λ n. n
        ≡ text_width (entries_text (decimals_of display.now) places entries.now)) }
{
    if are_plain(entries) {
        let start = out.len();
        push_plain(
            out,
            entries,
            places,
            display,
            &mut scratch.nears,
            &mut scratch.numbers,
        )?;
        return Ok(out.len() - start);
    }
    make_entries(scratch, places, entries, display)?;
    push_as_it_is(out, &scratch.clean)
}

/// Adds an inventory, and tells its width.
pub(crate) fn push_inventory<'h>(
    out: &mut Vec<u8>,
    places: u8,
    held: &Holdings<'h, 'h>,
    display: &Display<'_>,
    scratch: &mut Scratch,
) -> Result<usize, AllocError>
    ensures text { OnOk result (out.new.items
        ≡ out.old.items ++ bag_text (decimals_of display.now) (record { places = places; held = held.now })) }
    ensures width { IfOk result (λ n. n ≡ text_width (bag_text (decimals_of display.now) (record { places = places; held = held.now }))) }
{
    let entries = held.in_order(scratch.alloc)?;
    push_entries(out, &entries, places, display, scratch)
}

/// How many columns of a terminal an inventory takes.
pub(crate) fn inventory_width<'h>(
    places: u8,
    held: &Holdings<'h, 'h>,
    display: &Display<'_>,
    scratch: &mut Scratch,
) -> Result<usize, AllocError>
    ensures { IfOk result (λ n. n ≡ text_width (bag_text (decimals_of display.now) (record { places = places; held = held.now }))) }
{
    if let Some(width) = plain_width(
        held,
        places,
        display,
        &mut scratch.nears,
        &mut scratch.numbers,
    ) {
        return Ok(width);
    }
    let entries = held.in_order(scratch.alloc)?;
    make_entries(scratch, places, &entries, display)?;
    Ok(width_of(&scratch.clean))
}
