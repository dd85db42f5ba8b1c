//! The texts of cells, and how wide they are.
ghost use Rattle.std.specs.Prelude.{◌≡◌, ◌≤◌, ◌+◌, ◌-◌, ◌++◌, ◌∷◌, ℕ, List, OnOk, IfOk, false, length, replicate, true};
ghost use Rattle.std.specs.Prelude.{if◌then◌else◌};
ghost use Rattle.bean_base.specs.Character.{space};
ghost use Rattle.std.specs.Int.{is_in_range};
ghost use Rattle.std.specs.List.{list_all};
ghost use Rattle.std.specs.String.{string_bytes};
ghost use Rattle.posting_table.specs.Decimals.{decimals_of};
ghost use Rattle.number_texts.specs.Digits.{number_text};
ghost use Rattle.cell_texts.specs.Width.{text_width};
ghost use Rattle.cell_texts.specs.Width.{filled};
ghost use Rattle.cell_texts.specs.CellText.{between_entries, cell_text, clean_text, set_text, units_text};
ghost use Rattle.cell_texts.specs.CellText as spec;
ghost use Rattle.theory.specs.Joined.{gap_before};

use crate::cell::{Cell, Shown};
use crate::decimals::own_decimals;
use crate::inventories::{inventory_width, push_inventory};
use crate::nears::{Nears, place_of};
use crate::numbers::{Numbers, Told};
use crate::positions::{position_width, push_position};
use bean_base::Currency;
use number_texts::{
    LastDay, is_plain, number_len, push_bytes, push_number, push_number_named, push_number_right,
    push_padding, push_plain,
};
use posting_table::Display;
use query_values::TextSet;
use std::alloc::{AllocError, Global};
use unicode_width::UnicodeWidthStr;

/// Buffers that every cell uses again.
#[derive(Drop)]
pub struct Scratch {
    pub(crate) alloc: Global,
    /// A text without control characters.
    pub(crate) clean: String,
    /// What a text with escapes stands for.
    pub(crate) read: String,
    /// A text that is only measured.
    pub(crate) measured: Vec<u8>,
    /// The day that was written last.
    pub(crate) day: LastDay,
    /// Where decimals were found last.
    pub(crate) nears: Nears,
    /// The numbers of inventories that were written last.
    pub(crate) numbers: Numbers,
}

impl Scratch {
    /// Nothing was written.
    pub fn new(alloc: Global) -> Scratch {
        Scratch {
            alloc,
            clean: String::new(alloc),
            read: String::new(alloc),
            measured: Vec::new(alloc),
            day: LastDay::new(),
            nears: Nears::new(),
            numbers: Numbers::new(),
        }
    }
}

/// Whether a cell stands at the right of its column.
pub fn is_number(cell: &Cell<'_>) -> bool
    ensures { result ≡ spec.is_number cell.now }
{
    matches!(cell.shown(), Shown::Number { .. })
}

fn shown_character(c: char) -> char
    ensures { result ≡ spec.shown_character c }
{
    if c.is_control() { ' ' } else { c }
}

/// How many columns of a terminal a text takes that has no control characters.
#[tactic(auto, using(crate::proofs::Printable::width_printable))]
pub(crate) fn width_of(text: &str) -> usize
    ensures { result ≡ text_width text.now }
{
    if is_plain(text) {
        return text.len();
    }
    text.width()
}

/// Adds a text with spaces in place of its control characters.
pub(crate) fn add_clean(clean: &mut String, text: &str) -> Result<(), AllocError>
    ensures { OnOk result (string_bytes clean.new ≡ string_bytes clean.old ++ clean_text text.now) }
{
    for c in text.chars() {
        clean.push(shown_character(c))?;
    }
    Ok(())
}

/// A text with spaces in place of its control characters, in place of what was there. Few texts are
/// made so: it stays out of what is done for each cell.
#[inline(never)]
fn make_clean(clean: &mut String, text: &str) -> Result<(), AllocError>
    ensures { OnOk result (string_bytes clean.new ≡ clean_text text.now) }
{
    clean.clear();
    add_clean(clean, text)
}

/// Adds what stands between two items before the one of that number, unless it is the first.
pub(crate) fn add_between(clean: &mut String, between: &str, item: usize) -> Result<(), AllocError>
    ensures { OnOk result (string_bytes clean.new
        ≡ string_bytes clean.old ++ gap_before between.now item) }
{
    if item > 0 {
        clean.push_str(between)?;
    }
    Ok(())
}

/// The text of a set, in place of what was there.
fn make_set(clean: &mut String, set: &TextSet<'_>) -> Result<(), AllocError>
    ensures { OnOk result (string_bytes clean.new ≡ set_text set.now) }
{
    clean.clear();
    for (i, text) in set.as_slice().iter().enumerate() {
        add_between(clean, ",", i)?;
        add_clean(clean, text.text())?;
    }
    Ok(())
}

/// How many columns of a terminal a text takes without its control characters.
#[inline(always)]
pub(crate) fn clean_width(text: &str, clean: &mut String) -> Result<usize, AllocError>
    ensures { IfOk result (λ n. n ≡ text_width (clean_text text.now)) }
{
    if is_plain(text) {
        return Ok(text.len());
    }
    make_clean(clean, text)?;
    Ok(clean.width())
}

/// How many spaces stand behind a text that wide in a column, with those behind the column.
#[inline(always)]
fn spaces_behind(own: usize, width: usize, behind: usize) -> Result<usize, AllocError>
    ensures { IfOk result (λ n. n ≡ width - own + behind) }
{
    width
        .saturating_sub(own)
        .checked_add(behind)
        .ok_or(AllocError)
}

/// Adds a text as it is, and tells its width.
pub(crate) fn push_as_it_is(out: &mut Vec<u8>, text: &str) -> Result<usize, AllocError>
    ensures text { OnOk result (out.new.items ≡ out.old.items ++ text.now) }
    ensures width { IfOk result (λ n. n ≡ text_width text.now) }
{
    out.extend_from_slice(text.as_bytes())?;
    Ok(width_of(text))
}

/// Adds a text without its control characters, that isn't plain, and tells its width.
#[inline(never)]
fn push_made(out: &mut Vec<u8>, text: &str, clean: &mut String) -> Result<usize, AllocError>
    ensures text { OnOk result (out.new.items ≡ out.old.items ++ clean_text text.now) }
    ensures width { IfOk result (λ n. n ≡ text_width (clean_text text.now)) }
{
    make_clean(clean, text)?;
    push_as_it_is(out, clean)
}

/// Adds a text without its control characters, and tells its width.
#[inline(always)]
fn push_clean(out: &mut Vec<u8>, text: &str, clean: &mut String) -> Result<usize, AllocError>
    ensures text { OnOk result (out.new.items ≡ out.old.items ++ clean_text text.now) }
    ensures width { IfOk result (λ n. n ≡ text_width (clean_text text.now)) }
{
    if is_plain(text) {
        push_bytes(out, text.as_bytes(), 0)?;
        return Ok(text.len());
    }
    push_made(out, text, clean)
}

/// Adds a text without its control characters at the left of a column that is so wide, and so many
/// spaces behind the column.
#[inline(always)]
fn push_clean_left(
    out: &mut Vec<u8>,
    text: &str,
    width: usize,
    behind: usize,
    clean: &mut String,
) -> Result<(), AllocError>
    ensures { OnOk result (out.new.items ≡ out.old.items ++ clean_text text.now
        ++ replicate (width - text_width (clean_text text.now) + behind) space) }
{
    let spaces = spaces_behind(text.len(), width, behind)?;
    if push_plain(out, text, spaces)? {
        return Ok(());
    }
    push_any_clean_left(out, text, width, behind, clean)
}

/// The same of any text.
#[inline(never)]
fn push_any_clean_left(
    out: &mut Vec<u8>,
    text: &str,
    width: usize,
    behind: usize,
    clean: &mut String,
) -> Result<(), AllocError>
    ensures { OnOk result (out.new.items ≡ out.old.items ++ clean_text text.now
        ++ replicate (width - text_width (clean_text text.now) + behind) space) }
{
    let own = push_clean(out, text, clean)?;
    push_padding(out, spaces_behind(own, width, behind)?)?;
    Ok(())
}

/// Adds the texts of a set, and tells their width.
fn push_set(out: &mut Vec<u8>, set: &TextSet<'_>, clean: &mut String) -> Result<usize, AllocError>
    ensures text { OnOk result (out.new.items ≡ out.old.items ++ set_text set.now) }
    ensures width { IfOk result (λ n. n ≡ text_width (set_text set.now)) }
{
    make_set(clean, set)?;
    push_as_it_is(out, clean)
}

/// How many columns of a terminal the texts of a set take.
fn set_width(set: &TextSet<'_>, clean: &mut String) -> Result<usize, AllocError>
    ensures { IfOk result (λ n. n ≡ text_width (set_text set.now)) }
{
    make_set(clean, set)?;
    Ok(width_of(clean))
}

fn truth_text(truth: bool) -> &'static str
    ensures { result.now ≡ spec.truth_text truth }
{
    if truth { "TRUE" } else { "FALSE" }
}

/// Adds a truth value, and tells its width.
fn push_truth(out: &mut Vec<u8>, truth: bool) -> Result<usize, AllocError>
    ensures text { OnOk result (out.new.items ≡ out.old.items ++ spec.truth_text truth) }
    ensures width { IfOk result (λ n. n ≡ text_width (spec.truth_text truth)) }
{
    let text = truth_text(truth);
    out.extend_from_slice(text.as_bytes())?;
    Ok(text.len())
}

/// How many columns of a terminal a truth value takes.
fn truth_width(truth: bool) -> usize
    ensures { result ≡ text_width (spec.truth_text truth) }
{
    truth_text(truth).len()
}

/// Adds a number with the fewest decimals that are exact, and tells its width. Numbers stand at the
/// right of their columns, and are added so.
#[inline(never)]
fn push_exact(out: &mut Vec<u8>, count: i128, places: u8) -> Result<usize, AllocError>
    ensures text { OnOk result (out.new.items ≡ out.old.items ++ number_text count places 0) }
    ensures width { IfOk result (λ n. n ≡ text_width (number_text count places 0)) }
{
    let start = out.len();
    push_number(out, count, places, own_decimals(count, places))?;
    Ok(out.len() - start)
}

/// Adds the number `count` · `10^-places` and a currency, and tells their width.
#[inline(always)]
pub(crate) fn push_units(
    out: &mut Vec<u8>,
    count: i128,
    places: u8,
    currency: &Currency<'_>,
    display: &Display<'_>,
    nears: &mut Nears,
) -> Result<usize, AllocError>
    ensures text { OnOk result (out.new.items ≡ out.old.items
        ++ units_text (decimals_of display.now) count places currency.now) }
    ensures width { IfOk result (λ n. n
        ≡ text_width (units_text (decimals_of display.now) count places currency.now)) }
    ensures printable { IfOk result (λ _. list_all (is_in_range 32 126)
        (units_text (decimals_of display.now) count places currency.now) ≡ true) }
{
    let start = out.len();
    let least = nears.decimals(display, currency);
    push_number_named(out, count, places, least, currency.text().as_bytes())?;
    Ok(out.len() - start)
}

/// The same where it is seldom called. Positions are many, and their units are put in place.
#[inline(never)]
pub(crate) fn push_amount(
    out: &mut Vec<u8>,
    count: i128,
    places: u8,
    currency: &Currency<'_>,
    display: &Display<'_>,
    nears: &mut Nears,
) -> Result<usize, AllocError>
    ensures text { OnOk result (out.new.items ≡ out.old.items
        ++ units_text (decimals_of display.now) count places currency.now) }
    ensures width { IfOk result (λ n. n
        ≡ text_width (units_text (decimals_of display.now) count places currency.now)) }
    ensures printable { IfOk result (λ _. list_all (is_in_range 32 126)
        (units_text (decimals_of display.now) count places currency.now) ≡ true) }
{
    push_units(out, count, places, currency, display, nears)
}

/// How many columns of a terminal a number takes that has the fewest decimals that are exact.
#[inline(always)]
pub(crate) fn exact_width(count: i128, places: u8) -> usize
    ensures { result ≡ text_width (number_text count places 0) }
{
    number_len(count, places, own_decimals(count, places))
}

/// How many columns of a terminal the number `count` · `10^-places` and a currency take.
#[inline(never)]
pub(crate) fn units_width(
    count: i128,
    places: u8,
    currency: &Currency<'_>,
    display: &Display<'_>,
    nears: &mut Nears,
) -> usize
    ensures width { result
        ≡ text_width (units_text (decimals_of display.now) count places currency.now) }
    ensures printable { list_all (is_in_range 32 126)
        (units_text (decimals_of display.now) count places currency.now) ≡ true }
{
    let number = number_len(count, places, nears.decimals(display, currency));
    number + 1 + currency.text().len()
}

/// Adds a space, a name and what stands between two entries: at once where the name is of three bytes.
#[inline(always)]
fn push_name_between(out: &mut Vec<u8>, name: &[u8]) -> Result<(), AllocError>
    ensures { OnOk result (out.new.items ≡ out.old.items ++ (space ∷ name.now ++ between_entries)) }
{
    if let [first, second, third] = name {
        return out.extend_from_slice(&[b' ', *first, *second, *third, b',', b' ']);
    }
    out.push(b' ')?;
    out.extend_from_slice(name)?;
    out.extend_from_slice(b", ")
}

/// Adds a number of an inventory, which most often was there in the one before, its currency, and what
/// stands between two entries.
pub(crate) fn push_held(
    out: &mut Vec<u8>,
    count: i128,
    places: u8,
    currency: &Currency<'_>,
    display: &Display<'_>,
    nears: &mut Nears,
    numbers: &mut Numbers,
) -> Result<(), AllocError>
    ensures text { OnOk result (out.new.items ≡ out.old.items
        ++ (units_text (decimals_of display.now) count places currency.now ++ between_entries)) }
    ensures printable { IfOk result (λ _. list_all (is_in_range 32 126)
        (units_text (decimals_of display.now) count places currency.now) ≡ true) }
{
    let place = place_of(currency.text());
    let least = nears.decimals_at(place, display, currency);
    let told = Told {
        count,
        places,
        least,
    };
    numbers.push(out, place, told)?;
    push_name_between(out, currency.text().as_bytes())?;
    Ok(())
}

/// How many columns of a terminal the number of an inventory and its currency take.
pub(crate) fn held_width(
    count: i128,
    places: u8,
    currency: &Currency<'_>,
    display: &Display<'_>,
    nears: &mut Nears,
    numbers: &mut Numbers,
) -> usize
    ensures width { result
        ≡ text_width (units_text (decimals_of display.now) count places currency.now) }
    ensures printable { list_all (is_in_range 32 126)
        (units_text (decimals_of display.now) count places currency.now) ≡ true }
{
    let place = place_of(currency.text());
    let least = nears.decimals_at(place, display, currency);
    let told = Told {
        count,
        places,
        least,
    };
    numbers.len(place, told) + 1 + currency.text().len()
}

/// How wide the text of a day is.
const DAY_WIDTH: usize = 10;

/// Adds the text of a cell, and tells how many columns of a terminal it takes.
#[inline(always)]
pub fn push_cell(
    out: &mut Vec<u8>,
    cell: &Cell<'_>,
    display: &Display<'_>,
    scratch: &mut Scratch,
) -> Result<usize, AllocError>
    ensures text { OnOk result (out.new.items ≡ out.old.items
        ++ cell_text (decimals_of display.now) cell.now) }
    ensures width { IfOk result (λ n. n
        ≡ text_width (cell_text (decimals_of display.now) cell.now)) }
{
    match cell.shown() {
        Shown::Null => Ok(0),
        Shown::Truth(truth) => push_truth(out, *truth),
        Shown::Number { places, count } => push_exact(out, *count, *places),
        Shown::Text(text) => push_clean(out, text.text(), &mut scratch.clean),
        Shown::Day(day) => {
            scratch.day.push(out, *day, 0)?;
            Ok(DAY_WIDTH)
        }
        Shown::Set(set) => push_set(out, set.get(), &mut scratch.clean),
        Shown::Amount {
            places,
            count,
            currency,
        } => push_amount(
            out,
            *count,
            *places,
            currency.get(),
            display,
            &mut scratch.nears,
        ),
        Shown::Position { key, count } => push_position(out, key.get(), *count, display, scratch),
        Shown::Inventory { places, held } => push_inventory(out, *places, held, display, scratch),
    }
}

/// Adds a cell of any kind at the left of a column that is so wide, and so many spaces behind the column.
/// It is too long to be put in place wherever texts and days are written.
#[inline(never)]
fn push_any_left(
    out: &mut Vec<u8>,
    cell: &Cell<'_>,
    width: usize,
    behind: usize,
    display: &Display<'_>,
    scratch: &mut Scratch,
) -> Result<(), AllocError>
    ensures { OnOk result (out.new.items ≡ out.old.items ++ filled false width
        (text_width (cell_text (decimals_of display.now) cell.now))
        (cell_text (decimals_of display.now) cell.now) ++ replicate behind space) }
{
    let own = push_cell(out, cell, display, scratch)?;
    push_padding(out, spaces_behind(own, width, behind)?)?;
    Ok(())
}

/// Adds a text or a day at the left of a column that is so wide, and so many spaces behind the column.
/// Tells whether the cell is one. It is only looked at: so none is made of what is known beforehand.
#[inline(always)]
pub fn push_text_or_day(
    out: &mut Vec<u8>,
    cell: &Cell<'_>,
    width: usize,
    behind: usize,
    scratch: &mut Scratch,
) -> Result<bool, AllocError>
    ensures which { IfOk result (λ is. is ≡ spec.is_text_or_day cell.now) }
    ensures added { IfOk result (λ is. (display : List ℕ → ℕ) → out.new.items ≡ (if is then
        out.old.items ++ filled false width (text_width (cell_text display cell.now))
        (cell_text display cell.now) ++ replicate behind space else out.old.items)) }
{
    match cell.shown() {
        Shown::Text(text) => {
            push_clean_left(out, text.text(), width, behind, &mut scratch.clean)?;
            Ok(true)
        }
        Shown::Day(day) => {
            let spaces = spaces_behind(DAY_WIDTH, width, behind)?;
            scratch.day.push(out, *day, spaces)?;
            Ok(true)
        }
        _ => Ok(false),
    }
}

/// Adds a cell at the left of a column that is so wide, and so many spaces behind the column.
#[inline(always)]
pub fn push_left(
    out: &mut Vec<u8>,
    cell: &Cell<'_>,
    width: usize,
    behind: usize,
    display: &Display<'_>,
    scratch: &mut Scratch,
) -> Result<(), AllocError>
    ensures { OnOk result (out.new.items ≡ out.old.items ++ filled false width
        (text_width (cell_text (decimals_of display.now) cell.now))
        (cell_text (decimals_of display.now) cell.now) ++ replicate behind space) }
{
    if push_text_or_day(out, cell, width, behind, scratch)? {
        return Ok(());
    }
    push_any_left(out, cell, width, behind, display, scratch)
}

/// Adds a number at the right of a column that is so wide, with the fewest decimals that are exact, and
/// so many spaces behind it.
#[inline(always)]
fn push_exact_right(
    out: &mut Vec<u8>,
    count: i128,
    places: u8,
    width: usize,
    behind: usize,
) -> Result<(), AllocError>
    ensures { OnOk result (out.new.items ≡ out.old.items ++ filled true width
        (text_width (number_text count places 0)) (number_text count places 0)
        ++ replicate behind space) }
{
    let least = own_decimals(count, places);
    push_number_right(out, count, places, least, width, behind)?;
    Ok(())
}

/// The same of any cell: it is measured first.
#[inline(never)]
fn push_any_right(
    out: &mut Vec<u8>,
    cell: &Cell<'_>,
    width: usize,
    behind: usize,
    display: &Display<'_>,
    scratch: &mut Scratch,
) -> Result<(), AllocError>
    ensures { OnOk result (out.new.items ≡ out.old.items ++ filled true width
        (text_width (cell_text (decimals_of display.now) cell.now))
        (cell_text (decimals_of display.now) cell.now) ++ replicate behind space) }
{
    let own = cell_width(cell, display, scratch)?;
    push_padding(out, width.saturating_sub(own))?;
    push_cell(out, cell, display, scratch)?;
    push_padding(out, behind)?;
    Ok(())
}

/// Adds a cell at the right of a column that is so wide, and so many spaces behind it.
#[inline(always)]
pub fn push_right(
    out: &mut Vec<u8>,
    cell: &Cell<'_>,
    width: usize,
    behind: usize,
    display: &Display<'_>,
    scratch: &mut Scratch,
) -> Result<(), AllocError>
    ensures { OnOk result (out.new.items ≡ out.old.items ++ filled true width
        (text_width (cell_text (decimals_of display.now) cell.now))
        (cell_text (decimals_of display.now) cell.now) ++ replicate behind space) }
{
    if let Shown::Number { places, count } = cell.shown() {
        return push_exact_right(out, *count, *places, width, behind);
    }
    push_any_right(out, cell, width, behind, display, scratch)
}

/// How many columns of a terminal the text of a cell takes.
#[inline(always)]
pub fn cell_width(
    cell: &Cell<'_>,
    display: &Display<'_>,
    scratch: &mut Scratch,
) -> Result<usize, AllocError>
    ensures { IfOk result (λ n. n
        ≡ text_width (cell_text (decimals_of display.now) cell.now)) }
{
    match cell.shown() {
        Shown::Null => Ok(0),
        Shown::Truth(truth) => Ok(truth_width(*truth)),
        Shown::Number { places, count } => Ok(exact_width(*count, *places)),
        Shown::Text(text) => clean_width(text.text(), &mut scratch.clean),
        Shown::Day(_) => Ok(DAY_WIDTH),
        Shown::Set(set) => set_width(set.get(), &mut scratch.clean),
        Shown::Amount {
            places,
            count,
            currency,
        } => Ok(units_width(*count, *places, currency.get(), display, &mut scratch.nears)),
        Shown::Position { key, count } => position_width(key.get(), *count, display, scratch),
        Shown::Inventory { places, held } => inventory_width(*places, held, display, scratch),
    }
}
