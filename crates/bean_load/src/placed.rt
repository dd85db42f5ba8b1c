//! What is written in texts, with its place in reading order.
ghost use Rattle.std.specs.Prelude.{◌≡◌, ◌++◌, map, length, fold, IfOk, OnOk};
ghost use Rattle.bean_load.specs.Placed as spec;
ghost use Rattle.bean_load.specs.Turns.{AreCodesIf};

use crate::order::Codes;
use crate::texts::Part;
use bean_loaded::Placed;
use bean_parser::{ApartDirective, Setting};
use std::alloc::{AllocError, Global};

/// A part of a text: the line behind which it begins, and its number in reading order.
#[derive(Clone, Copy)]
pub struct Own {
    pub behind: usize,
    pub number: usize,
}

/// The parts of a text.
pub fn parts_of(alloc: Global, file: usize, parts: &[Part]) -> Result<Vec<Own>, AllocError>
    ensures { IfOk result (λ own. own.items ≡ spec.parts_of file 0 parts.now) }
{
    let mut own = Vec::new(alloc);
    for (number, part) in parts.iter().enumerate() {
        if part.file == file {
            own.push(Own {
                behind: part.behind,
                number,
            })?;
        }
    }
    Ok(own)
}

fn later(line: usize, number: usize, part: Own) -> usize
    ensures { result ≡ spec.later line number part }
{
    if part.behind < line {
        part.number
    } else {
        number
    }
}

/// The number of the part in which a line of a text stands.
fn part_at(own: &[Own], line: usize) -> usize
    ensures { result ≡ spec.part_at own.now line }
{
    let mut number = 0;
    for part in own {
        number = later(line, number, *part);
    }
    number
}

/// Adds the directives of a text with their places, and their codes. Each lies apart, so that little is
/// moved here and where they are sorted, and each is given up alone. To look at one waits for memory,
/// so what is asked of it is asked at once.
pub fn add_directives<'a>(
    file: usize,
    own: &[Own],
    directives: Vec<ApartDirective<'a>>,
    out: &mut Vec<Placed<ApartDirective<'a>>>,
    codes: &mut Codes,
) -> Result<(), AllocError>
    ensures placed { OnOk result (out.new.items
        ≡ out.old.items ++ map (spec.placed_directive file own.now) directives.entry.items) }
    ensures coded { OnOk result (AreCodesIf out.old.items codes.old
        → AreCodesIf out.new.items codes.new) }
{
    out.reserve(directives.len())?;
    codes.codes.reserve(directives.len())?;
    for directive in directives {
        let part = part_at(own, directive.get().line as usize);
        let placed = Placed::new(file, part, directive)?;
        codes.add(&placed)?;
        out.push(placed)?;
    }
    Ok(())
}

/// Adds the settings of a text with their places.
pub fn add_settings<'a>(
    file: usize,
    own: &[Own],
    settings: Vec<Setting<'a>>,
    out: &mut Vec<Placed<Setting<'a>>>,
) -> Result<(), AllocError>
    ensures { OnOk result (out.new.items
        ≡ out.old.items ++ map (spec.placed_setting file own.now) settings.entry.items) }
{
    for setting in settings {
        let part = part_at(own, setting.line);
        out.push(Placed::new(file, part, setting)?)?;
    }
    Ok(())
}
