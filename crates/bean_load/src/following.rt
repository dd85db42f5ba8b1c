//! Gathering the texts of a ledger: the top one, and those that include lines name.
ghost use Rattle.std.specs.Prelude.{◌≡◌, length};
ghost use Rattle.std.specs.String.{string_bytes};
ghost use Rattle.bean_load.specs.Gathered as spec;
ghost use Rattle.bean_load.specs.Gathering.{LineComes, LinesCome, TextComes};
ghost use Rattle.bean_load.specs.Following.{Follows, Gathers, HasOneGathering};

use crate::cause::LoadCause;
use crate::gathering::{DEEPEST, Gathering, SourceAnswer};
use crate::include::{Include, Written, includes_of};
use crate::texts::Texts;
use refusals::Refusal;
use std::alloc::Global;
use stores::Source;

/// Reads a text, which is the next one: the texts of its include lines, each at its line.
#[cycle(following)]
fn follow_text<S: Source>(
    source: &mut S,
    gathering: &mut Gathering,
    room: usize,
    name: String,
    text: String,
) -> Result<(), Refusal<LoadCause>>
    ensures { Follows S.Source source.old source.new
        (TextComes room (string_bytes name) (string_bytes text) gathering.old)
        gathering.new result }
{
    let file = gathering.next_file();
    let including = name.clone()?;
    let lines = includes_of(gathering.alloc, &including, &text)?;
    gathering.add_file(name, text)?;
    follow_lines(source, gathering, room, file, &lines)
}

/// Reads the texts of some include lines of a text, one after the other.
#[cycle(following)]
fn follow_lines<S: Source>(
    source: &mut S,
    gathering: &mut Gathering,
    room: usize,
    file: usize,
    lines: &[Written<'_>],
) -> Result<(), Refusal<LoadCause>>
    ensures { Follows S.Source source.old source.new
        (LinesCome room file lines.now gathering.old) gathering.new result }
{
    for line in lines {
        let include = line.include(gathering.alloc)?;
        follow_line(source, gathering, room, file, &include)?;
    }
    Ok(())
}

/// Reads the text of an include line, and those of its own include lines.
#[cycle(following)]
fn follow_line<S: Source>(
    source: &mut S,
    gathering: &mut Gathering,
    room: usize,
    file: usize,
    include: &Include,
) -> Result<(), Refusal<LoadCause>>
    ensures { Follows S.Source source.old source.new
        (LineComes room file include.now gathering.old) gathering.new result }
{
    if gathering.was_asked(&include.name) {
        gathering.add_fault(file, include.line)?;
        return Ok(());
    }
    if gathering.is_full(room) {
        return Err(Refusal::Refused(LoadCause::TooLarge));
    }
    match gathering.ask(source, &include.name)? {
        SourceAnswer::Text(text) => {
            let name = include.name.clone()?;
            follow_text(source, gathering, room - 1, name, text)?;
            gathering.add_part(file, include.line)?;
            Ok(())
        }
        SourceAnswer::NotUtf8 | SourceAnswer::Failed => {
            gathering.add_fault(file, include.line)?;
            Ok(())
        }
    }
}

/// The texts of a ledger whose top one has that name.
pub fn gather<S: Source>(
    alloc: Global,
    source: &mut S,
    name: &str,
) -> Result<Texts, Refusal<LoadCause>>
    ensures { Gathers S.Source source.old source.new name.now result }
{
    let mut gathering = Gathering::new(alloc);
    match gathering.ask(source, name)? {
        SourceAnswer::Text(text) => {
            let name = String::from_str(alloc, name)?;
            follow_text(source, &mut gathering, DEEPEST, name, text)?;
            Ok(gathering.texts())
        }
        SourceAnswer::NotUtf8 => Err(Refusal::Refused(LoadCause::NotUtf8)),
        SourceAnswer::Failed => Err(Refusal::Refused(LoadCause::Unreadable)),
    }
}

/// What the source answers decides the texts, or the fault.
pub fn one_gathering()
    ensures { HasOneGathering }
{}
