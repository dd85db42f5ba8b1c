//! A line for each fault.
ghost use Rattle.std.specs.Prelude.{◌≡◌, ◌+◌, ◌<◌, ◌≤◌, ◌^◌, length, IfErr, IfOk, MatchOption};
ghost use Rattle.fault_printer.specs.Lines as spec;
ghost use Rattle.outputs.specs.Output.{TookInPieces};
ghost use Rattle.outputs.specs.Pieces.{Puts, length_so_far};

use bean_base::{Fault, FaultKind, List};
use bean_load::{File, Texts};
use itoa::Buffer;
use outputs::{NotTaken, Output, Pieces};
use std::alloc::AllocError;
use std::marker::Model;

/// The name of a file by its number.
fn name_of(files: &[File], number: usize) -> &str
    ensures { result.now ≡ spec.name_of files.now number }
{
    match files.get(number) {
        Some(file) => &file.name,
        None => "",
    }
}

/// How many bytes the line of a fault has, where a machine number holds that.
fn line_len(files: &[File], fault: &Fault) -> Option<usize>
    ensures { MatchOption result (2 ^ 64 ≤ length (spec.line_of files.now fault.now))
        (λ len. len ≡ length (spec.line_of files.now fault.now)) }
{
    let name = name_of(files, fault.place.file).len();
    let number = Buffer::new().format(fault.place.line).len();
    let signs = ":: \n".len();
    name.checked_add(number)?
        .checked_add(fault.kind.text().len())?
        .checked_add(signs)
}

/// How many bytes the lines of faults have, where a machine number holds that.
fn lines_len(files: &[File], faults: &[Fault]) -> Option<usize>
    ensures { MatchOption result (2 ^ 64 ≤ length (spec.lines_of files.now faults.now))
        (λ len. len ≡ length (spec.lines_of files.now faults.now)) }
{
    let mut len = 0usize;
    for fault in faults {
        len = len.checked_add(line_len(files, fault)?)?;
    }
    Some(len)
}

/// Puts a line behind a text: the name of a file, a line's number, and what is said of it.
fn push_parts<'l, W: Output>(
    pieces: &mut Pieces,
    name: &'l str,
    number: &'l str,
    text: &'l str,
    out: &mut W,
) -> Result<(), NotTaken>
    requires { length_so_far pieces.old + length (spec.line_by name.now number.now text.now) < 2 ^ 64 }
    ensures { Puts W.Output out.old out.new pieces.old pieces.new
        (spec.line_by name.now number.now text.now) result }
{
    pieces.push_all(
        &[
            name.as_bytes(),
            ":".as_bytes(),
            number.as_bytes(),
            ": ".as_bytes(),
            text.as_bytes(),
            "\n".as_bytes(),
        ],
        out,
    )
}

/// Puts the line of a fault behind a text.
fn push_line<W: Output>(
    pieces: &mut Pieces,
    files: &[File],
    fault: &Fault,
    out: &mut W,
) -> Result<(), NotTaken>
    requires { length_so_far pieces.old + length (spec.line_of files.now fault.now) < 2 ^ 64 }
    ensures { Puts W.Output out.old out.new pieces.old pieces.new
        (spec.line_of files.now fault.now) result }
{
    let mut buffer = Buffer::new();
    let number = buffer.format(fault.place.line);
    push_parts(
        pieces,
        name_of(files, fault.place.file),
        number,
        fault.kind.text(),
        out,
    )
}

/// Writes the lines of faults, until the output fails or takes nothing, and counts their bytes.
fn write_lines<W: Output>(files: &[File], faults: &[Fault], out: &mut W) -> usize
    requires { length (spec.lines_of files.now faults.now) < 2 ^ 64 }
    ensures { TookInPieces W.Output out.old out.new (spec.lines_of files.now faults.now) result }
{
    let mut pieces = Pieces::new();
    for fault in faults {
        match push_line(&mut pieces, files, fault, out) {
            Ok(()) => {}
            Err(NotTaken) => return pieces.taken(),
        }
    }
    // The count tells whether all was taken.
    let _ = pieces.flush(out);
    pieces.taken()
}

/// The lines that tell faults, in their order: `FILE:LINE: CODE TEXT`. They are made where they are
/// written, one behind the other, of what was found before.
#[derive(Drop)]
pub struct FaultLines {
    texts: Texts,
    faults: List<Fault>,
    len: usize,
}

impl Model for FaultLines {
    ghost use Rattle.std.specs.Prelude.{◌≡◌, ◌<◌, ◌^◌, ℕ, length};
    ghost use Rattle.std.specs.Prelude as prelude;
    ghost use Rattle.fault_printer.specs.Lines.{lines_of};

    ghost Value = { prelude.List ℕ };

    ghost view = { λ l. lines_of l.texts.files l.faults };

    ghost invariant = { λ l. (l.len ≡ length (lines_of l.texts.files l.faults)) × (l.len < 2 ^ 64) };
}

impl FaultLines {
    /// The lines of the faults of these texts. Refused where a machine number doesn't hold how many
    /// bytes they have, as a text of that size would be.
    pub fn new(texts: Texts, faults: List<Fault>) -> Result<FaultLines, AllocError>
        ensures lines { IfOk result (λ lines. lines ≡ spec.lines_of texts.files faults) }
        ensures refused { IfErr result (λ _. 2 ^ 64 ≤ length (spec.lines_of texts.files faults)) }
    {
        match lines_len(texts.files(), faults.as_slice()) {
            Some(len) => Ok(FaultLines { texts, faults, len }),
            None => Err(AllocError),
        }
    }

    /// How many bytes they have.
    pub fn len(&self) -> usize
        ensures { result ≡ length self.now }
    {
        self.len
    }

    /// Writes them until all are taken, or the output fails or takes nothing, and counts their
    /// bytes. Takes no memory.
    pub fn write<W: Output>(&self, out: &mut W) -> usize
        ensures { TookInPieces W.Output out.old out.new self.now result }
    {
        write_lines(self.texts.files(), self.faults.as_slice(), out)
    }
}

/// Whether a fault says more than that a line is ignored.
fn is_serious(fault: &Fault) -> bool
    ensures { result ≡ spec.is_serious fault.now }
{
    !matches!(fault.kind, FaultKind::Ignored)
}

/// Whether one of the faults says more than that a line is ignored.
pub fn are_serious(faults: &[Fault]) -> bool
    ensures { result ≡ spec.are_serious faults.now }
{
    faults.iter().any(is_serious)
}
