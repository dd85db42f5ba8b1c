//! The program whose file bytes are.
ghost use Rattle.std.specs.Prelude.{◌≡◌, length, Ok, IfOk};
ghost use Rattle.std.specs.Str.{bytes_eq};
ghost use Rattle.query_code.specs.ByteForm.{raw, such_that};
ghost use Rattle.query_file.specs.FieldReading.{Gives};
ghost use Rattle.query_code.specs.QueryFile.{bounds, mode, parts, file, whole, decoded, IsFile};
ghost use Rattle.query_code.specs.QueryFile.{version, versioned};
ghost use Rattle.query_code.specs.QueryFile.{cause_of, HasOneFile, IsOneProgram};
ghost use Rattle.query_file.specs.Decoding.{Decodes};
ghost use Rattle.query_code.specs.declared.program.Parts.{Parts};

use crate::code_reading::{code_at, output_at};
use crate::reading::{byte_at, long_at, stopped, truncated, word_at};
use limits::{Bounds, Version};
use query_code::{FileCause, FileCauseKind, Mode, Parts, Program, Stop};
use refusals::Refusal;
use std::alloc::Global;

#[tactic(auto, unfolding(query_code::specs::QueryFile::version))]
fn version_at(bytes: &[u8]) -> Result<(Version, &[u8]), Refusal<Stop>>
    ensures { Gives (λ x. (x.0, x.1.now)) result (version.read bytes.now) }
{
    let (number, rest) = word_at(bytes)?;
    match Version::numbered(number) {
        Some(version) => Ok((version, rest)),
        None => Err(stopped(FileCauseKind::Version, bytes)),
    }
}

#[tactic(auto, unfolding(query_code::specs::QueryFile::bounds))]
fn bounds_at(schema: Version, bytes: &[u8]) -> Result<(Bounds, &[u8]), Refusal<Stop>>
    ensures { Gives (λ x. (x.0, x.1.now)) result ((bounds schema).read bytes.now) }
{
    let (postings, rest) = long_at(bytes)?;
    let (units_digits, rest) = byte_at(rest)?;
    let (value_digits, rest) = byte_at(rest)?;
    let bounds = Bounds {
        schema,
        postings,
        units_digits,
        value_digits,
    };
    Ok((bounds, rest))
}

#[tactic(auto, unfolding(query_code::specs::QueryFile::mode))]
fn mode_at(bytes: &[u8]) -> Result<(Mode, &[u8]), Refusal<Stop>>
    ensures { Gives (λ x. (x.0, x.1.now)) result (mode.read bytes.now) }
{
    let (mode, rest) = byte_at(bytes)?;
    match mode {
        0 => Ok((Mode::Plain, rest)),
        1 => Ok((Mode::Grouped, rest)),
        _ => Err(stopped(FileCauseKind::BadField, bytes)),
    }
}

#[tactic(auto, unfolding(query_code::specs::QueryFile::parts))]
fn parts_at(
    alloc: Global,
    version: Version,
    bytes: &[u8],
) -> Result<(Parts<'_>, &[u8]), Refusal<Stop>>
    ensures { Gives (λ x. (x.0, x.1.now)) result ((parts version).read bytes.now) }
{
    let (bounds, rest) = bounds_at(version, bytes)?;
    let (mode, rest) = mode_at(rest)?;
    let (output, rest) = output_at(alloc, rest)?;
    let (code, rest) = code_at(alloc, mode, rest)?;
    let parts = Parts {
        bounds,
        mode,
        output,
        code,
    };
    Ok((parts, rest))
}

/// The bytes behind the mark.
fn behind<'a>(cause: FileCauseKind, mark: &[u8], bytes: &'a [u8]) -> Result<&'a [u8], Refusal<Stop>>
    ensures { Gives (λ x. (mark.now, x.now)) result
        ((such_that cause (bytes_eq mark.now) (raw (length mark.now))).read bytes.now) }
{
    if bytes.len() < mark.len() {
        return Err(truncated());
    }
    let (front, rest) = bytes.split_at(mark.len());
    if mark != front {
        return Err(stopped(cause, bytes));
    }
    Ok(rest)
}

#[tactic(auto, unfolding(query_code::specs::QueryFile::versioned))]
fn versioned_at(alloc: Global, bytes: &[u8]) -> Result<(Parts<'_>, &[u8]), Refusal<Stop>>
    ensures { Gives (λ x. (x.0, x.1.now)) result (versioned.read bytes.now) }
{
    let (version, rest) = version_at(bytes)?;
    parts_at(alloc, version, rest)
}

#[tactic(auto, unfolding(query_code::specs::QueryFile::file))]
fn file_at(alloc: Global, bytes: &[u8]) -> Result<(Parts<'_>, &[u8]), Refusal<Stop>>
    ensures { Gives (λ x. (x.0, x.1.now)) result (file.read bytes.now) }
{
    let rest = behind(FileCauseKind::Magic, b"BQLC", bytes)?;
    versioned_at(alloc, rest)
}

#[tactic(auto, unfolding(query_code::specs::QueryFile::whole))]
fn whole(alloc: Global, bytes: &[u8]) -> Result<Parts<'_>, Refusal<Stop>>
    ensures { Gives (λ x. x) result (whole bytes.now) }
{
    let (parts, rest) = file_at(alloc, bytes)?;
    if !rest.is_empty() {
        return Err(stopped(FileCauseKind::TrailingBytes, rest));
    }
    Ok(parts)
}

/// The cause at the byte where so many are left.
fn cause_of(bytes: &[u8], stop: Stop) -> FileCause
    ensures { result ≡ cause_of bytes.now stop }
{
    FileCause {
        kind: stop.cause,
        place: bytes.len().saturating_sub(stop.left),
    }
}

/// The program whose file the bytes are; or the first field, in the order of the file, that keeps
/// them from being one.
pub fn decode(alloc: Global, bytes: &[u8]) -> Result<Program<'_>, Refusal<FileCause>>
    // Which answer it is.
    ensures exact { Decodes result (decoded bytes.now) }
    // The bytes are the file of the program.
    ensures found { IfOk result (λ p. IsFile bytes.now p.parts) }
    // The file of a program is decoded to it, unless memory runs out.
    ensures only { (program : Parts) → IsFile bytes.now program → Decodes result (Ok program) }
{
    match whole(alloc, bytes) {
        Ok(parts) => Ok(Program { parts }),
        Err(Refusal::OutOfMemory) => Err(Refusal::OutOfMemory),
        Err(Refusal::Refused(stop)) => Err(Refusal::Refused(cause_of(bytes, stop))),
    }
}

/// No program has two files, and no bytes are the file of two programs.
pub fn one_file_each()
    ensures files { HasOneFile }
    ensures programs { IsOneProgram }
{}
