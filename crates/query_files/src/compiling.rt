//! From the text of a query to its file.
ghost use Rattle.std.specs.Prelude.{◌≡◌};
ghost use Rattle.query_rows.specs.ColumnShape.{AreBounds};
ghost use Rattle.query_files.specs.Texts as spec;
ghost use Rattle.query_files.specs.Texts.{Compiles, HasProgram};

use crate::cause::TextCause;
use bql_compiler::{CompileCause, compile};
use bql_parser::{QueryCause, parse_query};
use bql_types::{TypeCause, type_query};
use limits::Bounds;
use query_code::Program;
use query_file::encode;
use refusals::Refusal;
use std::alloc::Global;

fn unread(refusal: Refusal<QueryCause>) -> Refusal<TextCause>
    ensures { result ≡ spec.unread refusal }
{
    match refusal {
        Refusal::Refused(cause) => Refusal::Refused(TextCause::Query(cause)),
        Refusal::OutOfMemory => Refusal::OutOfMemory,
    }
}

fn untyped(refusal: Refusal<TypeCause>) -> Refusal<TextCause>
    ensures { result ≡ spec.untyped refusal }
{
    match refusal {
        Refusal::Refused(cause) => Refusal::Refused(TextCause::Typing(cause)),
        Refusal::OutOfMemory => Refusal::OutOfMemory,
    }
}

fn uncompiled(refusal: Refusal<CompileCause>) -> Refusal<TextCause>
    ensures { result ≡ spec.uncompiled refusal }
{
    match refusal {
        Refusal::Refused(cause) => Refusal::Refused(TextCause::Compile(cause)),
        Refusal::OutOfMemory => Refusal::OutOfMemory,
    }
}

/// The program of the query that a text is, by these bounds.
fn program_of<'a>(
    alloc: Global,
    text: &'a str,
    bounds: &Bounds,
) -> Result<Program<'a>, Refusal<TextCause>>
    requires { AreBounds bounds.now }
    ensures { HasProgram bounds.now text.now result }
{
    let query = match parse_query(alloc, text) {
        Ok(query) => query,
        Err(refusal) => return Err(unread(refusal)),
    };
    let typed = match type_query(alloc, &query, bounds) {
        Ok(typed) => typed,
        Err(refusal) => return Err(untyped(refusal)),
    };
    match compile(alloc, &typed) {
        Ok(program) => Ok(program),
        Err(refusal) => Err(uncompiled(refusal)),
    }
}

/// The file of the program of the query that a text is, by these bounds; or why it has none.
pub fn compiled(alloc: Global, text: &str, bounds: &Bounds) -> Result<Vec<u8>, Refusal<TextCause>>
    requires { AreBounds bounds.now }
    // The file is that of the query's program, which carries the query and is well shaped; or the
    // cause holds, and none that is looked for before it. Want of memory says nothing.
    ensures { Compiles bounds.now text.now result }
{
    let program = program_of(alloc, text, bounds)?;
    let file = encode(alloc, &program)?;
    Ok(file)
}
