//! Which bytes are a query file that is accepted.
ghost use Rattle.std.specs.Prelude.{◌≡◌, true};
ghost use Rattle.std.specs.List.{list_all};
ghost use Rattle.query_code.specs.QueryFile.{IsFile};
ghost use Rattle.query_code.specs.declared.program.Parts.{Parts};
ghost use Rattle.well_shaped.specs.Program.{IsWellShaped};
ghost use Rattle.verify_programs.specs.Loading.{has_members};
ghost use Rattle.query_verifier.specs.Checking.{Checks, IsAccepted, Verifies};

use crate::bounds::are_bounds;
use crate::cause::VerifierCause;
use crate::patterns::patterns_of;
use crate::places::place_of;
use bean_base::List;
use query_code::Parts;
use query_file::decode;
use query_values::Pattern;
use refusals::Refusal;
use std::alloc::Global;
use verified_program::Checked;
use verify_programs::{CodeCause, Fault, Spot, depth_of};

/// What is found of a program that is accepted.
#[derive(Drop)]
struct Verdict {
    patterns: List<Option<Pattern>>,
    depth: u16,
}

/// The patterns of a program and the depth of its stack; or why it isn't accepted.
fn verified(alloc: Global, parts: &Parts<'_>) -> Result<Verdict, Refusal<Fault>>
    requires { list_all has_members parts.now.code.pool ≡ true }
    ensures { Verifies parts.now result }
{
    if !are_bounds(&parts.bounds) {
        return Err(Refusal::Refused(Fault {
            cause: CodeCause::Bounds,
            spot: Spot::Bounds,
        }));
    }
    let patterns = match patterns_of(alloc, parts.code.pool.as_slice()) {
        Ok(patterns) => patterns,
        Err(Refusal::OutOfMemory) => return Err(Refusal::OutOfMemory),
        Err(Refusal::Refused(number)) => {
            return Err(Refusal::Refused(Fault {
                cause: CodeCause::Pattern,
                spot: Spot::Pool(number),
            }));
        }
    };
    match depth_of(alloc, parts) {
        Ok(depth) => Ok(Verdict {
            patterns,
            depth: depth as u16,
        }),
        Err(refusal) => Err(refusal),
    }
}

/// The program of a query file that runs without a fault, with its patterns as built; or the cause
/// that stands first in the bytes.
pub fn check_file(alloc: Global, bytes: &[u8]) -> Result<Checked<'_>, Refusal<VerifierCause>>
    // What each answer says.
    ensures checks { Checks bytes.now result }
    // Memory and patterns aside, a well shaped program is accepted.
    ensures accepts { (p : Parts) → IsFile bytes.now p → IsWellShaped p → IsAccepted result }
{
    let program = match decode(alloc, bytes) {
        Ok(program) => program,
        Err(Refusal::OutOfMemory) => return Err(Refusal::OutOfMemory),
        Err(Refusal::Refused(cause)) => return Err(Refusal::Refused(VerifierCause::File(cause))),
    };
    match verified(alloc, &program.parts) {
        Ok(verdict) => Ok(Checked {
            program,
            patterns: verdict.patterns,
            depth: verdict.depth,
        }),
        Err(Refusal::OutOfMemory) => Err(Refusal::OutOfMemory),
        Err(Refusal::Refused(fault)) => Err(Refusal::Refused(VerifierCause::Code {
            cause: fault.cause,
            place: place_of(bytes, &program.parts, fault.spot),
        })),
    }
}
