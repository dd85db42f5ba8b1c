//! From typed queries to programs.
ghost use Rattle.std.specs.Prelude.{◌≡◌, ◌≤◌, true, length, IfErr, IfOk};
ghost use Rattle.bql_compiler.specs.Kept as view;
ghost use Rattle.bql_compiler.specs.Limits as rule;
ghost use Rattle.bql_parser.specs.Answer.{query_of};
ghost use Rattle.bql_plan.specs.Kept.{numbered_of};
ghost use Rattle.bql_plan.specs.Plan.{plan};
ghost use Rattle.bql_compiler.specs.Carried.{Carries};
ghost use Rattle.bql_compiler.specs.Program as scheme;
ghost use Rattle.limits.specs.declared.counts.TheConstants.{LONGEST_SECTION, MOST_ITEMS};
ghost use Rattle.query_code.specs.ByteForm.{AllFit};
ghost use Rattle.query_code.specs.QueryFile as query_file;
ghost use Rattle.query_rows.specs.ColumnShape.{AreBounds};
ghost use Rattle.well_shaped.specs.Program.{IsWellShaped};

use crate::cause::CompileCause;
use crate::code::{
    are_shallow, are_short, build_all, code_of, code_of_all, gathered, gathered_by, keys_of,
    pool_of,
};
use crate::output::output_of;
use crate::sections::{Sections, sections_of};
use bean_base::List;
use bql_code::Pool;
use bql_plan::{Numbering, numbered};
use bql_types::Typed;
use limits::{Bounds, LONGEST_SECTION, MOST_ITEMS};
use query_code::{Code, Constant, Mode, Output, Parts, Program};
use refusals::Refusal;
use std::alloc::{AllocError, Global};

/// The pool of the sections, where it has room and they have.
fn pool_within<'a>(
    alloc: Global,
    sections: &Sections<'a>,
) -> Result<Pool<'a>, Refusal<CompileCause>>
    ensures pool { IfOk result (λ pool. pool ≡ scheme.pool_of (view.sections_of sections.now)) }
    ensures room { IfOk result (λ pool. rule.HaveRoom (view.sections_of sections.now)) }
    ensures refusal { IfErr result (λ refusal. rule.IsWithoutRoom refusal
        (view.sections_of sections.now)) }
{
    if !are_short(sections) {
        return Err(Refusal::Refused(CompileCause::TooLong));
    }
    let pool = pool_of(alloc, sections)?;
    if pool.len() > LONGEST_SECTION {
        return Err(Refusal::Refused(CompileCause::TooLong));
    }
    Ok(pool)
}

/// The constants of the pool, where each of its patterns is built and the stack has room.
fn constants_within<'a>(
    alloc: Global,
    pool: &Pool<'a>,
    sections: &Sections<'a>,
) -> Result<List<Constant<'a>>, Refusal<CompileCause>>
    ensures constants { IfOk result (λ list. list ≡ pool.now) }
    ensures forms { IfOk result (λ list. ∥ AllFit query_file.constant list ∥₁) }
    ensures shallow { IfOk result (λ list. rule.are_shallow (view.sections_of sections.now) ≡ true) }
    ensures refusal { IfErr result (λ refusal. rule.IsStopped refusal pool.now
        (view.sections_of sections.now)) }
{
    let constants = pool.constants(alloc)?;
    match build_all(alloc, constants.as_slice()) {
        Ok(()) => {}
        Err(refusal) => return Err(refusal),
    }
    if !are_shallow(sections) {
        return Err(Refusal::Refused(CompileCause::TooDeep));
    }
    Ok(constants)
}

/// The code of sections that have room, with the constants of their pool.
fn code_over<'q, 'a>(
    alloc: Global,
    bounds: &Bounds,
    numbering: &Numbering<'q, 'a>,
    sections: &Sections<'a>,
    pool: &Pool<'a>,
    constants: List<Constant<'a>>,
) -> Result<Code<'a>, AllocError>
    requires bounds { AreBounds bounds.now }
    requires keys { length (numbered_of numbering.now).grouping.keys ≤ MOST_ITEMS }
    requires room { rule.HaveRoom (view.sections_of sections.now) }
    requires pool { pool.now ≡ scheme.pool_of (view.sections_of sections.now) }
    requires constants { constants ≡ pool.now }
    ensures code { IfOk result (λ code. code ≡ scheme.code_over bounds.now
        (numbered_of numbering.now) (view.sections_of sections.now)) }
    ensures pool { IfOk result (λ code. code.pool ≡ constants.entry) }
{
    Ok(Code {
        keys: keys_of(numbering),
        aggregates: gathered_by(alloc, bounds, numbering)?,
        filter: code_of(alloc, pool, &sections.filter)?,
        row: code_of_all(alloc, pool, sections.row.as_slice())?,
        last: code_of_all(alloc, pool, sections.last.as_slice())?,
        pool: constants,
    })
}

/// The code of a query, where it keeps within the limits.
fn code_within<'q, 'a>(
    alloc: Global,
    typed: &Typed<'q, 'a>,
    numbering: &Numbering<'q, 'a>,
) -> Result<Code<'a>, Refusal<CompileCause>>
    requires plan { numbered_of numbering.now ≡ plan (query_of typed.now.query.now) }
    ensures code { IfOk result (λ code. code
        ≡ rule.code_in typed.now.bounds (query_of typed.now.query.now)) }
    ensures forms { IfOk result (λ code. ∥ AllFit query_file.constant code.pool ∥₁) }
    ensures within { IfOk result (λ code.
        rule.IsWithin typed.now.bounds (query_of typed.now.query.now)) }
    ensures refusal { IfErr result (rule.IsRefusal typed.now.bounds (query_of typed.now.query.now)) }
{
    if gathered(numbering) > MOST_ITEMS {
        return Err(Refusal::Refused(CompileCause::TooLong));
    }
    let sections = sections_of(alloc, typed, numbering)?;
    let pool = match pool_within(alloc, &sections) {
        Ok(pool) => pool,
        Err(refusal) => return Err(refusal),
    };
    let constants = match constants_within(alloc, &pool, &sections) {
        Ok(constants) => constants,
        Err(refusal) => return Err(refusal),
    };
    let code = code_over(alloc, &typed.bounds, numbering, &sections, &pool, constants)?;
    Ok(code)
}

/// Whether a program's rows are postings or groups.
fn mode_of(is_aggregating: bool) -> Mode
    ensures { result ≡ scheme.mode_of is_aggregating }
{
    if is_aggregating {
        Mode::Grouped
    } else {
        Mode::Plain
    }
}

/// The parts of a program, with these bounds.
fn parts_of<'a>(bounds: &Bounds, mode: Mode, output: Output<'a>, code: Code<'a>) -> Parts<'a>
    ensures { result ≡ record {
      bounds = bounds.now;
      mode = mode;
      output = output.entry;
      code = code.entry;
    } }
{
    Parts {
        bounds: *bounds,
        mode,
        output,
        code,
    }
}

/// The program of a query that has a type, with its bounds.
pub fn compile<'a>(
    alloc: Global,
    typed: &Typed<'_, 'a>,
) -> Result<Program<'a>, Refusal<CompileCause>>
    // The program is that of the scheme, which keeps within the limits.
    ensures answer { IfOk result (λ p.
        rule.IsCompiled typed.now.bounds (query_of typed.now.query.now) p.parts) }
    // What comes out of it is what the query answers.
    ensures carries { IfOk result (λ p.
        Carries typed.now.bounds p.parts (query_of typed.now.query.now)) }
    // The verifier accepts it.
    ensures shaped { IfOk result (λ p. ∥ IsWellShaped p.parts ∥₁) }
    // What is refused is refused for the least cause that holds.
    ensures refusal { IfErr result (rule.IsRefusal typed.now.bounds (query_of typed.now.query.now)) }
    // What keeps within the limits is refused for want of memory or a pattern alone.
    ensures within { rule.IsWithin typed.now.bounds (query_of typed.now.query.now)
        → IfErr result (λ refusal. rule.IsNotBuiltOf refusal
        (rule.code_in typed.now.bounds (query_of typed.now.query.now)).pool) }
{
    let numbering = numbered(alloc, typed.query)?;
    let code = match code_within(alloc, typed, &numbering) {
        Ok(code) => code,
        Err(refusal) => return Err(refusal),
    };
    let output = output_of(alloc, typed.query, &numbering)?;
    let mode = mode_of(numbering.grouping.is_aggregating);
    Ok(Program {
        parts: parts_of(&typed.bounds, mode, output, code),
    })
}
