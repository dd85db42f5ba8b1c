//! The code of a query's program.
ghost use Rattle.std.specs.Prelude.{◌≡◌, ◌≤◌, nat_le, length, map, IfOk, IfErr};
ghost use Rattle.bql_code.specs.Code as emitted;
ghost use Rattle.bql_code.specs.Kept.{core_of, cores_of};
ghost use Rattle.bql_compiler.specs.Kept as view;
ghost use Rattle.bql_compiler.specs.Limits as rule;
ghost use Rattle.bql_plan.specs.Kept.{numbered_of};
ghost use Rattle.bql_compiler.specs.Program as scheme;
ghost use Rattle.bql_types.specs.Gathered.{aggregate_in as aggregate_of};
ghost use Rattle.bql_types.specs.Keys.{lent_trees};
ghost use Rattle.limits.specs.declared.counts.TheConstants.{LONGEST_SECTION, MOST_ITEMS};
ghost use Rattle.query_rows.specs.ColumnShape.{AreBounds};

use crate::cause::CompileCause;
use crate::sections::Sections;
use bean_base::{List, Slice};
use bql_code::{Core, Pool, are_within, emit, emit_all, is_within, room_behind, room_behind_all};
use bql_plan::Numbering;
use bql_types::gathered::aggregate_in;
use bql_types::grouped::Key;
use limits::{Bounds, LONGEST_SECTION, MOST_VALUES};
use query_code::{Constant, Instruction};
use query_values::{Aggregate, Pattern};
use refusals::Refusal;
use std::alloc::{AllocError, Global};

/// Whether the code of an expression has room in a section.
fn has_room(core: &Core<'_>) -> bool
    ensures { result ≡ nat_le (emitted.size (core_of core.now)) LONGEST_SECTION }
{
    match room_behind(core, LONGEST_SECTION) {
        Some(_) => true,
        None => false,
    }
}

/// The same of some expressions, one behind the other.
fn have_room(cores: &[Core<'_>]) -> bool
    ensures { result ≡ nat_le (emitted.all_size (cores_of cores.now)) LONGEST_SECTION }
{
    match room_behind_all(cores, LONGEST_SECTION) {
        Some(_) => true,
        None => false,
    }
}

/// Whether each section has room for its code.
pub(crate) fn are_short(sections: &Sections<'_>) -> bool
    ensures { result ≡ rule.are_short (view.sections_of sections.now) }
{
    has_room(&sections.filter)
        && have_room(sections.row.as_slice())
        && have_room(sections.last.as_slice())
}

/// Whether the stack has room for the values of each section.
pub(crate) fn are_shallow(sections: &Sections<'_>) -> bool
    ensures { result ≡ rule.are_shallow (view.sections_of sections.now) }
{
    is_within(&sections.filter, MOST_VALUES)
        && are_within(sections.row.as_slice(), MOST_VALUES)
        && are_within(sections.last.as_slice(), MOST_VALUES)
}

/// The constants of the sections, one behind the other.
#[tactic(auto, using(crate::proofs::LimitFacts::pool_is))]
pub(crate) fn pool_of<'a>(alloc: Global, sections: &Sections<'a>) -> Result<Pool<'a>, AllocError>
    ensures { IfOk result (λ pool. pool ≡ scheme.pool_of (view.sections_of sections.now)) }
{
    let mut pool = Pool::new(alloc);
    pool.collect(alloc, &sections.filter)?;
    pool.collect_all(alloc, sections.row.as_slice())?;
    pool.collect_all(alloc, sections.last.as_slice())?;
    Ok(pool)
}

/// The instructions of an expression.
pub(crate) fn code_of(
    alloc: Global,
    pool: &Pool<'_>,
    core: &Core<'_>,
) -> Result<List<Instruction>, AllocError>
    requires pool { length pool.now ≤ LONGEST_SECTION }
    requires room { emitted.size (core_of core.now) ≤ LONGEST_SECTION }
    ensures { IfOk result (λ code. code ≡ emitted.code pool.now 0 (core_of core.now)) }
{
    let mut code = Vec::new(alloc);
    emit(&mut code, pool, core)?;
    Ok(List::new(code))
}

/// The instructions of some expressions, one behind the other.
pub(crate) fn code_of_all(
    alloc: Global,
    pool: &Pool<'_>,
    cores: &[Core<'_>],
) -> Result<List<Instruction>, AllocError>
    requires pool { length pool.now ≤ LONGEST_SECTION }
    requires room { emitted.all_size (cores_of cores.now) ≤ LONGEST_SECTION }
    ensures { IfOk result (λ code. code ≡ emitted.all_code pool.now 0 (cores_of cores.now)) }
{
    let mut code = Vec::new(alloc);
    emit_all(&mut code, pool, cores)?;
    Ok(List::new(code))
}

/// What is gathered of each group.
fn aggregates_of(
    alloc: Global,
    bounds: &Bounds,
    exprs: &[Key<'_, '_>],
) -> Result<List<Aggregate>, AllocError>
    requires { AreBounds bounds.now }
    ensures { IfOk result (λ list. list ≡ map (aggregate_of bounds.now) (lent_trees exprs.now)) }
{
    let mut list = List::new(Vec::new(alloc));
    for key in exprs {
        list.push(aggregate_in(alloc, bounds, key.expr)?)?;
    }
    Ok(list)
}

/// Builds a pattern, and throws it away.
fn build(alloc: Global, pattern: &Slice<'_>) -> Result<(), Refusal<CompileCause>>
    ensures { IfErr result rule.IsNotBuilt }
{
    match Pattern::new(alloc, pattern.text()) {
        Ok(_) => Ok(()),
        Err(Refusal::OutOfMemory) => Err(Refusal::OutOfMemory),
        Err(Refusal::Refused(_)) => Err(Refusal::Refused(CompileCause::NotBuilt)),
    }
}

/// Builds a constant that is a pattern.
fn build_constant(alloc: Global, constant: &Constant<'_>) -> Result<(), Refusal<CompileCause>>
    ensures { IfErr result (λ refusal. rule.IsNotBuiltBy refusal constant.now) }
{
    match constant {
        Constant::Pattern(pattern) => build(alloc, pattern),
        _ => Ok(()),
    }
}

/// Builds each pattern of a pool.
pub(crate) fn build_all(alloc: Global, pool: &[Constant<'_>]) -> Result<(), Refusal<CompileCause>>
    ensures { IfErr result (λ refusal. rule.IsNotBuiltOf refusal pool.now) }
{
    for constant in pool {
        match build_constant(alloc, constant) {
            Ok(()) => {}
            Err(refusal) => return Err(refusal),
        }
    }
    Ok(())
}

/// How many aggregates a program gathers: none where rows aren't grouped.
pub(crate) fn gathered(numbering: &Numbering<'_, '_>) -> usize
    ensures { result ≡ length (scheme.of_groups (numbered_of numbering.now)
        (numbered_of numbering.now).aggregates) }
{
    if numbering.grouping.is_aggregating {
        numbering.aggregates.len()
    } else {
        0
    }
}

/// How many keys a group has.
pub(crate) fn keys_of(numbering: &Numbering<'_, '_>) -> u8
    requires { length (numbered_of numbering.now).grouping.keys ≤ MOST_ITEMS }
    ensures { result ≡ length (scheme.of_groups (numbered_of numbering.now)
        (numbered_of numbering.now).grouping.keys) }
{
    if numbering.grouping.is_aggregating {
        numbering.grouping.keys.len() as u8
    } else {
        0
    }
}

/// What a program gathers.
pub(crate) fn gathered_by(
    alloc: Global,
    bounds: &Bounds,
    numbering: &Numbering<'_, '_>,
) -> Result<List<Aggregate>, AllocError>
    requires { AreBounds bounds.now }
    ensures { IfOk result (λ list. list ≡ scheme.of_groups (numbered_of numbering.now)
        (map (aggregate_of bounds.now) (numbered_of numbering.now).aggregates)) }
{
    if numbering.grouping.is_aggregating {
        aggregates_of(alloc, bounds, numbering.aggregates.as_slice())
    } else {
        Ok(List::new(Vec::new(alloc)))
    }
}
