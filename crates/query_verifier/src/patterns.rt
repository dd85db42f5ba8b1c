//! The patterns of a pool.
ghost use Rattle.plain_machine.specs.Pool.{pattern_in};
ghost use Rattle.query_verifier.specs.Patterns.{Builds, BuildsAll};

use bean_base::List;
use query_code::Constant;
use query_values::Pattern;
use refusals::Refusal;
use std::alloc::Global;

/// The pattern of an entry, where it is one.
fn built(alloc: Global, entry: &Constant<'_>) -> Result<Option<Pattern>, Refusal<()>>
    ensures { Builds entry.now result }
{
    match entry {
        Constant::Pattern(text) => match Pattern::new(alloc, text.text()) {
            Ok(pattern) => Ok(Some(pattern)),
            Err(Refusal::OutOfMemory) => Err(Refusal::OutOfMemory),
            Err(Refusal::Refused(_)) => Err(Refusal::Refused(())),
        },
        _ => Ok(None),
    }
}

/// For each entry of a pool its pattern, where it is one; or the first that isn't built, by its
/// number.
pub fn patterns_of(
    alloc: Global,
    pool: &[Constant<'_>],
) -> Result<List<Option<Pattern>>, Refusal<usize>>
    ensures { BuildsAll pool.now result }
{
    let mut patterns = List::new(Vec::new(alloc));
    for number in 0..pool.len() {
        match built(alloc, &pool[number]) {
            Ok(pattern) => patterns.push(pattern)?,
            Err(Refusal::OutOfMemory) => return Err(Refusal::OutOfMemory),
            Err(Refusal::Refused(())) => return Err(Refusal::Refused(number)),
        }
    }
    Ok(patterns)
}
