//! Programs in the second version of query files.
ghost use Rattle.std.specs.Prelude.{◌≡◌, IfOk};
ghost use Rattle.query_code.specs.Upgrade.{FilesDifferInVersion, bounds_upgraded, upgraded};

use crate::program::{Code, Constant, Numbers, Output, Parts, Program};
use bean_base::{List, Slice};
use limits::{Bounds, Version};
use std::alloc::{AllocError, Global};

/// The same items once more.
fn copied<T: Copy + Drop>(alloc: Global, items: &[T]) -> Result<List<T>, AllocError>
    ensures { IfOk result (λ list. list ≡ items.now) }
{
    Ok(List::new(Vec::from_slice(alloc, items)?))
}

/// The same slices once more.
fn lent<'a>(alloc: Global, slices: &[Slice<'a>]) -> Result<List<Slice<'a>>, AllocError>
    ensures { IfOk result (λ list. list ≡ slices.now) }
{
    let mut list = List::new(Vec::new(alloc));
    for slice in slices {
        list.push(slice.lend())?;
    }
    Ok(list)
}

/// The same entry of a pool once more.
fn constant_again<'a>(alloc: Global, constant: &Constant<'a>) -> Result<Constant<'a>, AllocError>
    ensures { IfOk result (λ again. again ≡ constant.now) }
{
    Ok(match constant {
        Constant::Text(text) => Constant::Text(text.lend()),
        Constant::Number(number) => Constant::Number(*number),
        Constant::Day(day) => Constant::Day(*day),
        Constant::Pattern(text) => Constant::Pattern(text.lend()),
        Constant::Texts(texts) => Constant::Texts(texts.again(alloc)?),
        Constant::Numbers(numbers) => Constant::Numbers(Numbers {
            places: numbers.places,
            counts: copied(alloc, numbers.counts.as_slice())?,
        }),
        Constant::Days(days) => Constant::Days(copied(alloc, days.as_slice())?),
    })
}

/// The same pool once more.
fn pool_again<'a>(alloc: Global, pool: &[Constant<'a>]) -> Result<List<Constant<'a>>, AllocError>
    ensures { IfOk result (λ list. list ≡ pool.now) }
{
    let mut list = List::new(Vec::new(alloc));
    for constant in pool {
        list.push(constant_again(alloc, constant)?)?;
    }
    Ok(list)
}

fn output_again<'a>(alloc: Global, output: &Output<'a>) -> Result<Output<'a>, AllocError>
    ensures { IfOk result (λ again. again ≡ output.now) }
{
    Ok(Output {
        is_distinct: output.is_distinct,
        is_descending: output.is_descending,
        limit: output.limit,
        targets: lent(alloc, output.targets.as_slice())?,
        hidden: output.hidden,
        order: copied(alloc, output.order.as_slice())?,
    })
}

fn code_again<'a>(alloc: Global, code: &Code<'a>) -> Result<Code<'a>, AllocError>
    ensures { IfOk result (λ again. again ≡ code.now) }
{
    Ok(Code {
        keys: code.keys,
        aggregates: copied(alloc, code.aggregates.as_slice())?,
        pool: pool_again(alloc, code.pool.as_slice())?,
        filter: copied(alloc, code.filter.as_slice())?,
        row: copied(alloc, code.row.as_slice())?,
        last: copied(alloc, code.last.as_slice())?,
    })
}

/// Bounds of the second schema, and all else as it was.
fn bounds_of_second(bounds: Bounds) -> Bounds
    ensures { result ≡ bounds_upgraded bounds }
{
    Bounds {
        schema: Version::Second,
        ..bounds
    }
}

/// The program in the second version, with bounds of the second schema, and all else as it was. So
/// it keeps its most postings too.
pub fn upgrade<'a>(alloc: Global, program: &Program<'a>) -> Result<Program<'a>, AllocError>
    ensures { IfOk result (λ upgrade. upgrade.parts ≡ upgraded program.now.parts) }
{
    let parts = &program.parts;
    let parts = Parts {
        bounds: bounds_of_second(parts.bounds),
        mode: parts.mode,
        output: output_again(alloc, &parts.output)?,
        code: code_again(alloc, &parts.code)?,
    };
    Ok(Program { parts })
}

/// The file of an upgraded program differs from that of the program in the two bytes of the version
/// alone.
pub fn upgraded_files_differ_in_version()
    ensures { FilesDifferInVersion }
{}
