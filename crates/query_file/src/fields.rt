//! Fields that stand in lists, and lists of them.
ghost use Rattle.std.specs.Prelude.{◌≡◌, ◌++◌, List, length, IfOk, OnOk};
ghost use Rattle.query_code.specs.ByteForm.{Form, AllFit, all_written, read_all};
ghost use Rattle.query_code.specs.InstructionForm.{instruction};
ghost use Rattle.query_code.specs.QueryFile.{aggregate, constant, count, day};
ghost use Rattle.query_code.specs.TextForm.{text};
ghost use Rattle.query_file.specs.FieldReading.{Gives};

use crate::code_reading::{aggregate_at, constant_at};
use crate::instruction_reading::instruction_at;
use crate::reading::{count_at, day_at, text_at};
use crate::writing::{put_aggregate, put_constant, put_count, put_day, put_instruction};
use bean_base::{Day, List, Slice};
use query_code::text_list::put_text;
use query_code::{Constant, Instruction, Stop};
use query_values::Aggregate;
use refusals::Refusal;
use std::alloc::{AllocError, Global};

/// What a file has lists of.
pub trait Field<'a>: Sized + Drop {
    ghost form: { Form Self };

    /// The one that these bytes begin with.
    fn read(alloc: Global, bytes: &'a [u8]) -> Result<(Self, &'a [u8]), Refusal<Stop>>
        ensures { Gives (λ x. (x.0, x.1.now)) result (form.read bytes.now) };

    fn put(&self, out: &mut Vec<u8>) -> Result<(), AllocError>
        requires { form.fits self.now }
        ensures { OnOk result (out.new.items ≡ out.old.items ++ form.written self.now) };
}

impl<'a> Field<'a> for Instruction {
    ghost form = { instruction };

    fn read(_alloc: Global, bytes: &'a [u8]) -> Result<(Instruction, &'a [u8]), Refusal<Stop>> {
        instruction_at(bytes)
    }

    fn put(&self, out: &mut Vec<u8>) -> Result<(), AllocError> {
        put_instruction(out, *self)
    }
}

impl<'a> Field<'a> for Slice<'a> {
    ghost form = { text };

    fn read(_alloc: Global, bytes: &'a [u8]) -> Result<(Slice<'a>, &'a [u8]), Refusal<Stop>> {
        text_at(bytes)
    }

    fn put(&self, out: &mut Vec<u8>) -> Result<(), AllocError> {
        put_text(out, self.text())
    }
}

impl<'a> Field<'a> for i128 {
    ghost form = { count };

    fn read(_alloc: Global, bytes: &'a [u8]) -> Result<(i128, &'a [u8]), Refusal<Stop>> {
        count_at(bytes)
    }

    fn put(&self, out: &mut Vec<u8>) -> Result<(), AllocError> {
        put_count(out, *self)
    }
}

impl<'a> Field<'a> for Day {
    ghost form = { day };

    fn read(_alloc: Global, bytes: &'a [u8]) -> Result<(Day, &'a [u8]), Refusal<Stop>> {
        day_at(bytes)
    }

    fn put(&self, out: &mut Vec<u8>) -> Result<(), AllocError> {
        put_day(out, *self)
    }
}

impl<'a> Field<'a> for Aggregate {
    ghost form = { aggregate };

    fn read(_alloc: Global, bytes: &'a [u8]) -> Result<(Aggregate, &'a [u8]), Refusal<Stop>> {
        aggregate_at(bytes)
    }

    fn put(&self, out: &mut Vec<u8>) -> Result<(), AllocError> {
        put_aggregate(out, *self)
    }
}

impl<'a> Field<'a> for Constant<'a> {
    ghost form = { constant };

    fn read(alloc: Global, bytes: &'a [u8]) -> Result<(Constant<'a>, &'a [u8]), Refusal<Stop>> {
        constant_at(alloc, bytes)
    }

    fn put(&self, out: &mut Vec<u8>) -> Result<(), AllocError> {
        put_constant(out, self)
    }
}

/// So many, one behind the other.
pub fn list_at<'a, T: Field<'a>>(
    alloc: Global,
    len: usize,
    bytes: &'a [u8],
) -> Result<(List<T>, &'a [u8]), Refusal<Stop>>
    ensures read { Gives (λ x. (x.0, x.1.now)) result (read_all T.form len bytes.now) }
    ensures number { IfOk result (λ x. length x.0 ≡ len) }
{
    let mut items = Vec::new(alloc);
    let mut rest = bytes;
    for _ in 0..len {
        let (item, after) = T::read(alloc, rest)?;
        items.push(item)?;
        rest = after;
    }
    Ok((List::new(items), rest))
}

/// One behind the other.
pub fn put_list<'a, T: Field<'a>>(out: &mut Vec<u8>, items: &[T]) -> Result<(), AllocError>
    requires { AllFit T.form items.now }
    ensures { OnOk result (out.new.items ≡ out.old.items ++ all_written T.form items.now) }
{
    let mut rest = items;
    while let [first, after @ ..] = rest {
        first.put(out)?;
        rest = after;
    }
    Ok(())
}
