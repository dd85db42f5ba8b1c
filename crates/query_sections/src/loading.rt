//! What instructions load.
ghost use Rattle.std.specs.Prelude.{◌≡◌, ◌≢◌, Some, None, IfOk, OnOk, slice_get};
ghost use Rattle.std.specs.Option.{option_copied};
ghost use Rattle.plain_machine.specs.Loading.{cell_in, column_at, loaded, push_of};
ghost use Rattle.plain_machine.specs.Pool.{key_in, value_in};
ghost use Rattle.plain_machine.specs.SectionRun.{with_top};
ghost use Rattle.query_code.specs.declared.instruction.Push.TheVariants.{LoadColumn};
ghost use Rattle.query_rows.specs.Row as rows;
ghost use Rattle.posting_table.specs.Rows.{row_of};
ghost use Rattle.query_sections.specs.Reading.{IsOther, loads_of};
ghost use Rattle.query_sections.specs.Room.{HasRoom};

use crate::loads::{Loads, Running, Source};
use crate::stack::Stack;
use bean_base::Slice;
use posting_table::HeldRow;
use query_code::{Constant, Push};
use query_terms::Column;
use query_values::Value;
use query_values::comparison::is_null;
use std::alloc::AllocError;

/// The value that an entry of the pool is.
#[inline(always)]
fn constant<'r>(entry: &Constant<'r>) -> Value<'r>
    requires { value_in entry.now ≢ None }
    ensures { value_in entry.now ≡ Some result }
{
    match entry {
        Constant::Text(text) => Value::Text(text.lend()),
        Constant::Number(number) => Value::Number {
            places: number.places,
            count: number.count,
        },
        Constant::Day(day) => Value::Day(*day),
        _ => unreachable!(),
    }
}

/// The key of metadata that an entry of the pool is.
fn key<'r>(entry: &'r Constant<'_>) -> &'r str
    requires { key_in entry.now ≢ None }
    ensures { key_in entry.now ≡ Some result.now }
{
    match entry {
        Constant::Text(text) => text.text(),
        _ => unreachable!(),
    }
}

/// A text, or null where there is none.
fn text_or_null<'r>(text: Option<&'r str>) -> Value<'r>
    ensures { result ≡ rows.text_or_null (option_copied text.entry) }
{
    match text {
        Some(text) => Value::Text(Slice::new(text)),
        None => Value::Null,
    }
}

/// A text of a posting's metadata.
fn posting_text<'r>(posting: &'r HeldRow<'_>, key: &str) -> Value<'r>
    ensures { result ≡ rows.posting_text key.now (row_of posting.now) }
{
    text_or_null(posting.meta(key))
}

/// A text of the metadata of a posting's transaction.
fn transaction_text<'r>(posting: &'r HeldRow<'_>, key: &str) -> Value<'r>
    ensures { result ≡ rows.transaction_text key.now (row_of posting.now) }
{
    text_or_null(posting.entry_meta(key))
}

/// A text of a posting's metadata, else of its transaction's.
fn any_text<'r>(posting: &'r HeldRow<'_>, key: &str) -> Value<'r>
    ensures { result ≡ rows.any_text key.now (row_of posting.now) }
{
    let text = posting_text(posting, key);
    if is_null(&text) {
        return transaction_text(posting, key);
    }
    text
}

impl<'r, 'a, 's> Loads<'r, 'a, 's> {
    /// The posting, which is there.
    #[inline(always)]
    fn posting(&self) -> &'r HeldRow<'a>
        requires { (loads_of self.now).row ≢ None }
        ensures { (loads_of self.now).row ≡ Some (row_of result.now) }
    {
        match self.source {
            Source::Posting { row, .. } => row,
            Source::Group { .. } => unreachable!(),
        }
    }

    /// The keys of the group; none at a posting.
    fn keys(&self) -> &'s [Value<'r>]
        ensures { result.now ≡ (loads_of self.now).keys }
    {
        match self.source {
            Source::Posting { .. } => &[],
            Source::Group { keys, .. } => keys,
        }
    }

    /// The aggregates of the group; none at a posting.
    fn aggregates(&self) -> &'s [Value<'r>]
        ensures { result.now ≡ (loads_of self.now).aggregates }
    {
        match self.source {
            Source::Posting { .. } => &[],
            Source::Group { aggregates, .. } => aggregates,
        }
    }

    /// The column of a number, which is there.
    #[inline(always)]
    fn numbered(&self, number: u8) -> Column
        requires { column_at (loads_of self.now) number ≢ None }
        ensures { column_at (loads_of self.now) number ≡ cell_in (loads_of self.now) result }
    {
        let Some(column) = Column::numbered(number) else {
            unreachable!();
        };
        column
    }

    fn balance(&self) -> Result<Value<'r>, AllocError>
        requires { (loads_of self.now).balance ≢ None }
        ensures { IfOk result (λ x. (loads_of self.now).balance ≡ Some x) }
    {
        let Source::Posting {
            running: Some(running),
            ..
        } = self.source
        else {
            unreachable!();
        };
        match running {
            Running::Compared(running) => running.clone(),
            Running::Listed(running) => running.listed(),
        }
    }

    #[inline(always)]
    fn cell_of_row(&self, column: Column) -> Value<'r>
        requires balance { column ≢ Column.Balance }
        requires there { cell_in (loads_of self.now) column ≢ None }
        ensures { cell_in (loads_of self.now) column ≡ Some result }
    {
        self.posting().cell(column)
    }
}

/// The value at a place.
fn value_at<'r>(values: &[Value<'r>], place: u8) -> Result<Value<'r>, AllocError>
    requires { slice_get values.now place ≢ None }
    ensures { IfOk result (λ x. slice_get values.now place ≡ Some x) }
{
    values[place as usize].clone()
}

/// Puts what an instruction loads on the stack. Those that most queries have do so by themselves: a
/// value that takes no memory goes through no `Result` there.
#[inline(always)]
fn put<'r>(
    loads: &Loads<'r, '_, '_>,
    pool: &[Constant<'r>],
    op: Push,
    value: Value<'r>,
    stack: &mut Stack<'r>,
)
    requires room { HasRoom stack.old.room
        (with_top (push_of pool.now (loads_of loads.now) op) stack.old.values) }
    requires is { loaded pool.now (loads_of loads.now) op ≡ Some value }
    ensures values { with_top (push_of pool.now (loads_of loads.now) op) stack.old.values
        ≡ Some stack.new.values }
    ensures room { stack.new.room ≡ stack.old.room }
{
    stack.push(value);
}

/// Puts the running inventory on the stack.
#[inline(never)]
fn load_balance<'r>(
    loads: &Loads<'r, '_, '_>,
    pool: &[Constant<'r>],
    number: u8,
    stack: &mut Stack<'r>,
) -> Result<(), AllocError>
    requires room { HasRoom stack.old.room
        (with_top (push_of pool.now (loads_of loads.now) (LoadColumn number)) stack.old.values) }
    requires there { column_at (loads_of loads.now) number ≢ None }
    requires is { column_at (loads_of loads.now) number ≡ (loads_of loads.now).balance }
    ensures values { OnOk result
        (with_top (push_of pool.now (loads_of loads.now) (LoadColumn number)) stack.old.values
        ≡ Some stack.new.values) }
    ensures room { stack.new.room ≡ stack.old.room }
{
    let running = loads.balance()?;
    put(loads, pool, Push::LoadColumn(number), running, stack);
    Ok(())
}

/// Puts what stands in a column of the posting on the stack.
#[inline(never)]
fn load_cell<'r>(
    loads: &Loads<'r, '_, '_>,
    pool: &[Constant<'r>],
    number: u8,
    column: Column,
    stack: &mut Stack<'r>,
)
    requires room { HasRoom stack.old.room
        (with_top (push_of pool.now (loads_of loads.now) (LoadColumn number)) stack.old.values) }
    requires there { column_at (loads_of loads.now) number ≢ None }
    requires is { column_at (loads_of loads.now) number ≡ cell_in (loads_of loads.now) column }
    requires other { column ≢ Column.Balance }
    ensures values { with_top (push_of pool.now (loads_of loads.now) (LoadColumn number)) stack.old.values
        ≡ Some stack.new.values }
    ensures room { stack.new.room ≡ stack.old.room }
{
    let cell = loads.cell_of_row(column);
    put(loads, pool, Push::LoadColumn(number), cell, stack);
}

/// Puts what stands in a column on the stack; in that of the balance the running inventory.
#[inline(always)]
fn load_column<'r>(
    loads: &Loads<'r, '_, '_>,
    pool: &[Constant<'r>],
    number: u8,
    stack: &mut Stack<'r>,
) -> Result<(), AllocError>
    requires room { HasRoom stack.old.room
        (with_top (push_of pool.now (loads_of loads.now) (LoadColumn number)) stack.old.values) }
    requires there { column_at (loads_of loads.now) number ≢ None }
    ensures values { OnOk result
        (with_top (push_of pool.now (loads_of loads.now) (LoadColumn number)) stack.old.values
        ≡ Some stack.new.values) }
    ensures room { stack.new.room ≡ stack.old.room }
{
    match loads.numbered(number) {
        // Those that most queries read are told apart here: what is in them goes to the stack at
        // once. All else is a call, so that no memory is cleared for what it would hand over.
        Column::Account => {
            let cell = loads.cell_of_row(Column::Account);
            put(loads, pool, Push::LoadColumn(number), cell, stack);
        }
        Column::Date => {
            let cell = loads.cell_of_row(Column::Date);
            put(loads, pool, Push::LoadColumn(number), cell, stack);
        }
        Column::Number => {
            let cell = loads.cell_of_row(Column::Number);
            put(loads, pool, Push::LoadColumn(number), cell, stack);
        }
        Column::Position => {
            let cell = loads.cell_of_row(Column::Position);
            put(loads, pool, Push::LoadColumn(number), cell, stack);
        }
        Column::Balance => return load_balance(loads, pool, number, stack),
        column => load_cell(loads, pool, number, column, stack),
    }
    Ok(())
}

/// What few instructions load.
#[inline(always)]
fn other_value<'r>(
    loads: &Loads<'r, '_, '_>,
    pool: &[Constant<'r>],
    op: Push,
) -> Result<Value<'r>, AllocError>
    requires there { loaded pool.now (loads_of loads.now) op ≢ None }
    requires other { IsOther op }
    ensures { IfOk result (λ x. loaded pool.now (loads_of loads.now) op ≡ Some x) }
{
    match op {
        Push::LoadKey(place) => value_at(loads.keys(), place),
        Push::LoadAggregate(place) => value_at(loads.aggregates(), place),
        Push::Meta(place) => Ok(posting_text(loads.posting(), key(&pool[place as usize]))),
        Push::EntryMeta(place) => Ok(transaction_text(loads.posting(), key(&pool[place as usize]))),
        Push::AnyMeta(place) => Ok(any_text(loads.posting(), key(&pool[place as usize]))),
        _ => unreachable!(),
    }
}

/// Puts on the stack what few instructions load.
#[inline(never)]
fn load_other<'r>(
    loads: &Loads<'r, '_, '_>,
    pool: &[Constant<'r>],
    op: Push,
    stack: &mut Stack<'r>,
) -> Result<(), AllocError>
    requires room { HasRoom stack.old.room
        (with_top (push_of pool.now (loads_of loads.now) op) stack.old.values) }
    requires there { loaded pool.now (loads_of loads.now) op ≢ None }
    requires other { IsOther op }
    ensures values { OnOk result (with_top (push_of pool.now (loads_of loads.now) op)
        stack.old.values ≡ Some stack.new.values) }
    ensures room { stack.new.room ≡ stack.old.room }
{
    let value = other_value(loads, pool, op)?;
    put(loads, pool, op, value, stack);
    Ok(())
}

/// Puts what an instruction loads on the stack.
#[inline(always)]
pub fn load<'r>(
    loads: &Loads<'r, '_, '_>,
    pool: &[Constant<'r>],
    op: Push,
    stack: &mut Stack<'r>,
) -> Result<(), AllocError>
    requires room { HasRoom stack.old.room
        (with_top (push_of pool.now (loads_of loads.now) op) stack.old.values) }
    requires there { loaded pool.now (loads_of loads.now) op ≢ None }
    ensures values { OnOk result (with_top (push_of pool.now (loads_of loads.now) op)
        stack.old.values ≡ Some stack.new.values) }
    ensures room { stack.new.room ≡ stack.old.room }
{
    match op {
        Push::True => {
            put(loads, pool, op, Value::Truth(true), stack);
            Ok(())
        }
        Push::False => {
            put(loads, pool, op, Value::Truth(false), stack);
            Ok(())
        }
        Push::Const(place) => {
            let value = constant(&pool[place as usize]);
            put(loads, pool, op, value, stack);
            Ok(())
        }
        Push::LoadColumn(number) => load_column(loads, pool, number, stack),
        other => load_other(loads, pool, other, stack),
    }
}
