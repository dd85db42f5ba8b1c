//! The instructions of a section, one after the other.
ghost use Rattle.std.specs.Prelude.{◌≡◌, ◌≢◌, ◌<◌, ◌≤◌, ◌+◌, ◌^◌, Some, None, IfOk, OnOk, length, map, if◌then◌else◌};
ghost use Rattle.plain_machine.specs.Loading.{push_of, unary_of};
ghost use Rattle.plain_machine.specs.Loading.{binary_of};
ghost use Rattle.plain_machine.specs.Pool.{pattern_in};
ghost use Rattle.plain_machine.specs.SectionRun.{after_steps, effect, has_true_top, next_place};
ghost use Rattle.plain_machine.specs.SectionRun.{one_operand, one_step, slot_at, stored, tested};
ghost use Rattle.plain_machine.specs.SectionRun.{two_operands, with_top};
ghost use Rattle.query_code.specs.declared.instruction.Unary.TheVariants.{Align, Match};
ghost use Rattle.query_values.specs.Operand.{is_truth};
ghost use Rattle.query_sections.specs.Reading.{acts_of, loads_of};
ghost use Rattle.query_sections.specs.Room.{AreInside, GoesSafely, HasRoom, OutcomeHasRoom};
ghost use Rattle.query_sections.specs.Room.{StateHasRoom};
ghost use Rattle.query_sections.specs.Standing.{standing, state_in};

use crate::binary::apply_binary;
use crate::finders::Finders;
use crate::frame::Frame;
use crate::loading::load;
use crate::loads::Loads;
use crate::slots::Slots;
use crate::stack::Stack;
use crate::unary::{apply_match, apply_unary};
use query_code::{Constant, Instruction, Push, Unary};
use query_values::Binary;
use query_values::arithmetic::align;
use query_values::comparison::is_true;
use std::alloc::{AllocError, Global};

/// The instructions of a section, and the pool of its program.
#[derive(Clone, Copy)]
pub struct Section<'r, 's> {
    pub instructions: &'s [Instruction],
    pub pool: &'s [Constant<'r>],
}

/// Puts what an instruction loads on the stack.
#[inline(always)]
fn push<'r>(
    loads: &Loads<'r, '_, '_>,
    pool: &[Constant<'r>],
    op: Push,
    stack: &mut Stack<'r>,
) -> Result<(), AllocError>
    requires { HasRoom stack.old.room
        (with_top (push_of pool.now (loads_of loads.now) op) stack.old.values) }
    ensures values { OnOk result (with_top (push_of pool.now (loads_of loads.now) op)
        stack.old.values ≡ Some stack.new.values) }
    ensures room { stack.new.room ≡ stack.old.room }
{
    load(loads, pool, op, stack)
}

/// Puts in place of a text whether it has a pattern.
#[inline(always)]
fn match_top<'r>(
    pool: &[Constant<'r>],
    finders: &mut Finders<'r>,
    place: u16,
    stack: &mut Stack<'r>,
)
    requires built { finders.old ≡ map pattern_in pool.now }
    requires room { HasRoom stack.old.room
        (one_operand (unary_of pool.now (Match place)) stack.old.values) }
    ensures values { one_operand (unary_of pool.now (Match place)) stack.old.values
        ≡ Some stack.new.values }
    ensures room { stack.new.room ≡ stack.old.room }
    ensures same { finders.new ≡ finders.old }
{
    let text = stack.pop();
    stack.push(apply_match(finders, pool, place, &text));
}

/// Puts in place of a number the same with so many decimals.
#[inline(always)]
fn align_top<'r>(pool: &[Constant<'r>], places: u8, stack: &mut Stack<'r>)
    requires { HasRoom stack.old.room
        (one_operand (unary_of pool.now (Align places)) stack.old.values) }
    ensures values { one_operand (unary_of pool.now (Align places)) stack.old.values
        ≡ Some stack.new.values }
    ensures room { stack.new.room ≡ stack.old.room }
{
    // The clauses alone speak of the pool, as those of all operations do.
    let _ = pool;
    let number = stack.pop();
    stack.push(align(&number, places));
}

/// Puts what an operation gives in place of its operand.
#[inline(never)]
fn unary_any<'r>(
    alloc: Global,
    pool: &[Constant<'r>],
    finders: &mut Finders<'r>,
    op: Unary,
    stack: &mut Stack<'r>,
) -> Result<(), AllocError>
    requires built { finders.old ≡ map pattern_in pool.now }
    requires room { HasRoom stack.old.room (one_operand (unary_of pool.now op) stack.old.values) }
    ensures values { OnOk result
        (one_operand (unary_of pool.now op) stack.old.values ≡ Some stack.new.values) }
    ensures room { stack.new.room ≡ stack.old.room }
    ensures same { finders.new ≡ finders.old }
{
    let x = stack.pop();
    stack.push(apply_unary(alloc, finders, pool, op, x)?);
    Ok(())
}

/// The same. What most filters ask is told apart: it goes through no `Result`.
#[inline(always)]
fn unary<'r>(
    alloc: Global,
    pool: &[Constant<'r>],
    finders: &mut Finders<'r>,
    op: Unary,
    stack: &mut Stack<'r>,
) -> Result<(), AllocError>
    requires built { finders.old ≡ map pattern_in pool.now }
    requires room { HasRoom stack.old.room (one_operand (unary_of pool.now op) stack.old.values) }
    ensures values { OnOk result
        (one_operand (unary_of pool.now op) stack.old.values ≡ Some stack.new.values) }
    ensures room { stack.new.room ≡ stack.old.room }
    ensures same { finders.new ≡ finders.old }
{
    match op {
        Unary::Match(place) => {
            match_top(pool, finders, place, stack);
            Ok(())
        }
        Unary::Align(places) => {
            align_top(pool, places, stack);
            Ok(())
        }
        op => unary_any(alloc, pool, finders, op, stack),
    }
}

/// Puts what an operation gives in place of its operands.
#[inline(always)]
fn binary(op: Binary, stack: &mut Stack<'_>)
    requires { HasRoom stack.old.room (two_operands (binary_of op) stack.old.values) }
    ensures values { two_operands (binary_of op) stack.old.values ≡ Some stack.new.values }
    ensures room { stack.new.room ≡ stack.old.room }
{
    let y = stack.pop();
    let x = stack.pop();
    stack.push(apply_binary(op, &x, &y));
}

/// Puts what a slot holds on the stack.
fn load_slot(slot: u8, frame: &mut Frame<'_>) -> Result<(), AllocError>
    requires { HasRoom frame.old.stack.room
        (with_top (slot_at frame.old.slots slot) frame.old.stack.values) }
    ensures values { OnOk result (with_top (slot_at frame.old.slots slot) frame.old.stack.values
        ≡ Some frame.new.stack.values) }
    ensures slots { frame.new.slots ≡ frame.old.slots }
    ensures place { frame.new.place ≡ frame.old.place }
    ensures room { frame.new.stack.room ≡ frame.old.stack.room }
{
    let value = frame.slots.get(slot).clone()?;
    frame.stack.push(value);
    Ok(())
}

/// Takes the top of the stack into a slot.
fn store_slot(slot: u8, frame: &mut Frame<'_>)
    requires { stored slot frame.old.stack.values frame.old.slots ≢ None }
    ensures state { stored slot frame.old.stack.values frame.old.slots ≡ Some (state_in frame.new) }
    ensures place { frame.new.place ≡ frame.old.place }
    ensures room { frame.new.stack.room ≡ frame.old.stack.room }
{
    let value = frame.stack.pop();
    frame.slots.set(slot, value);
}

/// Takes the top of the stack, and tells whether it is true.
#[inline(always)]
fn pop_test(stack: &mut Stack<'_>, slots: &Slots<'_>) -> bool
    requires { tested is_truth stack.old.values slots.now ≢ None }
    ensures truth { result ≡ has_true_top stack.old.values }
    ensures values { tested is_truth stack.old.values slots.now
        ≡ Some (record { stack = stack.new.values; slots = slots.now }) }
    ensures room { stack.new.room ≡ stack.old.room }
{
    is_true(&stack.pop())
}

/// The place behind a test.
fn behind_test(goes_on: bool, place: usize, to: u16) -> usize
    requires { place + 1 < 2 ^ 64 }
    ensures { result ≡ (if goes_on then place + 1 else to) }
{
    if goes_on { place + 1 } else { to as usize }
}

/// What an instruction makes of stack and slots, and where it leads.
#[inline(always)]
fn execute<'r>(
    alloc: Global,
    loads: &Loads<'r, '_, '_>,
    pool: &[Constant<'r>],
    finders: &mut Finders<'r>,
    instruction: Instruction,
    frame: &mut Frame<'r>,
) -> Result<(), AllocError>
    requires built { finders.old ≡ map pattern_in pool.now }
    requires room { StateHasRoom frame.old.stack.room
        (effect (acts_of pool.now loads.now) instruction (state_in frame.old)) }
    requires place { frame.old.place + 1 < 2 ^ 64 }
    ensures state { OnOk result
        (effect (acts_of pool.now loads.now) instruction (state_in frame.old)
        ≡ Some (state_in frame.new)) }
    ensures place { OnOk result (frame.new.place
        ≡ next_place instruction frame.old.place frame.old.stack.values) }
    ensures room { frame.new.stack.room ≡ frame.old.stack.room }
    ensures same { finders.new ≡ finders.old }
{
    match instruction {
        Instruction::Push(op) => {
            push(loads, pool, op, &mut frame.stack)?;
            frame.place += 1;
            Ok(())
        }
        Instruction::Unary(op) => {
            unary(alloc, pool, finders, op, &mut frame.stack)?;
            frame.place += 1;
            Ok(())
        }
        Instruction::Binary(op) => {
            binary(op, &mut frame.stack);
            frame.place += 1;
            Ok(())
        }
        Instruction::LoadSlot(slot) => {
            load_slot(slot, frame)?;
            frame.place += 1;
            Ok(())
        }
        Instruction::StoreSlot(slot) => {
            store_slot(slot, frame);
            frame.place += 1;
            Ok(())
        }
        Instruction::Jump(to) => {
            frame.place = to as usize;
            Ok(())
        }
        Instruction::JumpIfFalse(to) => {
            let goes_on = pop_test(&mut frame.stack, &frame.slots);
            frame.place = behind_test(goes_on, frame.place, to);
            Ok(())
        }
    }
}

/// The next instruction, which is there.
#[inline(always)]
fn step<'r>(
    alloc: Global,
    loads: &Loads<'r, '_, '_>,
    section: &Section<'r, '_>,
    finders: &mut Finders<'r>,
    frame: &mut Frame<'r>,
) -> Result<(), AllocError>
    requires built { finders.old ≡ map pattern_in section.now.pool.now }
    requires inside { frame.old.place < length section.now.instructions.now }
    requires room { OutcomeHasRoom frame.old.stack.room (one_step section.now.instructions.now
        (acts_of section.now.pool.now loads.now) (standing frame.old)) }
    ensures stands { OnOk result (standing frame.new ≡ one_step section.now.instructions.now
        (acts_of section.now.pool.now loads.now) (standing frame.old)) }
    ensures within { OnOk result (frame.new.place ≤ length section.now.instructions.now) }
    ensures room { frame.new.stack.room ≡ frame.old.stack.room }
    ensures same { finders.new ≡ finders.old }
{
    let instruction = section.instructions[frame.place];
    execute(alloc, loads, section.pool, finders, instruction, frame)
}

/// Goes on by so many instructions, at most to the end of the section, and tells how many they
/// were. Where memory lacks, the section can't go on.
#[inline(never)]
pub fn go_on<'r>(
    alloc: Global,
    loads: &Loads<'r, '_, '_>,
    section: &Section<'r, '_>,
    finders: &mut Finders<'r>,
    frame: &mut Frame<'r>,
    most: u64,
) -> Result<u64, AllocError>
    requires built { finders.old ≡ map pattern_in section.now.pool.now }
    requires within { frame.old.place ≤ length section.now.instructions.now }
    requires safe { GoesSafely frame.old.stack.room section.now.instructions.now
        (acts_of section.now.pool.now loads.now) (standing frame.old) }
    ensures few { IfOk result (λ made. made ≤ most) }
    ensures stands { IfOk result (λ made. standing frame.new
        ≡ after_steps section.now.instructions.now (acts_of section.now.pool.now loads.now) made
        (standing frame.old)) }
    ensures inside { IfOk result (λ made. AreInside section.now.instructions.now
        (acts_of section.now.pool.now loads.now) made (standing frame.old)) }
    ensures ends { IfOk result (λ made. made < most
        → frame.new.place ≡ length section.now.instructions.now) }
    ensures room { frame.new.stack.room ≡ frame.old.stack.room }
    ensures same { finders.new ≡ finders.old }
{
    let mut made = 0;
    while made < most && frame.place < section.instructions.len() {
        step(alloc, loads, section, finders, frame)?;
        made += 1;
    }
    Ok(made)
}
