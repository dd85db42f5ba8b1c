//! State shapes: what is known of a stack and of slots.
ghost use Rattle.std.specs.Prelude.{◌≡◌, ◌∷◌, ◌<◌, List, [], length, reverse, true, IfOk, MatchBool};
ghost use Rattle.std.specs.Prelude.{MatchOption, Some, None, slice_set};
ghost use Rattle.std.specs.List.{list_all};
ghost use Rattle.limits.specs.declared.counts.TheConstants.{SLOTS, MOST_VALUES};
ghost use Rattle.query_code.specs.declared.instruction.Instruction.TheVariants as instructions;
ghost use Rattle.plain_machine.specs.SectionRun as runs;
ghost use Rattle.well_shaped.specs.Sections.{shape_acts, push_of, unary_of, binary_of, is_truth};
ghost use Rattle.verify_programs.specs.Joining.{joined_stack, joined_slot, joined_slots, joined_state};
ghost use Rattle.verify_programs.specs.Loading.{has_members};
ghost use Rattle.verify_programs.specs.Answers.{Becomes, IfRefused, IsEntryCause};
ghost use Rattle.verify_programs.specs.Answers.{IsNamedCause, IsOther};
ghost use Rattle.plain_machine.specs.Pool.{operation_of};
ghost use Rattle.well_shaped.specs.Laws.{is_some};

use crate::cause::CodeCause;
use crate::loads::Loads;
use crate::rules::{binary_rule, has_named, loaded, unary_rule};
use limits::{MOST_VALUES, SLOTS};
use query_code::{Constant, Instruction, Push, Unary};
use query_rows::{Shape, joined};
use query_values::Binary;
use refusals::Refusal;
use std::alloc::{AllocError, Global};
use std::marker::Model;

/// What is known of the values on a stack and in slots.
#[derive(Drop)]
pub struct StateShape {
    /// The top is the last.
    stack: Vec<Shape>,
    slots: Vec<Option<Shape>>,
}

impl Model for StateShape {
    ghost use Rattle.std.specs.Prelude.{◌≡◌, length, reverse};
    ghost use Rattle.limits.specs.declared.counts.TheConstants.{SLOTS};
    ghost use Rattle.plain_machine.specs.SectionRun.{State};
    ghost use Rattle.query_rows.specs.declared.shape.Shape as shapes;

    ghost Value = { State shapes.Shape };

    ghost view = { λ s. record { stack = reverse s.stack.items; slots = s.slots.items } };

    ghost invariant = { λ s. length s.slots.items ≡ SLOTS };
}

impl StateShape {
    /// An empty stack, and slots that are unset.
    pub fn new(alloc: Global) -> Result<StateShape, AllocError>
        ensures { IfOk result (λ s. s ≡ runs.start) }
    {
        let mut slots = Vec::new(alloc);
        slots.resize(SLOTS, None)?;
        Ok(StateShape {
            stack: Vec::new(alloc),
            slots,
        })
    }

    /// The same once more.
    pub fn copied(&self, alloc: Global) -> Result<StateShape, AllocError>
        ensures { IfOk result (λ s. s ≡ self.now) }
    {
        Ok(StateShape {
            stack: Vec::from_slice(alloc, &self.stack)?,
            slots: Vec::from_slice(alloc, &self.slots)?,
        })
    }

    /// How many values there are.
    pub fn depth(&self) -> usize
        ensures { result ≡ length self.now.stack }
    {
        self.stack.len()
    }

    /// The values, the first one first.
    pub fn values(&self) -> &[Shape]
        ensures { result.now ≡ reverse self.now.stack }
    {
        self.stack.as_slice()
    }

    // ---- what instructions make of it

    fn push(&mut self, shape: Shape) -> Result<(), Refusal<CodeCause>>
        ensures becomes { Becomes result
            (runs.with_slots self.old.slots (runs.with_top (Some shape) self.old.stack)) self.new }
        ensures cause { IfRefused result IsOther }
    {
        if self.stack.len() >= MOST_VALUES {
            return Err(Refusal::Refused(CodeCause::TooDeep));
        }
        self.stack.push(shape)?;
        Ok(())
    }

    fn pop(&mut self) -> Option<Shape>
        ensures slots { self.new.slots ≡ self.old.slots }
        ensures stack { MatchOption result (self.old.stack ≡ [])
            (λ x. self.old.stack ≡ x ∷ self.new.stack) }
    {
        self.stack.pop()
    }

    fn load(
        &mut self,
        pool: &[Constant<'_>],
        loads: &Loads,
        op: Push,
    ) -> Result<(), Refusal<CodeCause>>
        ensures becomes { Becomes result
            (runs.with_slots self.old.slots
            (runs.with_top (push_of pool.now loads.now op) self.old.stack)) self.new }
        ensures cause { IfRefused result (λ c. IsNamedCause pool.now loads.now c (instructions.Push op)) }
    {
        let shape = loaded(pool, loads, op)?;
        self.push(shape)
    }

    fn unary(&mut self, pool: &[Constant<'_>], op: Unary) -> Result<(), Refusal<CodeCause>>
        requires some { list_all has_members pool.now ≡ true }
        ensures becomes { Becomes result
            (runs.with_slots self.old.slots
            (runs.one_operand (unary_of pool.now op) self.old.stack)) self.new }
        ensures cause { IfRefused result (IsEntryCause (is_some (operation_of pool.now op))) }
    {
        if !has_named(pool, op) {
            return Err(Refusal::Refused(CodeCause::PoolEntry));
        }
        let Some(shape) = self.pop() else {
            return Err(Refusal::Refused(CodeCause::TooFew));
        };
        let shape = unary_rule(pool, op, shape)?;
        self.push(shape)
    }

    fn binary(&mut self, op: Binary) -> Result<(), Refusal<CodeCause>>
        ensures becomes { Becomes result
            (runs.with_slots self.old.slots
            (runs.two_operands (binary_of op) self.old.stack)) self.new }
        ensures cause { IfRefused result IsOther }
    {
        let Some(b) = self.pop() else {
            return Err(Refusal::Refused(CodeCause::TooFew));
        };
        let Some(a) = self.pop() else {
            return Err(Refusal::Refused(CodeCause::TooFew));
        };
        let shape = binary_rule(op, a, b)?;
        self.push(shape)
    }

    /// What is known of a slot.
    fn slot(&self, slot: u8) -> Option<Shape>
        ensures { result ≡ runs.slot_at self.now.slots slot }
    {
        match self.slots.get(slot as usize) {
            Some(shape) => *shape,
            None => None,
        }
    }

    fn load_slot(&mut self, slot: u8) -> Result<(), Refusal<CodeCause>>
        ensures becomes { Becomes result
            (runs.with_slots self.old.slots
            (runs.with_top (runs.slot_at self.old.slots slot) self.old.stack)) self.new }
        ensures cause { IfRefused result IsOther }
    {
        match self.slot(slot) {
            Some(shape) => self.push(shape),
            None => Err(Refusal::Refused(CodeCause::Slot)),
        }
    }

    fn store_slot(&mut self, slot: u8) -> Result<(), Refusal<CodeCause>>
        ensures becomes { Becomes result (runs.stored slot self.old.stack self.old.slots) self.new }
        ensures cause { IfRefused result IsOther }
    {
        let slot = slot as usize;
        if slot >= self.slots.len() {
            return Err(Refusal::Refused(CodeCause::Slot));
        }
        let Some(shape) = self.pop() else {
            return Err(Refusal::Refused(CodeCause::TooFew));
        };
        self.slots[slot] = Some(shape);
        Ok(())
    }

    /// Takes a truth value.
    fn test(&mut self) -> Result<(), Refusal<CodeCause>>
        ensures becomes { Becomes result (runs.tested is_truth self.old.stack self.old.slots) self.new }
        ensures cause { IfRefused result IsOther }
    {
        match self.pop() {
            Some(Shape::Truth) => Ok(()),
            Some(_) => Err(Refusal::Refused(CodeCause::Operands)),
            None => Err(Refusal::Refused(CodeCause::TooFew)),
        }
    }

    /// Makes of it what an instruction does, or answers why it can't. Behind a refusal nothing is
    /// known of it.
    pub fn apply(
        &mut self,
        pool: &[Constant<'_>],
        loads: &Loads,
        instruction: Instruction,
    ) -> Result<(), Refusal<CodeCause>>
        requires some { list_all has_members pool.now ≡ true }
        ensures becomes { Becomes result
            (runs.effect (shape_acts pool.now loads.now) instruction self.old) self.new }
        ensures cause { IfRefused result (λ c. IsNamedCause pool.now loads.now c instruction) }
    {
        match instruction {
            Instruction::Push(op) => self.load(pool, loads, op),
            Instruction::Unary(op) => self.unary(pool, op),
            Instruction::Binary(op) => self.binary(op),
            Instruction::LoadSlot(slot) => self.load_slot(slot),
            Instruction::StoreSlot(slot) => self.store_slot(slot),
            Instruction::Jump(_) => Ok(()),
            Instruction::JumpIfFalse(_) => self.test(),
        }
    }

    // ---- where paths meet

    /// Becomes the least above itself and another, if there is one.
    #[tactic(auto, using(crate::proofs::JoinFacts::states_apart, crate::proofs::JoinFacts::states_joined))]
    pub fn join(&mut self, other: &StateShape) -> bool
        ensures { MatchBool result (joined_state self.old other.now ≡ Some self.new)
            (joined_state self.old other.now ≡ None) }
    {
        if !join_stacks(&mut self.stack, &other.stack) {
            return false;
        }
        join_slots(&mut self.slots, &other.slots);
        true
    }
}

/// The least stack above both in place of the first, if they are equally deep and of the same kinds
/// and decimals.
#[tactic(auto, using(crate::proofs::JoinFacts::join_uneven, crate::proofs::JoinFacts::join_start, crate::proofs::JoinFacts::join_dead, crate::proofs::JoinFacts::join_set, crate::proofs::JoinFacts::join_all))]
fn join_stacks(stack: &mut Vec<Shape>, other: &[Shape]) -> bool
    ensures { MatchBool result (joined_stack stack.old.items other.now ≡ Some stack.new.items)
        (joined_stack stack.old.items other.now ≡ None) }
{
    if stack.len() != other.len() {
        return false;
    }
    for place in 0..other.len() {
        let Some(shape) = joined(stack[place], other[place]) else {
            return false;
        };
        stack[place] = shape;
    }
    true
}

/// What two slots have in common; of different kinds or decimals it is nothing.
fn join_slot(a: Option<Shape>, b: Option<Shape>) -> Option<Shape>
    ensures { result ≡ joined_slot a b }
{
    joined(a?, b?)
}

/// The least slots above both in place of the first.
fn join_slots(slots: &mut Vec<Option<Shape>>, other: &[Option<Shape>])
    requires { length slots.old.items ≡ length other.now }
    ensures joined { joined_slots slots.old.items other.now ≡ Some slots.new.items }
    ensures long { length slots.new.items ≡ length slots.old.items }
{
    for place in 0..other.len() {
        slots[place] = join_slot(slots[place], other[place]);
    }
}
