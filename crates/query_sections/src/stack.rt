//! Stacks of values, whose room is taken once.
ghost use Rattle.std.specs.Prelude.{◌≡◌, ◌≢◌, ◌<◌, ◌≤◌, [], ◌∷◌, ◌++◌, reverse, length, IfOk, OnOk};
ghost use Rattle.std.specs.Prelude.{vec_capacity};

use query_answer::AnswerRows;
use query_values::Value;
use std::alloc::{AllocError, Global};
use std::marker::Model;

/// Gives up all values, from the last on, and keeps the room. This is done for each posting, so that
/// it is put in place.
#[inline(always)]
fn take_all(values: &mut Vec<Value<'_>>)
    ensures items { values.new.items ≡ [] }
    ensures room { vec_capacity values.new ≡ vec_capacity values.old }
{
    while let Some(value) = values.pop() {
        let _ = value;
    }
}

/// A stack of values. Its value has the top first, and how many values it has room for.
#[derive(Drop)]
pub struct Stack<'r> {
    values: Vec<Value<'r>>,
}

impl<'r> Model for Stack<'r> {
    ghost use Rattle.std.specs.Prelude.{reverse, vec_capacity};
    ghost use Rattle.query_sections.specs.Stack as stacks;

    ghost Value = { stacks.Stack };

    ghost view = { λ s. record { values = reverse s.values.items; room = vec_capacity s.values } };
}

impl<'r> Stack<'r> {
    /// An empty stack with room for so many values, at least.
    pub fn with_room(alloc: Global, room: usize) -> Result<Stack<'r>, AllocError>
        ensures values { IfOk result (λ s. s.values ≡ []) }
        ensures room { IfOk result (λ s. room ≤ s.room) }
    {
        Ok(Stack {
            values: Vec::with_capacity(alloc, room)?,
        })
    }

    /// Puts a value on top. Takes no memory.
    #[inline(always)]
    pub fn push(&mut self, value: Value<'r>)
        requires { length self.old.values < self.old.room }
        ensures values { self.new.values ≡ value.entry ∷ self.old.values }
        ensures room { self.new.room ≡ self.old.room }
    {
        self.values.push_reserved(value);
    }

    /// Takes the value on top.
    #[inline(always)]
    pub fn pop(&mut self) -> Value<'r>
        requires { self.old.values ≢ [] }
        ensures values { self.old.values ≡ result ∷ self.new.values }
        ensures room { self.new.room ≡ self.old.room }
    {
        self.values.take_last()
    }

    /// The values, the top last.
    pub fn as_slice(&self) -> &[Value<'r>]
        ensures { result.now ≡ reverse self.now.values }
    {
        self.values.as_slice()
    }

    /// Moves all values behind others, as a row with the top last, and keeps the room.
    pub fn move_to(&mut self, rows: &mut AnswerRows<'r>) -> Result<(), AllocError>
        ensures all { OnOk result (rows.new ≡ rows.old ++ reverse self.old.values ∷ []) }
        ensures none { OnOk result (self.new.values ≡ []) }
        ensures room { self.new.room ≡ self.old.room }
    {
        rows.push(&mut self.values)
    }

    /// Takes all values away, and keeps the room.
    #[inline(always)]
    pub fn clear(&mut self)
        ensures values { self.new.values ≡ [] }
        ensures room { self.new.room ≡ self.old.room }
    {
        take_all(&mut self.values);
    }
}
