//! Lists of which many may lie in one block of memory.
ghost use Rattle.std.specs.Prelude.{◌≡◌, ◌≤◌, [], IfOk, MatchOption, length, slice_range};

use bean_base::{Apart, List};
use std::alloc::{AllocError, Global};
use std::marker::Model;
use std::mem::replace;
use std::rc::Rc;

/// A list, with memory of its own, or in a block that it shares with others. Contracts see the list
/// of its items.
pub struct Stretch<T> {
    items: Items<T>,
}

/// Where the items of a list lie.
#[derive(Drop)]
enum Items<T> {
    /// There are none.
    Empty,
    /// By themselves.
    Own(Apart<List<T>>),
    /// So many from a first one on, in a block with others, which is given up with the last list in
    /// it. What is counted comes first: so it lies beside the word that tells which of these it is.
    Within {
        count: u16,
        first: u32,
        block: Rc<Vec<T>>,
    },
    /// The same of more of them, or further behind.
    Far(Apart<Part<T>>),
}

/// Items in a block, from a first one up to another.
#[derive(Drop)]
struct Part<T> {
    block: Rc<Vec<T>>,
    first: usize,
    end: usize,
}

/// Written out, so that what gives one up needs to know nothing of what is in it. It is put in place,
/// since each transaction gives up two.
impl<T: Drop> Drop for Stretch<T> {
    #[inline(always)]
    fn drop(self) {
        let Stretch { items: _ } = self;
    }
}

impl<T> Model for Stretch<T> {
    ghost use Rattle.std.specs.Prelude as prelude;
    ghost use Rattle.bean_directives.specs.Stretch.{IsInBlock, items_in};

    ghost Value = { prelude.List T };

    ghost view = { λ s. items_in s.items };

    ghost invariant = { λ s. IsInBlock s.items };
}

impl<T: Drop> Stretch<T> {
    /// No items. Takes no memory.
    pub fn new() -> Stretch<T>
        ensures { result ≡ [] }
    {
        Stretch {
            items: Items::Empty,
        }
    }

    /// The items of a list, by themselves.
    pub fn of(alloc: Global, items: List<T>) -> Result<Stretch<T>, AllocError>
        ensures { IfOk result (λ s. s ≡ items) }
    {
        if items.as_slice().is_empty() {
            return Ok(Stretch::new());
        }
        let items = Items::Own(Apart::new(alloc, items)?);
        Ok(Stretch { items })
    }

    /// The items of a block from a first one up to another. Takes no memory where these are fewer than
    /// 2^16, and fewer than 2^32 stand before them.
    pub fn within(
        alloc: Global,
        block: &Rc<Vec<T>>,
        first: usize,
        end: usize,
    ) -> Result<Stretch<T>, AllocError>
        requires from { first ≤ end }
        requires to { end ≤ length block.now.value.items }
        ensures { IfOk result (λ s. s ≡ slice_range block.now.value.items first end) }
    {
        let block = block.clone()?;
        let items = match (u16::try_from(end - first), u32::try_from(first)) {
            (Ok(count), Ok(first)) => Items::Within {
                count,
                first,
                block,
            },
            _ => Items::Far(Apart::new(alloc, Part { block, first, end })?),
        };
        Ok(Stretch { items })
    }

    /// Takes the items out, if they lie by themselves.
    pub fn take_own(&mut self, alloc: Global) -> Option<Vec<T>>
        ensures { MatchOption result (self.new ≡ self.old) (λ own. own.items ≡ self.old) }
    {
        if matches!(self.items, Items::Within { .. } | Items::Far(_)) {
            return None;
        }
        match replace(&mut self.items, Items::Empty) {
            Items::Empty => Some(Vec::new(alloc)),
            Items::Own(items) => Some(items.into_inner().into_vec()),
            Items::Within { .. } | Items::Far(_) => unreachable!(),
        }
    }

    /// The items.
    pub fn as_slice(&self) -> &[T]
        ensures { result.now ≡ self.now }
    {
        match &self.items {
            Items::Empty => &[],
            Items::Own(items) => items.get().as_slice(),
            Items::Within {
                count,
                first,
                block,
            } => {
                let first = *first as usize;
                &block[first..first + *count as usize]
            }
            Items::Far(part) => {
                let part = part.get();
                &part.block[part.first..part.end]
            }
        }
    }
}
