//! Sets of texts.
ghost use Rattle.std.specs.Prelude.{◌≡◌, ◌∷◌, [], IfOk};
ghost use Rattle.std.specs.Cmp.Lexicographic.{slice_cmp};
ghost use Rattle.std.specs.List.Sorted.{IsStrictlySortedBy};
ghost use Rattle.std.specs.Ordering.{nat_cmp};
ghost use Rattle.query_values.specs.TextSet.{set_of};

use bean_base::Slice;
use std::alloc::{AllocError, Global};
use std::cmp::Ordering;
use std::marker::Model;

/// Texts, each once. Its value is the list of them in the order of their bytes.
pub struct TextSet<'a> {
    texts: Vec<Slice<'a>>,
}

/// Written out, so that what gives one up needs to know nothing of what is in it.
impl Drop for TextSet<'_> {
    fn drop(self) {
        let TextSet { texts: _ } = self;
    }
}

impl<'a> Model for TextSet<'a> {
    ghost use Rattle.std.specs.Prelude.{ℕ, List};
    ghost use Rattle.std.specs.Cmp.Lexicographic.{slice_cmp};
    ghost use Rattle.std.specs.List.Sorted.{IsStrictlySortedBy};
    ghost use Rattle.std.specs.Ordering.{nat_cmp};

    ghost Value = { List (List ℕ) };

    ghost view = { λ s. s.texts.items };

    ghost invariant = { λ s. IsStrictlySortedBy (slice_cmp nat_cmp) s.texts.items };
}

impl<'a> TextSet<'a> {
    /// The set of no texts. Takes no memory.
    #[inline(always)]
    pub fn empty(alloc: Global) -> TextSet<'a>
        ensures { result ≡ [] }
    {
        TextSet {
            texts: Vec::new(alloc),
        }
    }

    /// The set of these texts, which may come in any order and more than once.
    pub fn new(texts: Vec<Slice<'a>>) -> TextSet<'a>
        ensures { result ≡ set_of texts.entry.items }
    {
        // Most sets are of no text or of one, which stand in order as they are.
        if texts.len() < 2 {
            return TextSet { texts };
        }
        let mut texts = texts;
        texts.sort_unstable();
        texts.dedup();
        TextSet { texts }
    }

    /// The set of two texts, which may be the same. They are compared once.
    pub fn of_two(
        alloc: Global,
        first: Slice<'a>,
        second: Slice<'a>,
    ) -> Result<TextSet<'a>, AllocError>
        ensures { IfOk result (λ set. set ≡ set_of (first.entry ∷ second.entry ∷ [])) }
    {
        match first.cmp(&second) {
            Ordering::Less => Ok(TextSet {
                texts: Vec::from_array(alloc, [first, second])?,
            }),
            Ordering::Equal => Ok(TextSet {
                texts: Vec::from_array(alloc, [second])?,
            }),
            Ordering::Greater => Ok(TextSet {
                texts: Vec::from_array(alloc, [second, first])?,
            }),
        }
    }

    /// The texts, in the order of their bytes.
    pub fn as_slice(&self) -> &[Slice<'a>]
        ensures texts { result.now ≡ self.now }
        ensures order { IsStrictlySortedBy (slice_cmp nat_cmp) self.now }
    {
        self.texts.as_slice()
    }
}
