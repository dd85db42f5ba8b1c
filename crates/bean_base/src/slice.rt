//! Slices of a text that are compared, hashed and named in contracts by their bytes.
ghost use Rattle.std.specs.Prelude.{◌≡◌, nat_eq};
ghost use Rattle.std.specs.Cmp.Lexicographic.{pointwise, slice_cmp, nat_list_eq_equiv};
ghost use Rattle.std.specs.Ordering.{nat_cmp, as_partial_cmp};
ghost use Rattle.std.specs.Cmp;
ghost use Rattle.std.specs.Hash as fed;
ghost use Rattle.std.specs.Cmp.Rules.{comparing, hashing};
ghost use Rattle.std.proofs.Common.{rules};

use std::cmp::Ordering;
use std::hash::{Hash, Hasher};
use std::marker::Model;

/// A slice of a text. Its value is its bytes, so contracts speak of a struct of slices itself.
#[derive(Drop)]
pub struct Slice<'a> {
    text: &'a str,
}

impl<'a> Model for Slice<'a> {
    ghost use Rattle.std.specs.Prelude.{List, ℕ};

    ghost Value = { List ℕ };

    ghost view = { λ s. s.text.now };
}

impl<'a> Slice<'a> {
    /// All of a text, as a slice.
    pub fn new(text: &'a str) -> Slice<'a>
        ensures { result ≡ text.now }
    {
        Slice { text }
    }

    /// The slice itself.
    pub fn text(&self) -> &'a str
        ensures { result.now ≡ self.now }
    {
        self.text
    }

    /// The same slice once more.
    pub fn lend(&self) -> Slice<'a>
        ensures { result ≡ self.now }
    {
        Slice { text: self.text }
    }
}

impl PartialEq for Slice<'_> {
    ghost eq = { pointwise nat_eq };

    ghost laws = { Cmp.partial_equiv_from_equiv nat_list_eq_equiv };

    #[inline(always)]
    fn eq(&self, other: &Self) -> bool {
        // Those of three bytes, as most names of currencies have, are compared here, without a call.
        match (self.text.as_bytes(), other.text.as_bytes()) {
            ([p, q, r], [x, y, z]) => *p == *x && *q == *y && *r == *z,
            _ => self.text == other.text,
        }
    }
}

impl Eq for Slice<'_> {
    ghost laws = { nat_list_eq_equiv };
}

impl Hash for Slice<'_> {
    ghost hash_input = { λ s. fed.str s };

    ghost respects_eq = { Prim.search (hashing, rules) };

    fn hash<H: Hasher>(&self, state: &mut H) {
        self.text().hash(state);
    }
}

/// Slices are in the order of their bytes.
impl Ord for Slice<'_> {
    ghost cmp = { slice_cmp nat_cmp };

    ghost total = { Prim.search (comparing, rules) };

    ghost matches_partial_cmp = { Prim.search (comparing, rules) };

    ghost matches_eq = { Prim.search (comparing, rules) };

    fn cmp(&self, other: &Self) -> Ordering {
        self.text().cmp(other.text())
    }
}

impl PartialOrd for Slice<'_> {
    ghost partial_cmp = { as_partial_cmp (slice_cmp nat_cmp) };

    ghost laws = { Cmp.partial_order_from_own_ties (Prim.search (comparing, rules))
        (Prim.search (comparing, rules)) };

    fn partial_cmp(&self, other: &Self) -> Option<Ordering> {
        Some(self.cmp(other))
    }
}
