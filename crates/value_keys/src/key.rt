//! A list of values that is a key.
ghost use Rattle.std.specs.Prelude.{◌≡◌};
ghost use Rattle.std.specs.Cmp as Cmp;
ghost use Rattle.query_rows.proofs.SameFacts.{lists_same};
ghost use Rattle.query_rows.specs.Same.{same_values};
ghost use Rattle.value_hashes.proofs.FedFacts.{values_alike};
ghost use Rattle.value_hashes.specs.Fed.{values_fed};

use crate::feeding::feed_all;
use query_values::Value;
use query_values::comparison::equal;
use std::hash::{Hash, Hasher};
use std::marker::Model;

/// A list of values, told from others by what the values are.
#[derive(Drop)]
pub struct ValueKey<'r> {
    values: Vec<Value<'r>>,
}

impl<'r> Model for ValueKey<'r> {
    ghost use Rattle.std.specs.Prelude.{List};
    ghost use Rattle.query_values.specs.declared.value.Value as of_queries;

    ghost Value = { List of_queries.Value };

    ghost view = { λ k. k.values.items };
}

impl<'r> ValueKey<'r> {
    /// The key of these values.
    pub fn new(values: Vec<Value<'r>>) -> ValueKey<'r>
        ensures { result ≡ values.entry.items }
    {
        ValueKey { values }
    }

    /// Its values.
    pub fn as_slice(&self) -> &[Value<'r>]
        ensures { result.now ≡ self.now }
    {
        self.values.as_slice()
    }

    /// Its values, which are moved out.
    pub fn into_vec(self) -> Vec<Value<'r>>
        ensures { result.items ≡ self.entry }
    {
        self.values
    }
}

/// Whether two lists have as many values, and each is the same as the other's.
pub(crate) fn are_same(mut a: &[Value<'_>], mut b: &[Value<'_>]) -> bool
    ensures { result ≡ same_values a.entry.now b.entry.now }
{
    while let [x, xs @ ..] = a {
        let [y, ys @ ..] = b else {
            return false;
        };
        if !equal(x, y) {
            return false;
        }
        a = xs;
        b = ys;
    }
    b.is_empty()
}

impl PartialEq for ValueKey<'_> {
    ghost eq = { same_values };

    ghost laws = { Cmp.partial_equiv_from_equiv lists_same };

    fn eq(&self, other: &Self) -> bool {
        are_same(self.as_slice(), other.as_slice())
    }
}

impl Eq for ValueKey<'_> {
    ghost laws = { lists_same };
}

impl Hash for ValueKey<'_> {
    ghost hash_input = { values_fed };

    ghost respects_eq = { values_alike };

    fn hash<H: Hasher>(&self, state: &mut H) {
        feed_all(self.as_slice(), state);
    }
}
