//! Values that look up a key where they lie.
ghost use Rattle.std.specs.Prelude.{◌≡◌};
ghost use Rattle.std.specs.Cmp as Cmp;
ghost use Rattle.query_rows.proofs.SameFacts.{lists_same};
ghost use Rattle.query_rows.specs.Same.{same_values};
ghost use Rattle.value_hashes.proofs.FedFacts.{values_alike};
ghost use Rattle.value_hashes.specs.Fed.{values_fed};

use crate::feeding::feed_all;
use crate::key::{ValueKey, are_same};
use indexmap::Equivalent;
use query_values::Value;
use std::hash::{Hash, Hasher};
use std::marker::Model;

/// Values that stand for the key of them, which needn't be made to look it up.
#[derive(Drop)]
pub struct LentKey<'r, 's> {
    values: &'s [Value<'r>],
}

impl<'r, 's> Model for LentKey<'r, 's> {
    ghost use Rattle.std.specs.Prelude.{List};
    ghost use Rattle.query_values.specs.declared.value.Value as of_queries;

    ghost Value = { List of_queries.Value };

    ghost view = { λ k. k.values.now };
}

impl<'r, 's> LentKey<'r, 's> {
    /// The key of these values.
    pub fn new(values: &'s [Value<'r>]) -> LentKey<'r, 's>
        ensures { result ≡ values.now }
    {
        LentKey { values }
    }
}

impl PartialEq for LentKey<'_, '_> {
    ghost eq = { same_values };

    ghost laws = { Cmp.partial_equiv_from_equiv lists_same };

    fn eq(&self, other: &Self) -> bool {
        are_same(self.values, other.values)
    }
}

impl Eq for LentKey<'_, '_> {
    ghost laws = { lists_same };
}

impl Hash for LentKey<'_, '_> {
    ghost hash_input = { values_fed };

    ghost respects_eq = { values_alike };

    fn hash<H: Hasher>(&self, state: &mut H) {
        feed_all(self.values, state);
    }
}

impl<'r> Equivalent<ValueKey<'r>> for &LentKey<'r, '_> {
    ghost equivalent = { λ q. same_values q.now };

    ghost respects_hash = { λ q. values_alike q.now };

    ghost respects_eq = { λ q. lists_same.congr q.now };

    fn equivalent(&self, key: &ValueKey<'r>) -> bool {
        are_same(self.values, key.as_slice())
    }
}
