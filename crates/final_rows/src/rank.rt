//! What values are ordered by.
ghost use Rattle.std.specs.Prelude.{◌≡◌};
ghost use Rattle.std.proofs.Common.{refl};
ghost use Rattle.std.specs.Cmp.{partial_equiv_from_equiv, po};
ghost use Rattle.std.specs.Ordering.{as_partial_cmp, eq_by_cmp};
ghost use Rattle.std.proofs.lemmas.Cmp.{eq_by_cmp_equiv, on_total};
ghost use Rattle.query_values.proofs.OrderFacts.{values_total};
ghost use Rattle.query_values.specs.Order as order;
ghost use Rattle.final_rows.specs.Rank.{rank_of, rank_order, value_of};

use bean_base::{Day, Slice};
use query_values::Value;
use query_values::comparison::compare_numbers;
use std::cmp::Ordering;

/// What a value is ordered by: numbers, texts and days by themselves, others by their kind. It is
/// smaller than the value, and owns nothing.
#[derive(Drop)]
pub(crate) enum Rank<'r> {
    Null,
    Truth,
    Number { places: u8, count: i128 },
    Text(Slice<'r>),
    Day(Day),
    Set,
    Amount,
    Position,
    Inventory,
}

impl<'r> Rank<'r> {
    /// What this value is ordered by.
    #[inline(always)]
    pub(crate) fn of(value: &Value<'r>) -> Rank<'r>
        ensures { result ≡ rank_of value.now }
    {
        match value {
            Value::Null => Rank::Null,
            Value::Truth(_) => Rank::Truth,
            Value::Number { places, count } => Rank::Number {
                places: *places,
                count: *count,
            },
            Value::Text(text) => Rank::Text(text.lend()),
            Value::Day(day) => Rank::Day(*day),
            Value::Set(_) => Rank::Set,
            Value::Amount { .. } => Rank::Amount,
            Value::Position { .. } => Rank::Position,
            Value::Inventory(_) => Rank::Inventory,
        }
    }
}

/// The place of a rank's kind among the kinds.
fn kind_of(rank: &Rank<'_>) -> u8
    ensures { result ≡ order.kind_rank (value_of rank.now) }
{
    match rank {
        Rank::Null => 0,
        Rank::Truth => 1,
        Rank::Number { .. } => 2,
        Rank::Text(_) => 3,
        Rank::Day(_) => 4,
        Rank::Set => 5,
        Rank::Amount => 6,
        Rank::Position => 7,
        Rank::Inventory => 8,
    }
}

impl PartialEq for Rank<'_> {
    ghost eq = { eq_by_cmp rank_order };

    ghost laws = { partial_equiv_from_equiv (eq_by_cmp_equiv (on_total value_of values_total)) };

    fn eq(&self, other: &Self) -> bool {
        self.cmp(other) == Ordering::Equal
    }
}

impl Eq for Rank<'_> {
    ghost laws = { eq_by_cmp_equiv (on_total value_of values_total) };
}

/// Ranks are in the order of the values that have them.
impl Ord for Rank<'_> {
    ghost cmp = { rank_order };

    ghost total = { on_total value_of values_total };

    ghost matches_partial_cmp = { λ a b. refl };

    ghost matches_eq = { λ a b. refl };

    #[inline(always)]
    fn cmp(&self, other: &Self) -> Ordering {
        match (self, other) {
            (
                Rank::Number {
                    places: p,
                    count: m,
                },
                Rank::Number {
                    places: q,
                    count: n,
                },
            ) => compare_numbers(*p, *m, *q, *n),
            (Rank::Text(a), Rank::Text(b)) => a.cmp(b),
            (Rank::Day(a), Rank::Day(b)) => a.cmp(b),
            _ => kind_of(self).cmp(&kind_of(other)),
        }
    }
}

impl PartialOrd for Rank<'_> {
    ghost partial_cmp = { as_partial_cmp rank_order };

    ghost laws = { po (on_total value_of values_total) (λ a b. refl) };

    fn partial_cmp(&self, other: &Self) -> Option<Ordering> {
        Some(self.cmp(other))
    }
}
