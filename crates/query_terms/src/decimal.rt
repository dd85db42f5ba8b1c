//! Numbers that are wider than those that a ledger writes: those of queries.
ghost use Rattle.std.specs.Prelude.{◌≡◌, ◌≤◌, ◌<◌, ◌^◌};
ghost use Rattle.std.specs.Int.RustNames.{unsigned_abs};
ghost use Rattle.limits.specs.declared.counts.TheConstants.{COUNT_BOUND, MOST_PLACES};
ghost use Rattle.query_terms.specs.WideCount as spec;

use limits::MOST_PLACES;

/// `count * 10^-places`, with at most 32 places and a count of at most `2^127 - 1`, signs left off.
#[derive(Clone, Copy, Drop, PartialEq, Eq)]
pub struct Decimal {
    pub count: i128,
    pub places: u8,
    ghost narrow: { places ≤ MOST_PLACES },
    ghost in_range: { unsigned_abs count < COUNT_BOUND },
}

fn is_wide(count: i128, places: u8) -> bool
    ensures { result ≡ spec.is_wide places count }
{
    places <= MOST_PLACES && count != i128::MIN
}

impl Decimal {
    ghost use Rattle.query_terms.specs.Wide.{decimal_of};

    /// The number of that count and places, where it is one.
    pub fn new(count: i128, places: u8) -> Option<Decimal>
        ensures { result ≡ decimal_of places count }
    {
        if is_wide(count, places) {
            Some(Decimal { count, places })
        } else {
            None
        }
    }
}
