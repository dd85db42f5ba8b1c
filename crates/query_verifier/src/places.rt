//! Where causes stand in a query file.
ghost use Rattle.query_code.specs.QueryFile.{IsFile};
ghost use Rattle.query_verifier.specs.Checking.{IsAt};

use file_places::{place_in_filter, place_in_last, place_in_pool, place_in_row};
use query_code::Parts;
use verify_programs::Spot;

/// The byte of a file where a spot of its program is.
pub fn place_of(bytes: &[u8], parts: &Parts<'_>, spot: Spot) -> usize
    requires { IsFile bytes.now parts.now }
    ensures { IsAt bytes.now parts.now.code spot result }
{
    match spot {
        // Behind the magic and the version.
        Spot::Bounds => 6,
        Spot::Pool(entry) => place_in_pool(bytes, parts, entry),
        Spot::Filter(instruction) => place_in_filter(bytes, parts, instruction),
        Spot::Row(instruction) => place_in_row(bytes, parts, instruction),
        Spot::Last(instruction) => place_in_last(bytes, parts, instruction),
    }
}
