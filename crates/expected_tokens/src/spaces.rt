//! Gaps that most tokens have before them.
ghost use Rattle.std.specs.Prelude.{◌≡◌, ◌<◌, length, IfSome};
ghost use Rattle.bean_lexer.specs.InGap.{IsLead};
ghost use Rattle.bean_lexer.specs.declared.gaps.Spot.TheVariants as spot;
ghost use Rattle.bean_lexer.specs.declared.kind.Place.TheVariants as place;

use bean_lexer::{Lead, Place, Space, begins_token};
use byte_runs::end_of_run;

/// The gap behind a token, if it is spaces, or nothing, up to a token of the same line.
#[inline(always)]
pub fn spaces_at(bytes: &[u8]) -> Option<Lead>
    ensures gap { IfSome result (IsLead spot.Behind bytes.now) }
    ensures place { IfSome result (λ lead. lead.place ≡ place.Inside) }
    ensures some { IfSome result (λ lead. lead.len < length bytes.now) }
{
    let len = end_of_run::<Space>(bytes, 0);
    if len == bytes.len() || !begins_token(bytes[len]) {
        return None;
    }
    Some(Lead {
        len,
        line_feeds: 0,
        place: Place::Inside,
    })
}

/// The gap behind a token, if it is a line feed and spaces up to a token: that begins an indented line.
#[inline(always)]
pub fn indent_at(bytes: &[u8]) -> Option<Lead>
    ensures gap { IfSome result (IsLead spot.Behind bytes.now) }
    ensures place { IfSome result (λ lead. lead.place ≡ place.Indented) }
    ensures some { IfSome result (λ lead. lead.len < length bytes.now) }
{
    if bytes.len() < 2 || bytes[0] != b'\n' || bytes[1] != b' ' {
        return None;
    }
    let len = end_of_run::<Space>(bytes, 1);
    if len == bytes.len() || !begins_token(bytes[len]) {
        return None;
    }
    Some(Lead {
        len,
        line_feeds: 1,
        place: Place::Indented,
    })
}
