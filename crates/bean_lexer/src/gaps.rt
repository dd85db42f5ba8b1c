//! What stands between tokens: white space, line feeds, comments and skipped lines.
ghost use Rattle.std.specs.Prelude.{◌≡◌, ◌≤◌, length, take, count_by, IsTrue, None};
ghost use Rattle.bean_lexer.specs.Gap.{is_line_feed, gap_len, behind_gap, gap_step, place_of};
ghost use Rattle.bean_lexer.specs.Gap as spec;
ghost use Rattle.bean_lexer.specs.Gap.{spot_at};
ghost use Rattle.bean_lexer.specs.InGap.{IsLead};
ghost use Rattle.bean_lexer.specs.declared.gaps.Spot.TheVariants as spot;
ghost use Rattle.bean_lexer.specs.declared.kind.Place.TheVariants as place;

use crate::classes::Space;
use crate::kind::Place;
use crate::tables::begins_token;
use byte_runs::end_of_run;

/// Where in a gap a byte stands.
#[derive(Clone, Copy, Debug, PartialEq, Eq)]
pub enum Spot {
    /// In the first column.
    LineStart,
    /// Behind white space that begins its line.
    Indent,
    /// Behind a token of its line, or behind a text that began on an earlier one.
    Behind,
    /// In a comment or a skipped line.
    Comment,
}

/// A gap's length, the line feeds in it, and the place of the token behind it.
#[derive(Clone, Copy)]
pub struct Lead {
    pub len: usize,
    pub line_feeds: usize,
    pub place: Place,
}

impl Spot {
    /// Where a gap begins at a place of a text: at its start, or behind a token.
    #[inline(always)]
    pub fn at(place: usize) -> Spot
        ensures { result ≡ spot_at place }
    {
        match place {
            0 => Spot::LineStart,
            _ => Spot::Behind,
        }
    }

    /// The place of a token that begins here.
    #[inline(always)]
    pub fn place(self) -> Place
        ensures { result ≡ place_of self }
    {
        match self {
            Spot::LineStart => Place::ColumnOne,
            Spot::Indent => Place::Indented,
            Spot::Behind | Spot::Comment => Place::Inside,
        }
    }

    #[inline(always)]
    fn behind_white(self) -> Spot
        ensures { result ≡ spec.behind_white self }
    {
        match self {
            Spot::LineStart => Spot::Indent,
            spot => spot,
        }
    }

    /// Behind one more byte of a gap, if it goes on with that byte.
    #[inline(always)]
    fn step(self, b: u8) -> Option<Spot>
        ensures { result ≡ gap_step self b }
    {
        match b {
            b'\n' => Some(Spot::LineStart),
            b' ' | b'\t' | b'\r' => Some(self.behind_white()),
            b';' => Some(Spot::Comment),
            b'*' | b':' | b'#' if self == Spot::LineStart => Some(Spot::Comment),
            _ if self == Spot::Comment => Some(Spot::Comment),
            _ => None,
        }
    }
}

/// A token begins at a byte in the first column.
#[inline(always)]
fn begins_line(b: u8) -> bool
    ensures { IsTrue result → gap_step spot.LineStart b ≡ None }
{
    begins_token(b) && !matches!(b, b'*' | b':' | b'#')
}

/// Spaces behind a token of the same line.
#[inline(always)]
fn inside(len: usize) -> Lead
    ensures { result ≡ record { len = len; line_feeds = 0; place = place.Inside } }
{
    Lead {
        len,
        line_feeds: 0,
        place: Place::Inside,
    }
}

/// The gap at the front of a text, byte by byte.
#[inline(always)]
fn long_gap(start: Spot, bytes: &[u8]) -> Lead
    ensures { IsLead start bytes.now result }
{
    let mut end = start;
    let mut len = 0;
    let mut line_feeds = 0;
    while len < bytes.len() {
        if bytes[len] == b' ' {
            end = end.behind_white();
            len = end_of_run::<Space>(bytes, len);
            continue;
        }
        match end.step(bytes[len]) {
            Some(next) => {
                end = next;
                line_feeds += (bytes[len] == b'\n') as usize;
                len += 1;
            }
            None => break,
        }
    }
    Lead {
        len,
        line_feeds,
        place: end.place(),
    }
}

/// The gap behind a token, if it is as most are: one or two spaces, or a line feed with two spaces
/// behind it or none.
#[inline(always)]
fn found_gap(start: Spot, bytes: &[u8]) -> Lead
    ensures { IsLead start bytes.now result }
{
    if start == Spot::Behind && bytes.len() >= 4 {
        if bytes[0] == b'\n' {
            if bytes[1] == b' ' {
                if bytes[2] == b' ' && begins_token(bytes[3]) {
                    return Lead {
                        len: 3,
                        line_feeds: 1,
                        place: Place::Indented,
                    };
                }
            } else if begins_line(bytes[1]) {
                return Lead {
                    len: 1,
                    line_feeds: 1,
                    place: Place::ColumnOne,
                };
            }
        } else if bytes[0] == b' ' {
            if bytes[1] == b' ' {
                if begins_token(bytes[2]) {
                    return inside(2);
                }
            } else if begins_token(bytes[1]) {
                return inside(1);
            }
        } else if begins_token(bytes[0]) {
            return inside(0);
        }
    }
    long_gap(start, bytes)
}

/// The gap at the front of a text.
#[inline(always)]
pub fn gap_at(start: Spot, bytes: &[u8]) -> Lead
    ensures len { result.len ≡ gap_len start bytes.now }
    ensures place { result.place ≡ place_of (behind_gap start bytes.now) }
    ensures inside { result.len ≤ length bytes.now }
    ensures line_feeds { result.line_feeds ≡ count_by is_line_feed (take result.len bytes.now) }
{
    found_gap(start, bytes)
}
