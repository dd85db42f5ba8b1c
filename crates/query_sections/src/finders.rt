//! The patterns of a pool, ready to be searched for.
ghost use Rattle.std.specs.Prelude.{◌≡◌, ◌≢◌, ◌<◌, Some, None, IfOk, length, option_map};
ghost use Rattle.plain_machine.specs.SectionRun.{slot_at};
ghost use Rattle.query_values.specs.Operation.{has_match, has_member};
ghost use Rattle.query_values.specs.Pattern.{is_found};
ghost use Rattle.query_sections.specs.Known.{AreSo, found_in};

use crate::known::{Known, PLACES, known_at, note, nothing_known, place_of};
use bean_base::Slice;
use query_values::membership::matches_any;
use query_values::{Finder, Pattern, Value};
use std::alloc::{AllocError, Global};
use std::marker::Model;

/// For each entry of a pool what searches for it, where it is a pattern. Its value is the patterns.
pub struct Finders<'r> {
    finders: Vec<Option<Finder<'r>>>,
    /// What is known of texts by their places: those that were searched last.
    known: Vec<Option<Known<'r>>>,
}

/// Written out, so that crates which give one up need to know nothing of what is in it.
impl Drop for Finders<'_> {
    fn drop(self) {
        let Finders {
            finders: _,
            known: _,
        } = self;
    }
}

impl<'r> Model for Finders<'r> {
    ghost use Rattle.std.specs.Prelude.{List, Option, ℕ};
    ghost use Rattle.query_sections.specs.Known.{AreSo};

    ghost Value = { List (Option (List ℕ)) };

    ghost view = { λ f. f.finders.items };

    ghost invariant = { λ f. AreSo f.finders.items f.known.items };
}

/// What searches for a pattern, where there is one.
fn finder_of<'p>(
    alloc: Global,
    pattern: &'p Option<Pattern>,
) -> Result<Option<Finder<'p>>, AllocError>
    ensures { IfOk result (λ f. f ≡ pattern.now) }
{
    match pattern {
        Some(pattern) => Ok(Some(pattern.finder(alloc)?)),
        None => Ok(None),
    }
}

/// Whether a text has the pattern at a place of the pool.
fn search(finders: &mut [Option<Finder<'_>>], pattern: u16, text: &Slice<'_>) -> bool
    requires { slot_at finders.old pattern ≢ None }
    ensures found { found_in finders.old pattern text.now ≡ Some result }
    ensures same { finders.new ≡ finders.old }
{
    match &mut finders[pattern as usize] {
        Some(finder) => finder.finds(text.text()),
        None => unreachable!(),
    }
}

impl<'r> Finders<'r> {
    /// What searches for each of these patterns.
    #[tactic(auto, using(crate::proofs::KnownFacts::nothing_is_so))]
    pub fn new(alloc: Global, patterns: &'r [Option<Pattern>]) -> Result<Finders<'r>, AllocError>
        ensures { IfOk result (λ f. f ≡ patterns.now) }
    {
        let mut finders = Vec::with_capacity(alloc, patterns.len())?;
        for pattern in patterns {
            finders.push(finder_of(alloc, pattern)?)?;
        }
        let places = if patterns.iter().any(|pattern| pattern.is_some()) {
            PLACES
        } else {
            0
        };
        Ok(Finders {
            finders,
            known: nothing_known(alloc, places)?,
        })
    }

    /// Whether a text has the pattern at a place of the pool.
    #[tactic(auto, using(crate::proofs::KnownFacts::noted, crate::proofs::KnownFacts::told))]
    fn has_pattern(&mut self, pattern: u16, text: &Slice<'r>) -> bool
        requires { slot_at self.old pattern ≢ None }
        ensures found { found_in self.old pattern text.now ≡ Some result }
        ensures same { self.new ≡ self.old }
    {
        let place = place_of(pattern, text.text());
        if let Some(is_found) = known_at(self.known.as_slice(), place, pattern, text) {
            return is_found;
        }
        let is_found = search(self.finders.as_mut_slice(), pattern, text);
        let one = Known {
            pattern,
            text: text.lend(),
            is_found,
        };
        note(self.known.as_mut_slice(), place, one);
        is_found
    }

    /// Whether a text has the pattern at a place.
    pub fn matches(&mut self, place: u16, text: &Value<'r>) -> bool
        requires { slot_at self.old place ≢ None }
        ensures found { option_map (λ t. has_match (is_found t) text.now) (slot_at self.old place)
            ≡ Some result }
        ensures same { self.new ≡ self.old }
    {
        match text {
            Value::Text(text) => self.has_pattern(place, text),
            _ => false,
        }
    }

    /// Whether some member of a set has the pattern at a place.
    pub fn matches_any(&mut self, place: u16, set: &Value<'_>) -> bool
        requires { slot_at self.old place ≢ None }
        ensures found { option_map (λ t. has_member (is_found t) set.now) (slot_at self.old place)
            ≡ Some result }
        ensures same { self.new ≡ self.old }
    {
        match &mut self.finders[place as usize] {
            Some(finder) => matches_any(set, finder),
            None => unreachable!(),
        }
    }
}
