//! Where texts were found last among others.
//!
//! Where there are many texts there are mostly few different ones, which come again and again. So a text
//! is looked for first where one with the same end was found last, and hashed only where it isn't
//! there. Of such a place nothing is promised: who looks there sees what stands there.
use crate::ends::end_of;
use std::alloc::Global;

/// How many ends of texts are told apart.
const ENDS: usize = 8192;

/// For each end of a text the place at which one that has it was found last.
#[derive(Drop)]
pub struct Hints {
    alloc: Global,
    places: Vec<u16>,
}

impl Hints {
    /// Before any text was found. Takes no memory.
    pub fn new(alloc: Global) -> Hints {
        Hints {
            alloc,
            places: Vec::new(alloc),
        }
    }

    /// Where to look for a text first.
    #[inline(always)]
    pub fn place_for(&self, text: &str) -> usize {
        self.place_beside(text, 0)
    }

    /// The same of a text that is looked for with a number beside it, as a currency with that of an account.
    #[inline(always)]
    pub fn place_beside(&self, text: &str, number: usize) -> usize {
        match self.places.get(end_of(text, number, ENDS)) {
            Some(place) => *place as usize,
            None => 0,
        }
    }

    /// A text was found at a place. Takes memory the first time; where that lacks nothing is noted.
    pub fn note(&mut self, text: &str, place: usize) {
        self.note_beside(text, 0, place);
    }

    /// The same of a text with a number beside it.
    pub fn note_beside(&mut self, text: &str, number: usize, place: usize) {
        let Ok(place) = u16::try_from(place) else {
            return;
        };
        if self.places.is_empty() {
            self.begin();
        }
        if let Some(own) = self.places.get_mut(end_of(text, number, ENDS)) {
            *own = place;
        }
    }

    /// Makes room for a place for each end.
    #[inline(never)]
    fn begin(&mut self) {
        if let Ok(places) = vec![in self.alloc; 0; ENDS] {
            self.places = places;
        }
    }
}
