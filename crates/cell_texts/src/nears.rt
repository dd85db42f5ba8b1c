//! Where the decimals of currencies were found last.
ghost use Rattle.std.specs.Prelude.{◌≡◌, ◌<◌};
ghost use Rattle.posting_table.specs.Decimals.{decimals_of};

use bean_base::Currency;
use posting_table::Display;

/// How many places are kept.
const PLACES: usize = 32;

/// Where the decimals of a currency were found last, by its place among entries. Each name has a
/// place by its first and its last letter: so a currency is mostly found where it was before, whatever
/// others were asked for in between.
#[derive(Clone, Copy)]
pub(crate) struct Nears {
    places: [usize; PLACES],
}

/// The place of a name.
pub(crate) fn place_of(name: &str) -> usize
    ensures { result < 32 }
{
    let bytes = name.as_bytes();
    match (bytes.first(), bytes.last()) {
        (Some(first), Some(last)) => (*first as usize * 7 + *last as usize) % PLACES,
        _ => 0,
    }
}

impl Nears {
    pub(crate) fn new() -> Nears {
        Nears {
            places: [0; PLACES],
        }
    }

    /// The decimals of a currency.
    pub(crate) fn decimals(&mut self, display: &Display<'_>, currency: &Currency<'_>) -> u8
        ensures { result ≡ decimals_of display.now currency.now }
    {
        self.decimals_at(place_of(currency.text()), display, currency)
    }

    /// The same, where the place of its name is known.
    #[inline(always)]
    pub(crate) fn decimals_at(
        &mut self,
        place: usize,
        display: &Display<'_>,
        currency: &Currency<'_>,
    ) -> u8
        requires { place < 32 }
        ensures { result ≡ decimals_of display.now currency.now }
    {
        display.places_near(currency, &mut self.places[place])
    }
}
