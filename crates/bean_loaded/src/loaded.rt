//! What the texts of a ledger say together.
ghost use Rattle.std.specs.Prelude.{◌≡◌};
ghost use Rattle.bean_loaded.specs.Limited.{AreFew, AreSmall};

use crate::placed::Placed;
use bean_base::{Fault, Place, Text};
use bean_directives::ApartDirective;
use std::marker::Model;

/// The most bytes of all texts of a ledger: 64 MiB.
pub const LARGEST_LEDGER: usize = 67_108_864;

/// A line of a booking method.
#[derive(Drop)]
pub struct MethodLine<'a> {
    pub place: Place,
    /// The name of the method, known or not.
    pub method: Text<'a>,
}

/// What the texts of a ledger say together, as `bean_load::load` gives it. What a directive holds is no
/// larger than a text may be (`bean_parser::texts_say_what_is_small`), and there are no more
/// directives than all texts may have bytes, [`LARGEST_LEDGER`].
#[derive(Drop)]
pub struct Loaded<'a> {
    directives: Vec<Placed<ApartDirective<'a>>>,
    faults: Vec<Fault>,
    title: Option<Text<'a>>,
    operating: Vec<Text<'a>>,
    methods: Vec<MethodLine<'a>>,
}

impl<'a> Model for Loaded<'a> {
    ghost use Rattle.bean_loaded.specs.Loaded as spec;
    ghost use Rattle.bean_loaded.specs.Limited.{AreLimitedDirectives};

    ghost Value = { spec.Loaded };

    ghost view = { λ l. record {
      directives = l.directives.items;
      faults = l.faults.items;
      title = l.title;
      operating = l.operating.items;
      methods = l.methods.items;
    } };

    ghost invariant = { λ l. AreLimitedDirectives l.directives.items };
}

impl<'a> Loaded<'a> {
    /// These directives, in the order in which they are taken, and what else the texts say.
    pub fn new(
        directives: Vec<Placed<ApartDirective<'a>>>,
        faults: Vec<Fault>,
        title: Option<Text<'a>>,
        operating: Vec<Text<'a>>,
        methods: Vec<MethodLine<'a>>,
    ) -> Loaded<'a>
        requires small { AreSmall directives.items }
        requires few { AreFew directives.items }
        ensures { result ≡ record {
          directives = directives.entry.items;
          faults = faults.items;
          title = title.entry;
          operating = operating.entry.items;
          methods = methods.entry.items;
        } }
    {
        Loaded {
            directives,
            faults,
            title,
            operating,
            methods,
        }
    }

    /// The directives in the order in which they are taken.
    pub fn directives(&self) -> &[Placed<ApartDirective<'a>>]
        ensures directives { result.now ≡ self.now.directives }
        ensures small { AreSmall self.now.directives }
        ensures few { AreFew self.now.directives }
    {
        &self.directives
    }

    /// The directives themselves; all else is given up.
    pub fn into_directives(self) -> Vec<Placed<ApartDirective<'a>>>
        ensures directives { result.items ≡ self.entry.directives }
        ensures small { AreSmall self.entry.directives }
        ensures few { AreFew self.entry.directives }
    {
        self.directives
    }

    /// The faults of the texts' blocks, and those of include lines.
    pub fn faults(&self) -> &[Fault]
        ensures { result.now ≡ self.now.faults }
    {
        &self.faults
    }

    /// The last title.
    pub fn title(&self) -> Option<Text<'a>>
        ensures { result ≡ self.now.title }
    {
        match &self.title {
            Some(title) => Some(title.lend()),
            None => None,
        }
    }

    /// The operating currencies, in reading order.
    pub fn operating(&self) -> &[Text<'a>]
        ensures { result.now ≡ self.now.operating }
    {
        &self.operating
    }

    /// The lines of booking methods, in reading order.
    pub fn methods(&self) -> &[MethodLine<'a>]
        ensures { result.now ≡ self.now.methods }
    {
        &self.methods
    }
}
