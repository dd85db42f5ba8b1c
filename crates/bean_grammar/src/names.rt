//! The names of tags, links and metadata entries, as slices of the text that they stand in. They are made
//! of tokens alone.
ghost use Rattle.std.specs.Prelude.{◌≡◌};

use bean_base::Slice;
use std::marker::Model;

/// A tag, by its name without the `#`.
///
/// Its value is its bytes, wherever they lie.
#[derive(Drop, PartialEq, Eq, Hash)]
pub struct Tag<'a> {
    name: Slice<'a>,
}

impl<'a> Model for Tag<'a> {
    ghost use Rattle.std.specs.Prelude.{List, ℕ};

    ghost Value = { List ℕ };

    ghost view = { λ t. t.name };

    ghost inverse = { λ name. record { name = name } };
}

impl<'a> Tag<'a> {
    /// The tag of that name.
    pub(crate) fn new(name: &'a str) -> Tag<'a>
        ensures { result ≡ name.now }
    {
        Tag {
            name: Slice::new(name),
        }
    }

    /// The name, without the `#`.
    pub fn text(&self) -> &'a str
        ensures { result.now ≡ self.now }
    {
        self.name.text()
    }

    /// The same tag once more.
    pub fn lend(&self) -> Tag<'a>
        ensures { result ≡ self.now }
    {
        Tag {
            name: self.name.lend(),
        }
    }
}

/// A link, by its name without the `^`.
///
/// Its value is its bytes, wherever they lie.
#[derive(Drop, PartialEq, Eq, Hash)]
pub struct Link<'a> {
    name: Slice<'a>,
}

impl<'a> Model for Link<'a> {
    ghost use Rattle.std.specs.Prelude.{List, ℕ};

    ghost Value = { List ℕ };

    ghost view = { λ l. l.name };

    ghost inverse = { λ name. record { name = name } };
}

impl<'a> Link<'a> {
    /// The link of that name.
    pub(crate) fn new(name: &'a str) -> Link<'a>
        ensures { result ≡ name.now }
    {
        Link {
            name: Slice::new(name),
        }
    }

    /// The name, without the `^`.
    pub fn text(&self) -> &'a str
        ensures { result.now ≡ self.now }
    {
        self.name.text()
    }

    /// The same link once more.
    pub fn lend(&self) -> Link<'a>
        ensures { result ≡ self.now }
    {
        Link {
            name: self.name.lend(),
        }
    }
}

/// The key of a metadata entry, without its colon.
///
/// Its value is its bytes, wherever they lie.
#[derive(Drop, PartialEq, Eq, Hash)]
pub struct MetaKey<'a> {
    name: Slice<'a>,
}

impl<'a> Model for MetaKey<'a> {
    ghost use Rattle.std.specs.Prelude.{List, ℕ};

    ghost Value = { List ℕ };

    ghost view = { λ k. k.name };

    ghost inverse = { λ name. record { name = name } };
}

impl<'a> MetaKey<'a> {
    /// The key of that name.
    pub(crate) fn new(name: &'a str) -> MetaKey<'a>
        ensures { result ≡ name.now }
    {
        MetaKey {
            name: Slice::new(name),
        }
    }

    /// The name, without the colon.
    pub fn text(&self) -> &'a str
        ensures { result.now ≡ self.now }
    {
        self.name.text()
    }

    /// The same key once more.
    pub fn lend(&self) -> MetaKey<'a>
        ensures { result ≡ self.now }
    {
        MetaKey {
            name: self.name.lend(),
        }
    }
}
