//! The texts of a ledger.
ghost use Rattle.std.specs.Prelude.{◌≡◌};
ghost use Rattle.bean_load.specs.Small.{AreLimited};

use bean_base::Fault;
use std::marker::Model;

/// A text of a ledger.
#[derive(Drop)]
pub struct File {
    /// The name under which it was read.
    pub name: String,
    pub text: String,
}

impl Model for File {
    ghost use Rattle.std.specs.String.{string_bytes};
    ghost use Rattle.bean_load.specs.Texts as spec;

    ghost Value = { spec.File };

    ghost view = { λ f. record { name = string_bytes f.name; text = string_bytes f.text } };
}

/// The lines of a text behind a line, up to its next part or its end. What is read at an include
/// line stands between two parts.
#[derive(Clone, Copy, Drop)]
pub struct Part {
    /// The number of the text, from 0.
    pub file: usize,
    /// The line behind which it begins; 0 at the text's begin.
    pub behind: usize,
}

/// The texts of a ledger, as [`crate::gather`] reads them. None is larger than a text may be, nor are
/// all together larger than [`bean_loaded::LARGEST_LEDGER`].
#[derive(Drop)]
pub struct Texts {
    pub(crate) files: Vec<File>,
    pub(crate) parts: Vec<Part>,
    pub(crate) faults: Vec<Fault>,
}

impl Model for Texts {
    ghost use Rattle.bean_load.specs.Small.{AreLimited};
    ghost use Rattle.bean_load.specs.Texts as spec;

    ghost Value = { spec.Texts };

    ghost view = { λ t. record {
      files = t.files.items;
      parts = t.parts.items;
      faults = t.faults.items;
    } };

    ghost invariant = { λ t. AreLimited t.files.items };
}

impl Texts {
    /// The texts in reading order.
    pub fn files(&self) -> &[File]
        ensures files { result.now ≡ self.now.files }
        ensures limited { AreLimited self.now.files }
    {
        &self.files
    }

    /// The parts in which they are read, in reading order.
    pub fn parts(&self) -> &[Part]
        ensures { result.now ≡ self.now.parts }
    {
        &self.parts
    }

    /// F22 at each include line where no text stands.
    pub fn faults(&self) -> &[Fault]
        ensures { result.now ≡ self.now.faults }
    {
        &self.faults
    }
}
