//! What is known while texts are gathered.
ghost use Rattle.std.specs.Prelude.{◌≡◌, ◌++◌, [], ◌∷◌, false, length, map, OnOk, OnErr};
ghost use Rattle.std.specs.String.{string_bytes};
ghost use Rattle.bean_load.specs.Asking.{AddsBytes, Asks, IsTextOf};
ghost use Rattle.bean_load.specs.Gathered as spec;
ghost use Rattle.bean_load.specs.Small.{AreLimited};

use crate::cause::LoadCause;
use crate::texts::{File, Part, Texts};
use bean_base::{Fault, FaultKind, Place};
use bean_loaded::LARGEST_LEDGER;
use indexmap::IndexSet;
use limits::LARGEST_TEXT;
use refusals::Refusal;
use std::alloc::{AllocError, Global};
use std::marker::Model;
use stores::{Source, SourceFault};

/// The most names that are asked for.
pub const MOST_NAMES: usize = 1_000;

/// How many texts may stand in one another below the top one.
pub const DEEPEST: usize = 16;

/// What the source has under a name.
#[derive(Drop)]
pub enum SourceAnswer {
    Text(String),
    NotUtf8,
    /// Nothing: it failed.
    Failed,
}

/// What is known while texts are gathered.
pub struct Gathering {
    pub alloc: Global,
    asked: IndexSet<String>,
    read: usize,
    files: Vec<File>,
    parts: Vec<Part>,
    faults: Vec<Fault>,
}

/// Written out, so that what gives one up needs to know nothing of what is in it.
impl Drop for Gathering {
    fn drop(self) {
        let Gathering {
            alloc: _,
            asked: _,
            read: _,
            files: _,
            parts: _,
            faults: _,
        } = self;
    }
}

impl Model for Gathering {
    ghost use Rattle.std.specs.Prelude.{map};
    ghost use Rattle.std.specs.String.{string_bytes};
    ghost use Rattle.bean_load.specs.Gathered as spec;

    ghost Value = { spec.Gathered };

    ghost view = { λ g. record {
      asked = map string_bytes g.asked.keys;
      read = g.read;
      files = g.files.items;
      parts = g.parts.items;
      faults = g.faults.items;
    } };
}

/// The text that bytes are.
fn text_of(bytes: Vec<u8>) -> SourceAnswer
    ensures { IsTextOf bytes.items result }
{
    match String::from_utf8(bytes) {
        Ok(text) => SourceAnswer::Text(text),
        Err(_) => SourceAnswer::NotUtf8,
    }
}

impl Gathering {
    /// Nothing was asked for yet. Takes no memory.
    pub fn new(alloc: Global) -> Gathering
        ensures { result ≡ spec.nothing }
    {
        Gathering {
            alloc,
            asked: IndexSet::new(alloc),
            read: 0,
            files: Vec::new(alloc),
            parts: Vec::new(alloc),
            faults: Vec::new(alloc),
        }
    }

    /// The number of the next text.
    pub fn next_file(&self) -> usize
        ensures { result ≡ length self.now.files }
    {
        self.files.len()
    }

    /// Whether the source was asked for the name.
    pub fn was_asked(&self, name: &str) -> bool
        ensures { result ≡ spec.was_asked name.now self.now }
    {
        self.asked.contains(name)
    }

    /// Whether no text may stand deeper, or no name more may be asked for.
    pub fn is_full(&self, room: usize) -> bool
        ensures { result ≡ spec.is_full room self.now }
    {
        room == 0 || self.asked.len() >= MOST_NAMES
    }

    /// Whether a text of so many bytes is too large, or all that was read with it.
    fn is_too_large(&self, bytes: usize) -> bool
        ensures { result ≡ spec.is_too_large bytes self.now }
    {
        bytes > LARGEST_TEXT || self.read.saturating_add(bytes) > LARGEST_LEDGER
    }

    /// Adds a name that is asked for.
    fn add_name(&mut self, name: &str) -> Result<(), AllocError>
        requires { spec.was_asked name.now self.old ≡ false }
        ensures { OnOk result (self.new ≡ spec.with_asked name.now self.old) }
    {
        let name = String::from_str(self.alloc, name)?;
        self.asked.insert(name)?;
        Ok(())
    }

    /// Counts bytes that were read, where they aren't too many.
    fn add_bytes(&mut self, bytes: usize) -> Result<(), Refusal<LoadCause>>
        ensures { AddsBytes bytes self.old self.new result }
    {
        if self.is_too_large(bytes) {
            return Err(Refusal::Refused(LoadCause::TooLarge));
        }
        self.read += bytes;
        Ok(())
    }

    /// Asks the source for a text that it wasn't asked for, which counts its name and its bytes.
    pub fn ask<S: Source>(
        &mut self,
        source: &mut S,
        name: &str,
    ) -> Result<SourceAnswer, Refusal<LoadCause>>
        requires { spec.was_asked name.now self.old ≡ false }
        ensures { Asks S.Source source.old source.new name.now self.old self.new result }
    {
        self.add_name(name)?;
        match source.text(name) {
            Ok(bytes) => {
                self.add_bytes(bytes.len())?;
                Ok(text_of(bytes))
            }
            Err(SourceFault::Failed) => Ok(SourceAnswer::Failed),
            Err(SourceFault::OutOfMemory) => Err(Refusal::OutOfMemory),
        }
    }

    /// Adds F22 at a line.
    pub fn add_fault(&mut self, file: usize, line: usize) -> Result<(), AllocError>
        ensures { OnOk result (self.new ≡ spec.with_fault file line self.old) }
    {
        self.faults.push(Fault {
            kind: FaultKind::IncludeFault,
            place: Place { file, line },
        })?;
        Ok(())
    }

    /// Adds the part of a text behind a line.
    pub fn add_part(&mut self, file: usize, behind: usize) -> Result<(), AllocError>
        ensures { OnOk result (self.new ≡ spec.with_part file behind self.old) }
    {
        self.parts.push(Part { file, behind })?;
        Ok(())
    }

    /// Adds a text, which is read from its begin on.
    pub fn add_file(&mut self, name: String, text: String) -> Result<(), AllocError>
        ensures { OnOk result
            (self.new ≡ spec.with_file (string_bytes name) (string_bytes text) self.old) }
    {
        let number = self.files.len();
        self.files.push(File { name, text })?;
        self.add_part(number, 0)
    }

    /// The texts that were gathered.
    pub fn texts(self) -> Texts
        requires { AreLimited self.files }
        ensures { result ≡ spec.texts_of self }
    {
        let Gathering {
            alloc: _,
            asked: _,
            read: _,
            files,
            parts,
            faults,
        } = self;
        Texts {
            files,
            parts,
            faults,
        }
    }
}
