//! A store over memory, which tells what it was asked and fails at a chosen call.
ghost use Rattle.std.specs.Prelude.{◌≡◌, ◌++◌, ◌∷◌, [], None, OnOk, OnErr, IfOk, if◌then◌else◌};
ghost use Rattle.std.specs.Prelude.{map, option_map};
ghost use Rattle.std.specs.Option.{option_copied};
ghost use Rattle.std.specs.String.{string_bytes};
ghost use Rattle.stores.specs.Files.{reading_of, putting_of};
ghost use Rattle.stores.specs.MemoryStore.{GivesWhatItHolds, first_in, newer, held, next_call};
ghost use Rattle.stores.specs.MemoryStore.{fails_at_next, Gives, Keeps};

use crate::source::{Source, SourceFault, Store};
use std::alloc::{AllocError, Global};
use std::marker::Model;

/// A name with bytes.
#[derive(Drop)]
pub struct StoredFile {
    pub name: String,
    pub bytes: Vec<u8>,
}

/// A name that was asked for, with the bytes that were given, or none where the store failed.
#[derive(Drop)]
pub struct Request {
    pub name: String,
    pub bytes: Option<Vec<u8>>,
}

/// Files by their names.
#[derive(Drop)]
pub struct MemoryStore {
    alloc: Global,
    files: Vec<StoredFile>,
    told: Vec<Request>,
    kept: Vec<StoredFile>,
    failures: u64,
    calls: u64,
    fails_at: u64,
}

impl Model for MemoryStore {
    ghost use Rattle.std.specs.Prelude.{map};
    ghost use Rattle.stores.specs.Shelf.{Shelf};
    ghost use Rattle.stores.specs.Files.{reading_of, putting_of};

    ghost Value = { Shelf };

    ghost view = { λ s. record {
      files = map putting_of s.files.items;
      kept = map putting_of s.kept.items;
      told = map reading_of s.told.items;
      failures = s.failures;
      calls = s.calls;
      fails_at = s.fails_at;
    } };
}

impl MemoryStore {
    /// A store with these files, which fails at that call, from 1; at none where it is 0.
    pub fn new(alloc: Global, files: Vec<StoredFile>, fails_at: u64) -> MemoryStore
        ensures { result ≡ record {
          files = map putting_of files.items;
          kept = [];
          told = [];
          failures = 0;
          calls = 0;
          fails_at = fails_at;
        } }
    {
        MemoryStore {
            alloc,
            files,
            told: Vec::new(alloc),
            kept: Vec::new(alloc),
            failures: 0,
            calls: 0,
            fails_at,
        }
    }

    /// What it was asked for, in order.
    pub fn told(&self) -> &[Request]
        ensures { map reading_of result.now ≡ self.now.told }
    {
        &self.told
    }

    /// The bytes under a name.
    pub fn held(&self, name: &str) -> Option<&[u8]>
        ensures { option_copied result ≡ held self.now name.now }
    {
        let mut found = first_of(&self.files, name);
        for file in &self.kept {
            found = newer(name, found, file);
        }
        found
    }

    /// Whether this is the call that fails, which counts it.
    fn fails_now(&mut self) -> bool
        ensures fails { result ≡ fails_at_next self.old }
        ensures counts { self.new ≡ record self.old { calls = next_call self.old.calls } }
    {
        self.calls = self.calls.saturating_add(1);
        self.calls == self.fails_at
    }

    /// A copy of the bytes under a name, or none in a call that fails.
    fn found(&self, name: &str, fails: bool) -> Result<Option<Vec<u8>>, AllocError>
        ensures { IfOk result (λ found. option_map (λ v. v.items) found
            ≡ (if fails then None else held self.now name.now)) }
    {
        if fails {
            return Ok(None);
        }
        match self.held(name) {
            Some(bytes) => Ok(Some(Vec::from_slice(self.alloc, bytes)?)),
            None => Ok(None),
        }
    }

    fn tell(&mut self, asked: Request) -> Result<(), AllocError>
        ensures ok { OnOk result
            (self.new ≡ record self.old { told = self.old.told ++ reading_of asked ∷ [] }) }
        ensures err { OnErr result (self.new ≡ self.old) }
    {
        self.told.push(asked)?;
        Ok(())
    }

    fn keep(&mut self, file: StoredFile) -> Result<(), AllocError>
        ensures ok { OnOk result
            (self.new ≡ record self.old { kept = self.old.kept ++ putting_of file ∷ [] }) }
        ensures err { OnErr result (self.new ≡ self.old) }
    {
        self.kept.push(file)?;
        Ok(())
    }
}

/// It gives what it holds, but in the call that fails, and tells of each call.
pub fn gives_what_it_holds()
    ensures { GivesWhatItHolds }
{}

/// The bytes of the first file of that name.
fn first_of<'a>(files: &'a [StoredFile], name: &str) -> Option<&'a [u8]>
    ensures { option_copied result ≡ first_in name.now (map putting_of files.now) }
{
    for file in files {
        if file.name.as_str() == name {
            return Some(&file.bytes);
        }
    }
    None
}

/// The bytes of a file of that name, else what was found before it.
fn newer<'a>(name: &str, found: Option<&'a [u8]>, file: &'a StoredFile) -> Option<&'a [u8]>
    ensures { option_copied result
        ≡ newer name.now (option_copied found.entry) (putting_of file.now) }
{
    if file.name.as_str() == name {
        Some(&file.bytes)
    } else {
        found
    }
}

impl Source for MemoryStore {
    ghost use Rattle.std.specs.Prelude.{Some};

    ghost failures = { λ s. s.failures };

    ghost told = { λ s. Some s.told };

    ghost may_give = { Gives };

    fn text(&mut self, name: &str) -> Result<Vec<u8>, SourceFault> {
        let fails = self.fails_now();
        if self.failures == u64::MAX {
            return Err(SourceFault::OutOfMemory);
        }
        let name = String::from_str(self.alloc, name)?;
        match self.found(&name, fails)? {
            Some(bytes) => {
                let copy = Vec::from_slice(self.alloc, &bytes)?;
                self.tell(Request {
                    name,
                    bytes: Some(copy),
                })?;
                Ok(bytes)
            }
            None => {
                self.tell(Request { name, bytes: None })?;
                self.failures += 1;
                Err(SourceFault::Failed)
            }
        }
    }
}

impl Store for MemoryStore {
    ghost use Rattle.std.specs.Prelude.{Some};
    ghost use Rattle.stores.specs.MemoryStore.{gives_and_keeps};

    ghost kept = { λ s. Some s.kept };

    ghost may_keep = { Keeps };

    ghost text_keeps = { gives_and_keeps };

    fn put(&mut self, name: &str, bytes: &[u8]) -> Result<(), SourceFault> {
        let fails = self.fails_now();
        if self.failures == u64::MAX {
            return Err(SourceFault::OutOfMemory);
        }
        if fails {
            self.failures += 1;
            return Err(SourceFault::Failed);
        }
        let name = String::from_str(self.alloc, name)?;
        let bytes = Vec::from_slice(self.alloc, bytes)?;
        self.keep(StoredFile { name, bytes })?;
        Ok(())
    }
}
