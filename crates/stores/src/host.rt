//! The program's own store: files, and standard input.
ghost use Rattle.std.specs.Prelude.{◌≡◌, IfOk, IfSome, take};

use crate::kept::keep;
use crate::source::{Source, SourceFault, Store};
use std::alloc::Global;
use std::fs::{File, OpenFile};
use std::io::{self, Read};
use std::marker::Model;
use std::rt::Files;

/// Files by their names, and standard input by the name `-`.
///
/// A file is kept whole or not at all: where a disk is full, what stood under its name is as it was.
#[derive(Drop)]
pub struct HostStore<R> {
    rt: R,
    most: u64,
    failures: u64,
}

impl<R> Model for HostStore<R> {
    ghost use Rattle.std.specs.Prelude.{ℕ};

    ghost Value = { ℕ };

    ghost view = { λ s. s.failures };
}

impl<R> HostStore<R> {
    /// A store that didn't fail yet. It reads `most` bytes of a text, and leaves the rest.
    pub fn new(rt: R, most: u64) -> HostStore<R>
        ensures { result ≡ 0 }
    {
        HostStore {
            rt,
            most,
            failures: 0,
        }
    }
}

fn fault_of(error: &io::Error) -> SourceFault {
    match error.kind() {
        io::ErrorKind::OutOfMemory => SourceFault::OutOfMemory,
        _ => SourceFault::Failed,
    }
}

/// The bytes that are left, up to `most` of them. It asks for no more than that. Where as many are
/// left as were expected, the memory that it takes is taken once.
pub fn read_front<T: Read + Drop>(
    alloc: Global,
    from: T,
    expected: u64,
    most: u64,
) -> io::Result<Vec<u8>>
    ensures { IfOk result
        (λ bytes. IfSome (T.remaining from) (λ left. bytes.items ≡ take most left)) }
{
    let mut bytes = Vec::with_capacity(alloc, expected.min(most) as usize)?;
    from.take(most).read_to_end(&mut bytes)?;
    Ok(bytes)
}

/// How many bytes a file is said to have, where that is known.
fn expected_of<F: OpenFile>(file: &F) -> u64 {
    match file.metadata() {
        Ok(metadata) => metadata.len(),
        Err(_) => 0,
    }
}

/// The first bytes of a file, or of standard input.
fn bytes_of<R: Files + Input + AllocGlobal>(
    rt: &R,
    name: &str,
    most: u64,
) -> Result<Vec<u8>, SourceFault> {
    let read = if name == "-" {
        read_front(rt.alloc(), rt.reader(), 0, most)
    } else {
        match File::open(rt, name) {
            Ok(file) => {
                let expected = expected_of(&file);
                read_front(rt.alloc(), file, expected, most)
            }
            Err(error) => Err(error),
        }
    };
    read.map_err(|error| fault_of(&error))
}

impl<R: Files + Input + AllocGlobal + Drop> Source for HostStore<R> {
    ghost use Rattle.std.specs.Prelude.{⊤};

    ghost failures = { λ s. s };

    ghost may_give = { λ before name answer after. ⊤ };

    fn text(&mut self, name: &str) -> Result<Vec<u8>, SourceFault> {
        if self.failures == u64::MAX {
            return Err(SourceFault::OutOfMemory);
        }
        let read = bytes_of(&self.rt, name, self.most);
        if matches!(read, Err(SourceFault::Failed)) {
            self.failures += 1;
        }
        read
    }
}

impl<R: Files + Input + AllocGlobal + Drop> Store for HostStore<R> {
    ghost use Rattle.std.specs.Prelude.{⊤, refl};

    ghost may_keep = { λ before name bytes answer after. ⊤ };

    ghost text_keeps = { λ before after name answer gives. refl };

    fn put(&mut self, name: &str, bytes: &[u8]) -> Result<(), SourceFault> {
        if self.failures == u64::MAX {
            return Err(SourceFault::OutOfMemory);
        }
        match keep(&self.rt, name, bytes) {
            Ok(()) => Ok(()),
            Err(error) => {
                let fault = fault_of(&error);
                if fault == SourceFault::Failed {
                    self.failures += 1;
                }
                Err(fault)
            }
        }
    }
}
