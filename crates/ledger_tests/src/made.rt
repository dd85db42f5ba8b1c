//! Stores of memory, as the tests make them.

use std::alloc::Global;
use std::test::Fail;
use stores::MemoryStore;
use stores::memory::StoredFile;

/// A store with these files, which fails at that call; at none where it is 0.
pub fn store_of(alloc: Global, files: &[(&str, &str)], fails_at: u64) -> Result<MemoryStore, Fail> {
    let mut entries = Vec::new(alloc);
    for (name, text) in files {
        entries.push(StoredFile {
            name: String::from_str(alloc, name)?,
            bytes: Vec::from_slice(alloc, text.as_bytes())?,
        })?;
    }
    Ok(MemoryStore::new(alloc, entries, fails_at))
}
