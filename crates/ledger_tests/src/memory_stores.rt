//! Stores of memory.

use std::alloc::Global;
use std::test::Fail;
use stores::memory::StoredFile;
use stores::{MemoryStore, Source, SourceFault, Store};

/// A store with two files of one name, and one of another, which fails at that call.
fn store_of_three(alloc: Global, fails_at: u64) -> Result<MemoryStore, Fail> {
    let mut files = Vec::new(alloc);
    for (name, text) in [("l", "first"), ("m", "other"), ("l", "second")] {
        files.push(StoredFile {
            name: String::from_str(alloc, name)?,
            bytes: Vec::from_slice(alloc, text.as_bytes())?,
        })?;
    }
    Ok(MemoryStore::new(alloc, files, fails_at))
}

fn gives(store: &mut MemoryStore, name: &str, text: &str) -> bool {
    match store.text(name) {
        Ok(bytes) => bytes.as_slice() == text.as_bytes(),
        Err(_) => false,
    }
}

fn fails(store: &mut MemoryStore, name: &str) -> bool {
    matches!(store.text(name), Err(SourceFault::Failed))
}

#[test]
fn a_put_is_read_back_but_at_the_chosen_call(rt: HostRuntime) -> Result<(), Fail> {
    let mut store = store_of_three(rt.alloc(), 6)?;
    assert!(rt; gives(&mut store, "l", "first"));
    for text in ["third", "fourth"] {
        assert!(rt; store.put("l", text.as_bytes()).is_ok());
        assert!(rt; gives(&mut store, "l", text));
    }
    assert!(rt; fails(&mut store, "m"));
    assert!(rt; store.held("l") == Some(b"fourth".as_slice()));
    assert_eq!(rt; store.told().len(), 4);
    Ok(())
}
