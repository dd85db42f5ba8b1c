//! The program over a store and outputs of memory, which tell all.
ghost use Rattle.std.specs.Prelude.{map};
ghost use Rattle.bq.specs.MemoryRun.{in_memory, kept_in};
ghost use Rattle.bq.specs.Runs.{Ends};

use crate::run::run_words;
use outputs::ShortWriter;
use std::alloc::Global;
use stores::MemoryStore;

/// Runs the program on its words, as `run_words` does.
pub fn run_in_memory(
    alloc: Global,
    words: &[&str],
    store: &mut MemoryStore,
    out: &mut ShortWriter,
    err: &mut ShortWriter,
) -> u8
    ensures { Ends (in_memory store.old store.new (kept_in out.old out.new))
        (kept_in err.old err.new)
        (map (λ w. w.now) words.now) result }
{
    run_words(alloc, words, store, out, err)
}
