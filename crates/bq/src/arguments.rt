//! The arguments of the process.
ghost use Rattle.std.specs.Prelude.{◌≡◌, map, drop, IfOk, OnErr};
ghost use Rattle.std.specs.String.{string_bytes};
ghost use Rattle.std.specs.Vec.Iter.{into_iter_items};
ghost use Rattle.bq.specs.Keeping.{store_of};
ghost use Rattle.bq.specs.Runs.{written, written_at_once, deeds, Ends};

use crate::run::run_words;
use outputs::Output;
use std::alloc::{AllocError, Global};
use std::env::Args;
use stores::Store;

/// The words behind the program's own name.
fn words_behind(alloc: Global, args: Args) -> Result<Vec<String>, AllocError>
    ensures { IfOk result (λ words. words.items ≡ drop 1 (into_iter_items args)) }
{
    args.skip(1).collect(alloc)
}

fn slices(alloc: Global, words: &[String]) -> Result<Vec<&str>, AllocError>
    ensures { IfOk result (λ slices. map (λ w. w.now) slices.items ≡ map string_bytes words.now) }
{
    words.iter().map(|word| word.as_str()).collect(alloc)
}

/// Runs the program on its arguments, the first of which is its own name, as `run_words` does.
/// Where memory lacks for the words, nothing is asked and nothing written.
pub fn run_args<S: Store, O: Output, E: Output>(
    alloc: Global,
    args: Args,
    store: &mut S,
    out: &mut O,
    err: &mut E,
) -> Result<u8, AllocError>
    ensures ends { IfOk result
        (Ends (deeds (store_of S.Source S.kept S.may_keep) store.old store.new (written O.Output out.old out.new))
        (written_at_once E.Output err.old err.new) (map string_bytes (drop 1 (into_iter_items args)))) }
    ensures nothing { OnErr result
        ((store.new ≡ store.old) × (out.new ≡ out.old) × (err.new ≡ err.old)) }
{
    let words = words_behind(alloc, args)?;
    let words = slices(alloc, &words)?;
    Ok(run_words(alloc, &words, store, out, err))
}
