//! What a text of a ledger says is no larger than the text.
//!
//! A name, a narration, a text of metadata has at most the 16 MiB of
//! [`limits::LARGEST_TEXT`]: it is read from a slice of its file, and no escape makes it
//! longer. A currency has at most 24 bytes, by its form. The number of the line on which something
//! stands is no more than the bytes before it and itself, and a transaction has no more postings,
//! and no more tags and links, than its file has bytes: each comes of a token of its own, those that
//! were pushed to it too.
ghost use Rattle.std.specs.Prelude.{ℕ, List};
ghost use Rattle.std.specs.List.{AllByRecursion};
ghost use Rattle.bean_parser.specs.Parsed.{IsParsed};
ghost use Rattle.bean_parser.specs.declared.parse.Parsed.{Parsed};
ghost use Rattle.bean_directives.specs.SmallPart.{IsShort};
ghost use Rattle.bean_directives.specs.Small.{IsSmallDirective};

/// The directives of a text are small where it is no larger than a text may be.
pub fn texts_say_what_is_small()
    ensures { (text : List ℕ) (p : Parsed) → IsShort text → IsParsed text p
        → AllByRecursion IsSmallDirective p.directives }
{}
