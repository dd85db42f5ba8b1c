//! What holds of the rule of postings, whatever the code.
ghost use Rattle.std.specs.Prelude.{ℕ};
ghost use Rattle.theory.specs.Form.{IsUnambiguous};
ghost use Rattle.bean_postings.specs.Posting.{posting};

/// What is read as a posting, as far as nothing carries it on, is read in one way.
pub fn a_posting_has_one_reading()
    ensures { (line : ℕ) → IsUnambiguous (posting line) }
{}
