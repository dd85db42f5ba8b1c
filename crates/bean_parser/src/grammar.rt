//! What holds of the grammar, whatever the code.
ghost use Rattle.std.specs.Prelude.{ℕ, List};
ghost use Rattle.bean_lexer.specs.declared.token.Token.{Token};
ghost use Rattle.bean_parser.specs.OneReading.{HasOneTree, HasOneReading};

/// A block has at most one tree.
pub fn a_block_has_one_tree()
    ensures { (block : List Token) → HasOneTree block }
{}

/// A text says one thing: there is one list of directives and one of faults that it parses to.
pub fn a_text_has_one_reading()
    ensures { (text : List ℕ) → HasOneReading text }
{}
