//! Laws of the definitions.
ghost use Rattle.std.specs.Prelude.{◌≡◌, ℕ, List};
ghost use Rattle.bql_lexer.specs.declared.token.Token.{Token};
ghost use Rattle.bql_tree.specs.Cause.{outside_profile};
ghost use Rattle.bql_parser.specs.Kept.{QueriesAreSmall};
ghost use Rattle.bql_parser.specs.Parse.{IsQuery, IsOutside, StopsAt};
ghost use Rattle.bql_parser.specs.declared.cause.QueryCause.TheVariants as cause;
ghost use Rattle.bql_grammar.specs.Read.{Read};

/// A text is a query of the grammar in one way, or it is outside the grammar; and where it stops
/// then, that is Q1 or Q3, but not both.
pub fn texts_are_read_in_one_way()
    ensures once { (text : List ℕ) (r s : Read) → IsQuery text r → IsQuery text s → r ≡ s }
    ensures apart { (text : List ℕ) (r : Read) (ts : List Token) → IsQuery text r
        → IsOutside text ts → ⊥ }
    ensures told { (text : List ℕ) (place : ℕ) → StopsAt text (cause.Syntax place)
        → StopsAt text (cause.Part (outside_profile place)) → ⊥ }
{}

/// A query has at least one target, and none of its counts and lengths is above what a program may
/// have: 255 targets, items of GROUP BY and items of ORDER BY, 65,535 bytes of a text, 65,535
/// members of a list.
pub fn queries_are_small()
    ensures { QueriesAreSmall }
{}
