//! What holds of include lines, whatever the code.
ghost use Rattle.std.specs.Prelude.{ℕ, List};
ghost use Rattle.bean_includes.specs.Includes.{HasOneListOfIncludes, IncludesAreSettings};

/// A text has one list of include lines: those among the settings that it parses to.
pub fn include_lines_are_settings()
    ensures one { (text : List ℕ) → HasOneListOfIncludes text }
    ensures settings { (text : List ℕ) → IncludesAreSettings text }
{}
