//! Verified programs.
ghost use Rattle.std.specs.Prelude.{◌≡◌, ◌≤◌, map};
ghost use Rattle.plain_machine.specs.Pool.{pattern_in};
ghost use Rattle.plain_machine.specs.WholeRun as spec;
ghost use Rattle.well_shaped.specs.Program.{IsDepth};

use bean_base::List;
use query_code::{Instruction, Program};
use query_values::Pattern;

/// A program that is well shaped, with its patterns as built and the depth of its stack.
pub struct Checked<'a> {
    pub program: Program<'a>,
    /// For each entry of the pool its pattern, where it is one.
    pub patterns: List<Option<Pattern>>,
    /// The most values that stand on its stack.
    pub depth: u16,
    ghost is_well_shaped: { ∥ IsDepth program.parts depth ∥₁ },
    ghost are_built: { patterns ≡ map pattern_in program.parts.code.pool },
}

/// Written out, so that crates which give one up need to know nothing of what is in it.
impl Drop for Checked<'_> {
    fn drop(self) {
        let Checked {
            program: _,
            patterns: _,
            depth: _,
        } = self;
    }
}

impl Checked<'_> {
    /// The most values that stand on its stack at once.
    pub fn depth(&self) -> u16
        ensures { result ≡ self.now.depth }
    {
        self.depth
    }

    /// The instructions of the filter, which is run for each posting.
    pub fn filter(&self) -> &[Instruction]
        ensures { result.now ≡ self.now.program.parts.code.filter }
    {
        self.program.parts.code.filter.as_slice()
    }

    /// The instructions of the row section, which is run for each posting that passes.
    pub fn row(&self) -> &[Instruction]
        ensures { result.now ≡ self.now.program.parts.code.row }
    {
        self.program.parts.code.row.as_slice()
    }

    /// The instructions of the last section, which is run for each group.
    pub fn last(&self) -> &[Instruction]
        ensures { result.now ≡ self.now.program.parts.code.last }
    {
        self.program.parts.code.last.as_slice()
    }

    /// The most steps of a run over so many postings that make so many groups; where postings
    /// aren't grouped, those that pass count as groups.
    pub fn budget(&self, postings: u32, groups: u32) -> u64
        requires postings { postings ≤ self.now.program.parts.bounds.postings }
        requires groups { groups ≤ self.now.program.parts.bounds.postings }
        ensures { result ≡ spec.budget self.now.program.parts postings groups }
    {
        let each = self.filter().len() as u64 + self.row().len() as u64;
        postings as u64 * each + groups as u64 * self.last().len() as u64
    }
}
