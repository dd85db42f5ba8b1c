//! Laws of state shapes.
ghost use Rattle.verify_programs.specs.Joining.{JoinsAreLeast};

/// What two state shapes join to is the least above both, and where they don't join there is none.
pub fn joins_are_least()
    ensures { JoinsAreLeast }
{}
