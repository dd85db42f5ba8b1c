//! Laws of turns.
ghost use Rattle.query_machine.specs.Turns.{RunsEnd, StepsAreCounted, TurnsAddUp};

/// After any turns a run stands where the plain machine stands after the sum of their steps, at
/// most at its end; it has made as many steps, or as lead to the end; and where that sum is the
/// budget of all postings, or more, it is at its end, unless memory lacked.
pub fn turns_add_up()
    ensures sum { TurnsAddUp }
    ensures counted { StepsAreCounted }
    ensures end { RunsEnd }
{}
