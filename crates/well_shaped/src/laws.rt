//! The laws of well shaped programs.
ghost use Rattle.query_rows.specs.Shape.{IsBelow, LiesIn};
ghost use Rattle.well_shaped.specs.Files.{WellShapedHaveFiles};
ghost use Rattle.well_shaped.specs.Laws.{ActsAreMonotone, DepthsAreOne, EndsAreMonotone};
ghost use Rattle.well_shaped.specs.Laws.{HeldShapesFit};
ghost use Rattle.well_shaped.specs.Laws.{SectionsAreFollowed, SectionsHaveWhatTheyName};
ghost use Rattle.well_shaped.specs.Laws.{StatesAreOrdered};
ghost use Rattle.well_shaped.specs.Safety.{FittingLedgersRunSafely, WellShapedProgramsRunSafely};
ghost use Rattle.well_shaped.specs.StateShape.{KeepStates};
ghost use Rattle.well_shaped.specs.Upgrades.{UpgradesAreWellShaped, UpgradesRunAlike};

/// Being below is an order of state shapes.
pub fn state_shapes_are_ordered()
    ensures { StatesAreOrdered }
{}

/// Where the operations of instructions keep that shapes are below others, or that values lie in
/// them, so do instructions with whole states.
pub fn instructions_keep_states()
    ensures below { KeepStates IsBelow }
    ensures values { KeepStates LiesIn }
{}

/// Of lesser shapes instructions make lesser ones, and ends of sections that pass with shapes pass
/// with lesser ones.
pub fn sections_are_monotone()
    ensures acts { ActsAreMonotone }
    ensures ends { EndsAreMonotone }
{}

/// What is made of shapes below those that are given to a place is below what is given to the
/// places behind it.
pub fn sections_are_followed()
    ensures { SectionsAreFollowed }
{}

/// Where state shapes fit a section, lesser ones do of which each value can be held.
pub fn held_shapes_fit()
    ensures { HeldShapesFit }
{}

/// What the instructions of a section name is there.
pub fn sections_have_what_they_name()
    ensures { SectionsHaveWhatTheyName }
{}

/// The stack of a section has one depth at each place, and a program at most one in all.
pub fn depths_are_one()
    ensures { DepthsAreOne }
{}

/// Over shaped rows, no more than its bounds allow, a well shaped program never faults, and its
/// stack holds at most as many values as its shapes say.
pub fn well_shaped_programs_run_safely()
    ensures { WellShapedProgramsRunSafely }
{}

/// So it does over each ledger that is within its bounds: there rows are few enough, and shaped.
pub fn programs_run_safely_where_ledgers_fit()
    ensures { FittingLedgersRunSafely }
{}

/// What is well shaped in the first version is so in the second, and its stack is as deep.
pub fn upgrades_are_well_shaped()
    ensures { UpgradesAreWellShaped }
{}

/// A well shaped program and its upgrade stand alike after each step, over all rows.
pub fn well_shaped_upgrades_run_alike()
    ensures { UpgradesRunAlike }
{}

/// A well shaped program has a file, where its lists and texts are no longer than a file tells.
pub fn well_shaped_programs_have_files()
    ensures { WellShapedHaveFiles }
{}
