// Laws over programs alone.
ghost use Rattle.ae_tree.specs.FreeThis.{DerivedHaveThisFree};
ghost use Rattle.ae_tree.specs.WellShaped.{DerivedAreWellShaped};

/// A program that the tokens stand for is well shaped.
pub fn derived_programs_are_well_shaped()
    ensures { DerivedAreWellShaped }
{}

/// Where no name among the tokens is spelled `this`, a program that they stand for declares nothing under that name.
pub fn this_is_no_declared_name()
    ensures { DerivedHaveThisFree }
{}
