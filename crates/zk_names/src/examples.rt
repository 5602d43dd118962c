// Worked examples of the definitions, which refuse one that is turned together with its body.

ghost use Rattle.zk_names.specs.guards.Examples.{ArraysHaveRanges, ElementsHaveParts, FirstArraysAreTaken};
ghost use Rattle.zk_names.specs.guards.Examples.{FirstPointsOfLines, KindsHaveNames, LastPointsAreTaken};
ghost use Rattle.zk_names.specs.guards.Examples.{NamesOfTheSourceAreFirst, NumbersAreDigits, RoutinesAreFound};
ghost use Rattle.zk_names.specs.guards.Examples.{RoutinesAreLeftOut, RoutinesHaveRanges};

/// Addresses in routines, and at sequence points.
pub fn places_by_example()
    ensures routines_have_ranges { RoutinesHaveRanges }
    ensures last_points_are_taken { LastPointsAreTaken }
    ensures first_points_of_lines { FirstPointsOfLines }
    ensures routines_are_found { RoutinesAreFound }
{}

/// What has names, and arrays.
pub fn things_by_example()
    ensures arrays_have_ranges { ArraysHaveRanges }
    ensures first_arrays_are_taken { FirstArraysAreTaken }
    ensures names_of_the_source_are_first { NamesOfTheSourceAreFirst }
{}

/// What elements say.
#[tactic(auto, unfolding(crate::proofs::guards::Opened::examples))]
pub fn elements_by_example()
    ensures numbers_are_digits { NumbersAreDigits }
    ensures elements_have_parts { ElementsHaveParts }
    ensures routines_are_left_out { RoutinesAreLeftOut }
    ensures kinds_have_names { KindsHaveNames }
{}
