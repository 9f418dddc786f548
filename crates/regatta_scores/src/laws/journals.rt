//! Laws of what the commands of a journal change.
ghost use Rattle.regatta_scores.specs.JournalLaws.{EachRaceHasACell, DecisionsAdd};
ghost use Rattle.regatta_scores.specs.JournalLaws.{UncountedRacesDontMatter, EachRaceTellsItself};
ghost use Rattle.regatta_scores.specs.JournalLaws.{RacesInAnyOrder, BoatsInAnyOrder};

/// Each boat entered is scored in each race that counts: her row has a cell for each (RRS A2.2).
pub fn each_race_has_a_cell()
    ensures { EachRaceHasACell }
{}

/// After one more decision on a boat in a race, a code or redress replaces the one before, a penalty
/// is one more, and a Clear leaves nothing (RRS A9, A10, 30.2, 44.3(c)).
pub fn decisions_add()
    ensures { DecisionsAdd }
{}

/// What is done in a race that doesn't count leaves the standing as it is.
pub fn uncounted_races_dont_matter()
    ensures { UncountedRacesDontMatter }
{}

/// The standing depends on the entry list and, for each race, on what was done in it, in order. So
/// commands of different races can come in any order, and so can decisions on different boats.
pub fn races_can_be_told_in_any_order()
    ensures races { EachRaceTellsItself }
    ensures commands { RacesInAnyOrder }
    ensures boats { BoatsInAnyOrder }
{}
