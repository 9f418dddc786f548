//! Laws of redress.
ghost use Rattle.regatta_scores.specs.RedressLaws.{RedressLeavesOthers, AveragesLieBetween};
ghost use Rattle.regatta_scores.specs.RedressLaws.{AveragesAreNearest};
ghost use Rattle.regatta_scores.specs.AwardLaws.{EachRaceHasItsAverage, LaterRacesDontCount};
ghost use Rattle.regatta_scores.specs.AwardLaws.{AwardsStand, AwardsStandWhateverComes};

/// Redress of one boat changes no other boat's points in any race, nor which of them are excluded
/// (RRS A6.2).
pub fn redress_leaves_others()
    ensures { RedressLeavesOthers }
{}

/// An average is between the lowest and the highest of the points that it counts, rounded to the
/// nearest tenth (RRS A9).
pub fn averages_lie_between()
    ensures between { AveragesLieBetween }
    ensures nearest { AveragesAreNearest }
{}

/// A boat's points in a race are her own there, or the average of all other races (RRS A9(a)), or
/// that of the races before it (RRS A9(b)).
pub fn each_race_has_its_average()
    ensures { EachRaceHasItsAverage }
{}

/// Later races change no points of earlier ones, except for an average of all races (RRS A9(b)).
pub fn later_races_dont_count()
    ensures { LaterRacesDontCount }
{}

/// Points given as redress are a boat's score, whatever her place, code and penalties, and whatever
/// is done in other races (RRS A9(c)).
pub fn awards_stand()
    ensures here { AwardsStand }
    ensures later { AwardsStandWhateverComes }
{}
